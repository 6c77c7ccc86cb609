//! Kept links of small floors, worked by hand.

#![tactic(auto)]

#[cfg(test)]
mod tests {
    use floor::planariser::Planariser;
    use floor::planariser::gabriel::Gabriel;
    use floor::planariser::relative::Relative;
    use host::scan::ScanHost;
    use host::sides::{Reading, Switching};
    use host::table::TableHost;
    use kept::links::KeptGraph;
    use std::process::Abort;
    use std::test::Fail;
    use worked::{Floor, ISLAND, KITE, MESH, WEB};

    const EMPTY: Floor = Floor {
        name: "no nodes",
        reach: 8,
        coordinates: &[],
    };

    // Each corner is on the circle over the diagonal that it is not an end of.
    const RECTANGLE: Floor = Floor {
        name: "rectangle",
        reach: 8,
        coordinates: &[(10, 10), (16, 10), (16, 14), (10, 14)],
    };

    // The last node is on the circle over the link between the others.
    const RIGHT_ANGLE: Floor = Floor {
        name: "right angle",
        reach: 5,
        coordinates: &[(0, 0), (4, 3), (4, 0)],
    };

    // Checks that links are kept both ways, those of numbers that are no nodes too, and how many there are.
    fn check_graph<R: Reading, P: Planariser>(
        rt: &impl Abort,
        graph: KeptGraph<'_, R, P>,
        kept: u16,
    ) {
        for i in 0..=graph.host.count() {
            assert!(rt; !graph.is_kept(i, i));
            assert!(rt; !graph.is_kept(i, 255));
            for j in 0..i {
                assert_eq!(rt; graph.is_kept(i, j), graph.is_kept(j, i));
            }
        }
        assert_eq!(rt; graph.kept_links(), kept);
    }

    // Checks both graphs of a host, by the number of links of each.
    fn check_host<R: Reading>(rt: &impl Abort, host: &R, gabriel: u16, relative: u16) {
        check_graph(rt, KeptGraph::new(host, &Gabriel), gabriel);
        check_graph(rt, KeptGraph::new(host, &Relative), relative);
    }

    // Floors, and how many links are kept: in the Gabriel graph, in the relative one.
    const COUNTS: [(Floor, u16, u16); 7] = [
        (EMPTY, 0, 0),
        (KITE, 4, 3),
        (ISLAND, 3, 2),
        (MESH, 12, 9),
        (WEB, 17, 12),
        (RECTANGLE, 4, 4),
        (RIGHT_ANGLE, 2, 2),
    ];

    #[test]
    fn counts_kept_links(rt: HostRuntime) -> Result<(), Fail> {
        for (floor, gabriel, relative) in COUNTS {
            let scan: ScanHost = floor.host(rt.alloc())?;
            check_host(&rt, &scan, gabriel, relative);
            let table: TableHost = floor.host(rt.alloc())?;
            check_host(&rt, &table, gabriel, relative);
        }
        Ok(())
    }

    // Two nodes of the kite, and whether the link between them is kept: in the Gabriel graph, in the relative one.
    const LINKS: [(u8, u8, bool, bool); 7] = [
        (0, 1, true, true),
        (0, 2, true, false),
        (0, 3, false, false),
        (1, 2, true, true),
        (1, 3, false, false),
        (2, 3, true, true),
        (3, 4, false, false),
    ];

    // Checks each of those links.
    fn check_links<R: Reading>(rt: &impl Abort, host: &R) {
        for (i, j, gabriel, relative) in LINKS {
            assert_eq!(rt; KeptGraph::new(host, &Gabriel).is_kept(i, j), gabriel);
            assert_eq!(rt; KeptGraph::new(host, &Relative).is_kept(i, j), relative);
        }
    }

    #[test]
    fn keeps_links(rt: HostRuntime) -> Result<(), Fail> {
        let scan: ScanHost = KITE.host(rt.alloc())?;
        check_links(&rt, &scan);
        let table: TableHost = KITE.host(rt.alloc())?;
        check_links(&rt, &table);
        Ok(())
    }

    // Checks that the long side is kept just while the node opposite is withdrawn.
    fn check_withdrawn<H: Switching>(rt: &impl Abort, host: &mut H) {
        assert!(rt; !KeptGraph::new(host, &Gabriel).is_kept(0, 1));
        host.withdraw(2);
        assert!(rt; KeptGraph::new(host, &Gabriel).is_kept(0, 1));
        assert_eq!(rt; KeptGraph::new(host, &Gabriel).kept_links(), 1);
        host.restore(2);
        assert!(rt; !KeptGraph::new(host, &Gabriel).is_kept(0, 1));
        assert_eq!(rt; KeptGraph::new(host, &Gabriel).kept_links(), 2);
    }

    #[test]
    fn keeps_what_nothing_in_service_blocks(rt: HostRuntime) -> Result<(), Fail> {
        let mut scan: ScanHost = RIGHT_ANGLE.host(rt.alloc())?;
        check_withdrawn(&rt, &mut scan);
        let mut table: TableHost = RIGHT_ANGLE.host(rt.alloc())?;
        check_withdrawn(&rt, &mut table);
        Ok(())
    }
}
