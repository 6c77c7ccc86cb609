//! Placing at its edges, and links that are blocked or not, worked by hand.

#![tactic(auto)]

#[cfg(test)]
mod tests {
    use floor::map::Map;
    use floor::planariser::Planariser;
    use floor::planariser::gabriel::Gabriel;
    use floor::planariser::relative::Relative;
    use plane::Point;
    use std::test::Fail;

    // The number of the new node, or of the refusal.
    fn place(map: &mut Map, x: u16, y: u16) -> Result<u8, u8> {
        map.place(Point { x, y }).map_err(u8::from)
    }

    // Points in the order of placing, with what each is answered: the number of a refusal is what is tested.
    const PLACINGS: [(u16, u16, Result<u8, u8>); 10] = [
        (0, 0, Ok(0)),
        (1, 1, Ok(1)),
        (2, 2, Err(24)),
        (2, 3, Ok(2)),
        (1, 1, Err(23)),
        (32_768, 5, Err(22)),
        (5, 32_768, Err(22)),
        (32_768, 32_768, Err(22)),
        (32_767, 5, Ok(3)),
        (5, 32_767, Ok(4)),
    ];

    #[test]
    fn answers_the_first_refusal_that_holds(rt: HostRuntime) -> Result<(), Fail> {
        let mut map = Map::new(rt.alloc())?;
        for (x, y, answer) in PLACINGS {
            assert_eq!(rt; place(&mut map, x, y), answer);
        }
        assert_eq!(rt; map.count(), 5);
        for (i, x, y) in [
            (0, 0, 0),
            (1, 1, 1),
            (2, 2, 3),
            (3, 32_767, 5),
            (4, 5, 32_767),
        ] {
            assert_eq!(rt; map.node(i), Some(Point { x, y }));
        }
        assert_eq!(rt; map.node(5), None);
        Ok(())
    }

    // No three points of a parabola are on one line.
    #[test]
    fn takes_64_nodes(rt: HostRuntime) -> Result<(), Fail> {
        let mut map = Map::new(rt.alloc())?;
        for i in 0..64u8 {
            let x = u16::from(i);
            assert_eq!(rt; place(&mut map, x, x * x), Ok(i));
        }
        for (x, y) in [(0, 0), (40_000, 0), (7, 0), (2, 5)] {
            assert_eq!(rt; place(&mut map, x, y), Err(21));
        }
        for i in 0..64u8 {
            let x = u16::from(i);
            assert_eq!(rt; map.node(i), Some(Point { x, y: x * x }));
        }
        assert_eq!(rt; map.points().len(), 64);
        Ok(())
    }

    // The ends of a link, a third node, and whether it blocks the link: in the closed disc, in the lune.
    const LINKS: [((u16, u16), (u16, u16), (u16, u16), bool, bool); 8] = [
        ((0, 0), (4, 3), (4, 0), true, true),
        ((0, 0), (4, 3), (5, 0), false, false),
        ((0, 0), (4, 0), (2, 3), false, true),
        ((0, 0), (4, 0), (2, 4), false, false),
        ((10, 10), (16, 14), (16, 10), true, true),
        ((10, 10), (16, 14), (10, 14), true, true),
        ((16, 10), (10, 14), (10, 10), true, true),
        ((16, 10), (10, 14), (16, 14), true, true),
    ];

    #[test]
    fn blocks_links(rt: HostRuntime) {
        for (u, v, w, in_disc, in_lune) in LINKS {
            let [u, v, w] = [u, v, w].map(Point::from);
            assert_eq!(rt; Gabriel.blocks(u, v, w), in_disc);
            assert_eq!(rt; Gabriel.blocks(v, u, w), in_disc);
            assert_eq!(rt; Relative.blocks(u, v, w), in_lune);
            assert_eq!(rt; Relative.blocks(v, u, w), in_lune);
        }
    }
}
