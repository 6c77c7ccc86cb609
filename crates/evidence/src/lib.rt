//! The library beside a second implementation: random floors, and packets that find a node gone.

#![tactic(auto)]

#[cfg(test)]
mod table;

#[cfg(test)]
mod tests {
    use crate::table::{SAMPLES, STALE, Sample, Stale, Thinned, Way};
    use face::packet::{Packet, Refusal, Unsent};
    use face::record::Record;
    use floor::planariser::Planariser;
    use floor::planariser::gabriel::Gabriel;
    use floor::planariser::relative::Relative;
    use host::making::Making;
    use host::scan::ScanHost;
    use host::sides::{Reading, Switching};
    use host::table::TableHost;
    use kept::links::KeptGraph;
    use network::list::LentList;
    use network::network::Network;
    use network::types::HopRecord;
    use std::alloc::Global;
    use std::process::Abort;
    use std::test::Fail;
    use worked::{Floor, KITE, NoHost};

    // Whether hops go to the nodes of a way.
    fn follow(hops: &[HopRecord], letters: &str) -> bool {
        let receivers = letters
            .as_bytes()
            .iter()
            .map(|letter| letter.wrapping_sub(b'a'));
        hops.iter().map(|hop| hop.receiver).eq(receivers)
    }

    // One packet of a network goes its way.
    fn check_way<S: Switching, P: Planariser>(
        rt: &impl Abort,
        network: &mut Network<S, P>,
        way: Way,
    ) {
        let mut memory = [HopRecord::default(); 64];
        let mut list = LentList::new(&mut memory);
        assert!(rt; network.open(0, way.source, way.target).is_ok());
        let carried = network.carry(0, u16::MAX, &mut list);
        assert_eq!(rt; carried.is_ok(), !way.receivers.is_empty());
        assert!(rt; follow(list.as_slice(), way.receivers));
        assert_eq!(rt;
            network
                .collect(0)
                .map(|(end, total)| (end, usize::from(total))),
            Ok((way.end, way.receivers.len()))
        );
    }

    // A host of a sample.
    fn host_of<H: Making>(heap: Global, sample: Sample) -> Result<H, NoHost> {
        let floor = Floor {
            name: "sample",
            reach: sample.reach,
            coordinates: sample.points,
        };
        let mut host: H = floor.host(heap)?;
        for node in sample.withdrawn {
            host.withdraw(*node);
        }
        Ok(host)
    }

    // A planariser makes of a host's links what was worked out.
    fn check_thinned<H: Switching + Drop, P: Planariser + Drop>(
        rt: &impl Abort,
        host: H,
        planariser: P,
        thinned: Thinned,
    ) {
        let graph = KeptGraph::new(&host, &planariser);
        assert_eq!(rt; graph.kept_links(), thinned.kept);
        let mut network = Network::new(host, planariser);
        for way in thinned.ways {
            check_way(rt, &mut network, *way);
        }
    }

    // Both planarisers make of a sample's links what was worked out.
    fn check_sample<H: Making + Drop>(
        rt: &impl Abort,
        heap: Global,
        sample: Sample,
    ) -> Result<(), NoHost> {
        check_thinned(rt, host_of::<H>(heap, sample)?, Gabriel, sample.gabriel);
        check_thinned(rt, host_of::<H>(heap, sample)?, Relative, sample.relative);
        Ok(())
    }

    #[test]
    fn agrees_on_random_floors(rt: HostRuntime) -> Result<(), Fail> {
        for sample in SAMPLES {
            check_sample::<ScanHost>(&rt, rt.alloc(), sample)?;
            check_sample::<TableHost>(&rt, rt.alloc(), sample)?;
        }
        Ok(())
    }

    // A packet of a record, unless it has ended, is forwarded over one graph and received over another.
    // Tests and programs stand alone, each with such a function; no call of the library needs two graphs.
    fn across<R: Reading, S: Reading, P: Planariser>(
        before: KeptGraph<'_, R, P>,
        after: KeptGraph<'_, S, P>,
        record: Record,
    ) -> Result<Record, Refusal> {
        match Packet::take_up(record) {
            Packet::Held(held) => match held.forward(before) {
                Ok(flight) => Ok(flight.receive(after).put_by()),
                Err(Unsent { why, held }) => {
                    held.set_aside();
                    Err(why)
                }
            },
            Packet::Ended(ended) => Ok(ended.file()),
        }
    }

    // A packet finds a node gone: before its next send, and while that is in the air.
    fn check_stale<R: Reading, S: Reading, P: Planariser>(
        rt: &impl Abort,
        whole: KeptGraph<'_, R, P>,
        gone: KeptGraph<'_, S, P>,
        stale: Stale,
    ) -> Result<(), Refusal> {
        let mut record = Packet::open(whole, stale.source, stale.target)?.put_by();
        for _ in 0..stale.sends {
            record = across(whole, whole, record)?;
        }
        assert_eq!(rt;
            across(gone, gone, record).err().map(u8::from),
            stale.refused
        );
        let after = across(whole, gone, record)?;
        assert_eq!(rt; after.holder, stale.holder);
        assert_eq!(rt; after.end, stale.end);
        assert_eq!(rt; after.total, u16::from(stale.sends) + 1);
        Ok(())
    }

    #[test]
    fn agrees_where_a_node_is_gone(rt: HostRuntime) -> Result<(), Fail> {
        for stale in STALE {
            let whole: ScanHost = KITE.host(rt.alloc())?;
            let mut gone: TableHost = KITE.host(rt.alloc())?;
            gone.withdraw(stale.gone);
            let whole = KeptGraph::new(&whole, &Gabriel);
            let gone = KeptGraph::new(&gone, &Gabriel);
            check_stale(&rt, whole, gone, stale)?;
        }
        Ok(())
    }
}
