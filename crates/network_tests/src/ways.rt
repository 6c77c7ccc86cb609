//! Packets hop by hop over the floors worked by hand.
use crate::common::{network_of, refusal};
use face::record::End;
use floor::planariser::Planariser;
use floor::planariser::gabriel::Gabriel;
use floor::planariser::relative::Relative;
use host::making::Making;
use host::scan::ScanHost;
use host::sides::Switching;
use host::table::TableHost;
use network::network::Network;
use std::alloc::Global;
use std::process::Abort;
use std::test::Fail;
use worked::{Floor, ISLAND, KITE, NoHost, RING};

// A packet from node 0: its target, the receivers of its hops, and its end.
#[derive(Clone, Copy)]
struct Way {
    target: u8,
    receivers: &'static [u8],
    end: End,
}

const TO_ITSELF: Way = Way {
    target: 0,
    receivers: &[],
    end: End::Delivered,
};

// Checks each hop of a packet, and its end.
fn check_way<H: Switching, P: Planariser>(rt: &impl Abort, network: &mut Network<H, P>, way: Way) {
    assert_eq!(rt; refusal(network.open(3, 0, way.target)), None);
    let mut holder = 0;
    for receiver in way.receivers {
        assert_eq!(rt; network.hop(3), Ok((holder, *receiver)));
        holder = *receiver;
    }
    assert_eq!(rt; refusal(network.hop(3)), Some(46));
    assert_eq!(rt;
        network
            .collect(3)
            .map(|(end, total)| (end, usize::from(total))),
        Ok((way.end, way.receivers.len()))
    );
}

// Checks a way over both hosts, and that of a packet to its own source.
fn check_hosts<P: Planariser + Copy>(
    rt: &impl Abort,
    heap: Global,
    floor: Floor,
    planariser: P,
    way: Way,
) -> Result<(), NoHost> {
    let mut scan = network_of::<ScanHost, P>(heap, floor, planariser)?;
    let mut table = network_of::<TableHost, P>(heap, floor, planariser)?;
    for way in [way, TO_ITSELF] {
        check_way(rt, &mut scan, way);
        check_way(rt, &mut table, way);
    }
    Ok(())
}

const ROUND_THE_TRIANGLE: Way = Way {
    target: 3,
    receivers: &[1, 2, 0, 1, 0, 2, 3],
    end: End::Delivered,
};

const ALONG_THE_TAIL: Way = Way {
    target: 3,
    receivers: &[1, 2, 3],
    end: End::Delivered,
};

#[test]
fn delivers_where_a_way_is(rt: HostRuntime) -> Result<(), Fail> {
    check_hosts(&rt, rt.alloc(), KITE, Gabriel, ROUND_THE_TRIANGLE)?;
    check_hosts(&rt, rt.alloc(), KITE, Relative, ALONG_THE_TAIL)?;
    Ok(())
}

const TWICE_ROUND: Way = Way {
    target: 3,
    receivers: &[1, 2, 0, 1, 0, 2, 1],
    end: End::Unreachable,
};

const THERE_AND_BACK: Way = Way {
    target: 3,
    receivers: &[1, 2, 1, 0],
    end: End::Unreachable,
};

#[test]
fn ends_where_no_way_is(rt: HostRuntime) -> Result<(), Fail> {
    check_hosts(&rt, rt.alloc(), ISLAND, Gabriel, TWICE_ROUND)?;
    check_hosts(&rt, rt.alloc(), ISLAND, Relative, THERE_AND_BACK)?;
    Ok(())
}

const ROUND_THE_GAP: Way = Way {
    target: 5,
    receivers: &[4, 0, 1, 2, 3, 5],
    end: End::Delivered,
};

const BACK_FROM_THE_GAP: Way = Way {
    target: 5,
    receivers: &[4, 0, 1, 0],
    end: End::Unreachable,
};

// Checks that a packet is delivered just while node 2 is in service.
fn check_switched<H: Making + Drop, P: Planariser + Drop>(
    rt: &impl Abort,
    heap: Global,
    planariser: P,
) -> Result<(), NoHost> {
    let mut network = network_of::<H, P>(heap, RING, planariser)?;
    check_way(rt, &mut network, ROUND_THE_GAP);
    assert_eq!(rt; refusal(network.withdraw(2)), None);
    check_way(rt, &mut network, BACK_FROM_THE_GAP);
    assert_eq!(rt; refusal(network.restore(2)), None);
    check_way(rt, &mut network, ROUND_THE_GAP);
    Ok(())
}

#[test]
fn goes_round_a_gap(rt: HostRuntime) -> Result<(), Fail> {
    check_switched::<ScanHost, _>(&rt, rt.alloc(), Gabriel)?;
    check_switched::<ScanHost, _>(&rt, rt.alloc(), Relative)?;
    check_switched::<TableHost, _>(&rt, rt.alloc(), Gabriel)?;
    check_switched::<TableHost, _>(&rt, rt.alloc(), Relative)?;
    Ok(())
}
