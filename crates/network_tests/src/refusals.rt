//! What a network refuses, and with which number first.
use crate::common::{network_of, refusal};
use floor::planariser::Planariser;
use floor::planariser::gabriel::Gabriel;
use floor::planariser::relative::Relative;
use host::scan::ScanHost;
use host::sides::Switching;
use host::table::TableHost;
use network::list::LentList;
use network::network::Network;
use network::types::{Carried, HopRecord, Refusal};
use std::process::Abort;
use std::test::Fail;
use worked::KITE;

// A carry of at most one hop.
fn carry<H: Switching, P: Planariser>(
    network: &mut Network<H, P>,
    line: u8,
) -> Result<Carried, Refusal> {
    let mut memory = [HopRecord::default(); 4];
    network.carry(line, 1, &mut LentList::new(&mut memory))
}

// Checks that hop, carry and collect on a line are each refused with this number.
fn check_line<H: Switching, P: Planariser>(
    rt: &impl Abort,
    network: &mut Network<H, P>,
    line: u8,
    number: u8,
) {
    assert_eq!(rt; refusal(network.hop(line)), Some(number));
    assert_eq!(rt; refusal(carry(network, line)), Some(number));
    assert_eq!(rt; refusal(network.collect(line)), Some(number));
}

// Openings in turn while node 1 is withdrawn: line, source, target, and the number of the refusal, which is what is tested.
const OPENINGS: [(u8, u8, u8, Option<u8>); 17] = [
    (16, 0, 3, Some(41)),
    (16, 200, 3, Some(41)),
    (255, 0, 3, Some(41)),
    (0, 200, 3, Some(43)),
    (0, 0, 200, Some(43)),
    (0, 4, 3, Some(43)),
    (0, 1, 200, Some(43)),
    (0, 1, 3, Some(44)),
    (0, 3, 1, Some(44)),
    (0, 1, 1, Some(44)),
    (15, 0, 3, None),
    (15, 0, 3, Some(42)),
    (15, 200, 3, Some(42)),
    (15, 1, 3, Some(42)),
    (0, 3, 0, None),
    (0, 0, 200, Some(42)),
    (16, 0, 3, Some(41)),
];

// Opens two packets, from node 0 to node 3 and back, beside much that is refused.
fn check_openings<H: Switching, P: Planariser>(rt: &impl Abort, network: &mut Network<H, P>) {
    for (line, source, target, number) in OPENINGS {
        assert_eq!(rt; refusal(network.open(line, source, target)), number);
    }
}

// Checks how withdrawing and then restoring a node are answered.
fn check_switch<H: Switching, P: Planariser>(
    rt: &impl Abort,
    network: &mut Network<H, P>,
    node: u8,
    number: Option<u8>,
) {
    assert_eq!(rt; refusal(network.withdraw(node)), number);
    assert_eq!(rt; refusal(network.restore(node)), number);
}

// Checks what is refused while a packet is under way, the one on this line.
fn check_under_way<H: Switching, P: Planariser>(
    rt: &impl Abort,
    network: &mut Network<H, P>,
    line: u8,
) {
    assert_eq!(rt; refusal(network.collect(line)), Some(47));
    check_switch(rt, network, 200, Some(43));
    check_switch(rt, network, 4, Some(43));
    check_switch(rt, network, 0, Some(48));
    check_switch(rt, network, 1, Some(48));
    check_line(rt, network, 16, 41);
    check_line(rt, network, 1, 45);
}

// Takes the packet on a line through its two hops, and checks that no third follows.
fn check_two_hops<H: Switching, P: Planariser>(
    rt: &impl Abort,
    network: &mut Network<H, P>,
    line: u8,
) {
    check_under_way(rt, network, line);
    assert_eq!(rt; refusal(network.hop(line)), None);
    check_under_way(rt, network, line);
    assert_eq!(rt; refusal(carry(network, line)), None);
    assert_eq!(rt; refusal(network.hop(line)), Some(46));
    assert_eq!(rt; refusal(carry(network, line)), Some(46));
    assert_eq!(rt; refusal(network.open(line, 0, 3)), Some(42));
}

// Checks that a line is emptied by collecting, once.
fn check_emptied<H: Switching, P: Planariser>(
    rt: &impl Abort,
    network: &mut Network<H, P>,
    line: u8,
) {
    assert_eq!(rt; refusal(network.collect(line)), None);
    check_line(rt, network, line, 45);
    assert_eq!(rt; refusal(network.open(line, 0, 0)), None);
}

// Checks empty lines, and withdraws node 1; a mark that is already so is accepted.
fn check_idle<H: Switching, P: Planariser>(rt: &impl Abort, network: &mut Network<H, P>) {
    check_line(rt, network, 16, 41);
    check_line(rt, network, 15, 45);
    check_switch(rt, network, 200, Some(43));
    assert_eq!(rt; refusal(network.restore(1)), None);
    assert_eq!(rt; refusal(network.withdraw(1)), None);
    assert_eq!(rt; refusal(network.withdraw(1)), None);
}

// Checks every refusal on the kite.
fn check_refusals<H: Switching, P: Planariser>(rt: &impl Abort, network: &mut Network<H, P>) {
    check_idle(rt, network);
    check_openings(rt, network);
    check_two_hops(rt, network, 15);
    check_two_hops(rt, network, 0);
    check_switch(rt, network, 200, Some(43));
    check_switch(rt, network, 1, None);
    check_emptied(rt, network, 15);
    check_emptied(rt, network, 0);
}

#[test]
fn refuses_in_order(rt: HostRuntime) -> Result<(), Fail> {
    let mut scan = network_of::<ScanHost, _>(rt.alloc(), KITE, Gabriel)?;
    check_refusals(&rt, &mut scan);
    let mut table = network_of::<TableHost, _>(rt.alloc(), KITE, Relative)?;
    check_refusals(&rt, &mut table);
    Ok(())
}

#[test]
fn opens_on_sixteen_lines(rt: HostRuntime) -> Result<(), Fail> {
    let mut network = network_of::<ScanHost, _>(rt.alloc(), KITE, Gabriel)?;
    for line in 0..=15 {
        assert_eq!(rt; refusal(network.open(line, 0, 3)), None);
    }
    for line in 0..=15 {
        assert_eq!(rt; refusal(network.open(line, 0, 3)), Some(42));
    }
    assert_eq!(rt; refusal(network.open(16, 0, 3)), Some(41));
    Ok(())
}
