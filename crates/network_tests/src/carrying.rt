//! What stops a carry, and what it lists.
use crate::common::{network_of, refusal};
use face::record::Phase;
use floor::planariser::Planariser;
use floor::planariser::gabriel::Gabriel;
use host::scan::ScanHost;
use host::sides::Switching;
use host::table::TableHost;
use network::list::LentList;
use network::network::Network;
use network::types::{Carried, HopRecord, Refusal, Stopper};
use std::process::Abort;
use std::test::Fail;
use worked::{KITE, MESH};

// What memory holds before it is lent: no node sends to itself.
const BLANK: HopRecord = HopRecord {
    sender: 99,
    receiver: 99,
    phase: Phase::Back,
};

// Checks that a list holds these hops.
fn check_list(rt: &impl Abort, listed: &[HopRecord], hops: &[(u8, u8, Phase)]) {
    let told = listed
        .iter()
        .map(|hop| (hop.sender, hop.receiver, hop.phase));
    assert!(rt; told.eq(hops.iter().copied()));
}

// A carry that made so many hops and was stopped by this.
fn stopped(hops: u16, stopper: Stopper) -> Result<Carried, Refusal> {
    Ok(Carried { hops, stopper })
}

// The way from node 0 to node 3 on the kite, in three parts.
const CLOSING: [(u8, u8, Phase); 3] = [
    (0, 1, Phase::Round),
    (1, 2, Phase::Round),
    (2, 0, Phase::Round),
];

const CHANGING: [(u8, u8, Phase); 2] = [(0, 1, Phase::Ahead), (1, 0, Phase::Round)];

const ARRIVING: [(u8, u8, Phase); 2] = [(0, 2, Phase::Round), (2, 3, Phase::Round)];

// Carries until the list is full, and then no further.
fn check_full<H: Switching, P: Planariser>(rt: &impl Abort, network: &mut Network<H, P>) {
    let mut three = [BLANK; 3];
    let mut list = LentList::new(&mut three);
    assert_eq!(rt; network.carry(0, 10, &mut list), stopped(3, Stopper::Full));
    assert_eq!(rt; network.carry(0, 10, &mut list), stopped(0, Stopper::Full));
    assert_eq!(rt; network.carry(0, 0, &mut list), stopped(0, Stopper::Budget));
    check_list(rt, list.as_slice(), &CLOSING);
}

// Carries until the budget is used up.
fn check_budget<H: Switching, P: Planariser>(rt: &impl Abort, network: &mut Network<H, P>) {
    let mut ten = [BLANK; 10];
    let mut list = LentList::new(&mut ten);
    assert_eq!(rt; network.carry(0, 2, &mut list), stopped(2, Stopper::Budget));
    check_list(rt, list.as_slice(), &CHANGING);
}

// Carries to the end, and then no further.
fn check_end<H: Switching, P: Planariser>(rt: &impl Abort, network: &mut Network<H, P>) {
    let mut twenty = [BLANK; 20];
    let mut list = LentList::new(&mut twenty);
    assert_eq!(rt;
        network.carry(0, 100, &mut list),
        stopped(2, Stopper::Ended)
    );
    assert_eq!(rt; refusal(network.carry(0, 100, &mut list)), Some(46));
    check_list(rt, list.as_slice(), &ARRIVING);
}

// Carries a packet by each of the three stoppers in turn.
fn check_stoppers<H: Switching, P: Planariser>(rt: &impl Abort, network: &mut Network<H, P>) {
    assert_eq!(rt; refusal(network.open(0, 0, 3)), None);
    check_full(rt, network);
    check_budget(rt, network);
    check_end(rt, network);
}

#[test]
fn stops(rt: HostRuntime) -> Result<(), Fail> {
    let mut scan = network_of::<ScanHost, _>(rt.alloc(), KITE, Gabriel)?;
    check_stoppers(&rt, &mut scan);
    let mut table = network_of::<TableHost, _>(rt.alloc(), KITE, Gabriel)?;
    check_stoppers(&rt, &mut table);
    Ok(())
}

// Carries a packet to its end, which comes before the budget, and the budget before the memory.
fn check_order<H: Switching, P: Planariser>(rt: &impl Abort, network: &mut Network<H, P>) {
    assert_eq!(rt; refusal(network.open(0, 0, 3)), None);
    let mut four = [BLANK; 4];
    let mut list = LentList::new(&mut four);
    assert_eq!(rt; network.carry(0, 4, &mut list), stopped(4, Stopper::Budget));
    let mut three = [BLANK; 3];
    let mut list = LentList::new(&mut three);
    assert_eq!(rt; network.carry(0, 3, &mut list), stopped(3, Stopper::Ended));
}

#[test]
fn stops_in_order(rt: HostRuntime) -> Result<(), Fail> {
    let mut scan = network_of::<ScanHost, _>(rt.alloc(), KITE, Gabriel)?;
    check_order(&rt, &mut scan);
    let mut table = network_of::<TableHost, _>(rt.alloc(), KITE, Gabriel)?;
    check_order(&rt, &mut table);
    Ok(())
}

// A way of three rounds: ahead to the first crossing, back to the second.
const THREE_ROUNDS: [(u8, u8, Phase); 14] = [
    (0, 6, Phase::Round),
    (6, 3, Phase::Round),
    (3, 0, Phase::Round),
    (0, 6, Phase::Ahead),
    (6, 4, Phase::Round),
    (4, 2, Phase::Round),
    (2, 5, Phase::Round),
    (5, 1, Phase::Round),
    (1, 3, Phase::Round),
    (3, 6, Phase::Round),
    (6, 3, Phase::Back),
    (3, 1, Phase::Back),
    (1, 5, Phase::Round),
    (5, 8, Phase::Round),
];

// Checks the mesh's way from node 0 to node 8, in one list over two carries.
fn check_rounds<H: Switching, P: Planariser>(rt: &impl Abort, network: &mut Network<H, P>) {
    assert_eq!(rt; refusal(network.open(7, 0, 8)), None);
    let mut memory = [BLANK; 20];
    let mut list = LentList::new(&mut memory);
    assert_eq!(rt;
        network.carry(7, 11, &mut list),
        stopped(11, Stopper::Budget)
    );
    assert_eq!(rt; network.carry(7, 36, &mut list), stopped(3, Stopper::Ended));
    check_list(rt, list.as_slice(), &THREE_ROUNDS);
}

#[test]
fn lists_each_phase(rt: HostRuntime) -> Result<(), Fail> {
    let mut scan = network_of::<ScanHost, _>(rt.alloc(), MESH, Gabriel)?;
    check_rounds(&rt, &mut scan);
    let mut table = network_of::<TableHost, _>(rt.alloc(), MESH, Gabriel)?;
    check_rounds(&rt, &mut table);
    Ok(())
}
