//! Two pasts. On the first a packet that was delivered is unreachable while a node is withdrawn.
use crate::floors::host_of;
use crate::pasts::{Call, tell_past};
use floor::planariser::rule::Rule;
use host::making::Making;
use host::scan::ScanHost;
use host::table::TableHost;
use network::network::Network;
use std::io;
use worked::{Floor, MESH, RING};

// Openings on several lines, refusals, a withdrawal and a return.
const SWITCHED: [Call; 35] = [
    Call::Open {
        line: 0,
        source: 0,
        target: 5,
    },
    Call::Open {
        line: 0,
        source: 1,
        target: 2,
    },
    Call::Open {
        line: 16,
        source: 0,
        target: 5,
    },
    Call::Open {
        line: 1,
        source: 0,
        target: 6,
    },
    Call::Open {
        line: 1,
        source: 5,
        target: 4,
    },
    Call::Open {
        line: 2,
        source: 3,
        target: 3,
    },
    Call::Hop { line: 0 },
    Call::Hop { line: 2 },
    Call::Hop { line: 3 },
    Call::Hop { line: 16 },
    Call::Carry {
        line: 0,
        budget: 9,
        room: 2,
    },
    Call::Carry {
        line: 1,
        budget: 3,
        room: 4,
    },
    Call::Carry {
        line: 1,
        budget: 0,
        room: 0,
    },
    Call::Carry {
        line: 2,
        budget: 9,
        room: 4,
    },
    Call::Carry {
        line: 3,
        budget: 9,
        room: 4,
    },
    Call::Withdraw { node: 2 },
    Call::Collect { line: 0 },
    Call::Collect { line: 2 },
    Call::Collect { line: 2 },
    Call::Carry {
        line: 0,
        budget: 9,
        room: 8,
    },
    Call::Carry {
        line: 1,
        budget: 9,
        room: 8,
    },
    Call::Collect { line: 0 },
    Call::Collect { line: 1 },
    Call::Withdraw { node: 6 },
    Call::Withdraw { node: 2 },
    Call::Withdraw { node: 2 },
    Call::Open {
        line: 0,
        source: 0,
        target: 2,
    },
    Call::Open {
        line: 0,
        source: 0,
        target: 5,
    },
    Call::Return { node: 2 },
    Call::Carry {
        line: 0,
        budget: 100,
        room: 8,
    },
    Call::Collect { line: 0 },
    Call::Return { node: 2 },
    Call::Open {
        line: 0,
        source: 0,
        target: 5,
    },
    Call::Carry {
        line: 0,
        budget: 100,
        room: 8,
    },
    Call::Collect { line: 0 },
];

// A packet that walks back to its best crossing both ways round.
const WALKED: [Call; 9] = [
    Call::Open {
        line: 15,
        source: 0,
        target: 8,
    },
    Call::Carry {
        line: 15,
        budget: 5,
        room: 16,
    },
    Call::Carry {
        line: 15,
        budget: 99,
        room: 4,
    },
    Call::Carry {
        line: 15,
        budget: 99,
        room: 16,
    },
    Call::Hop { line: 15 },
    Call::Collect { line: 15 },
    Call::Open {
        line: 15,
        source: 8,
        target: 0,
    },
    Call::Carry {
        line: 15,
        budget: 99,
        room: 16,
    },
    Call::Collect { line: 15 },
];

// Tells a past on a floor, over a host of it and under the planariser that keeps the Gabriel graph.
fn tell_over<H: Making + Drop>(
    rt: &(impl Print + AllocGlobal),
    floor: Floor,
    past: &[Call],
) -> io::Result<()> {
    let rule = Rule::Gabriel;
    println!(rt; "A past on floor {}, {}, {rule}", floor.name, H::KIND)?;
    let host: H = host_of(rt.alloc(), floor)?;
    tell_past(rt, &mut Network::new(host, rule), past)
}

/// The account of pasts.
pub fn tell(rt: &(impl Print + AllocGlobal)) -> io::Result<()> {
    tell_over::<TableHost>(rt, RING, &SWITCHED)?;
    tell_over::<ScanHost>(rt, MESH, &WALKED)
}
