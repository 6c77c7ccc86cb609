//! Packets in the hand.
use crate::common::refusal;
use face::packet::{Packet, Refusal, Unsent};
use face::record::{End, Link, Record};
use floor::planariser::gabriel::Gabriel;
use host::scan::ScanHost;
use host::sides::{Reading, Switching};
use host::table::TableHost;
use kept::links::KeptGraph;
use std::process::Abort;
use std::test::Fail;
use worked::{Floor, KITE};

// What the Gabriel planariser keeps of a host's links.
type Graph<'a, R> = KeptGraph<'a, R, Gabriel>;

// The record of a new packet.
fn opened<R: Reading>(graph: Graph<'_, R>, source: u8, target: u8) -> Result<Record, Refusal> {
    Packet::open(graph, source, target).map(Packet::put_by)
}

// Why a packet was not received, with its record.
#[derive(Clone, Copy, PartialEq, Eq, Debug)]
enum NotReceived {
    HandedBack(Refusal, Record),
    NotHeld(Record),
}

// Takes a packet up, forwards it over one graph and has it received over another.
// Tests and programs stand alone, each with such a function; no call of the library needs two graphs.
fn send<A: Reading, B: Reading>(
    from: Graph<'_, A>,
    to: Graph<'_, B>,
    record: Record,
) -> Result<Record, NotReceived> {
    match Packet::take_up(record) {
        Packet::Held(held) => match held.forward(from) {
            Ok(flight) => Ok(flight.receive(to).put_by()),
            Err(Unsent { why, held }) => Err(NotReceived::HandedBack(why, held.set_aside())),
        },
        Packet::Ended(ended) => Err(NotReceived::NotHeld(ended.file())),
    }
}

// How a packet stands, beside its course.
#[derive(Clone, Copy, PartialEq, Eq, Debug)]
struct Standing {
    holder: u8,
    hand: Option<Link>,
    total: u16,
    end: End,
}

impl Standing {
    fn of(record: Record) -> Standing {
        Standing {
            holder: record.holder,
            hand: record.hand,
            total: record.total,
            end: record.end,
        }
    }

    // Held here, with the link in hand to there, after so many sends.
    fn held(here: u8, there: u8, total: u16) -> Standing {
        let link = Link {
            from: here,
            to: there,
        };
        Standing {
            holder: here,
            hand: Some(link),
            total,
            end: End::UnderWay,
        }
    }

    // At its end here, after so many sends.
    fn ended(here: u8, total: u16, end: End) -> Standing {
        Standing {
            holder: here,
            hand: None,
            total,
            end,
        }
    }
}

// Where the packet is held in turn: the node, the next one and the sends so far.
const WAY: [(u8, u8, u16); 6] = [
    (1, 2, 1),
    (2, 0, 2),
    (0, 1, 3),
    (1, 0, 4),
    (0, 2, 5),
    (2, 3, 6),
];

// The record of a packet from node 0 to node 3 before its last send, set aside and taken up at each node.
fn walked<R: Reading>(rt: &impl Abort, graph: Graph<'_, R>) -> Result<Record, Fail> {
    let mut record = opened(graph, 0, 3)?;
    for (here, there, total) in WAY {
        record = send(graph, graph, record)?;
        assert_eq!(rt; Standing::of(record), Standing::held(here, there, total));
    }
    Ok(record)
}

// Takes a packet from node 0 to node 3, where it is filed.
fn check_way<R: Reading>(rt: &impl Abort, graph: Graph<'_, R>) -> Result<(), Fail> {
    assert_eq!(rt; Standing::of(opened(graph, 0, 3)?), Standing::held(0, 1, 0));
    let record = send(graph, graph, walked(rt, graph)?)?;
    assert_eq!(rt; Standing::of(record), Standing::ended(3, 7, End::Delivered));
    assert_eq!(rt;
        send(graph, graph, record),
        Err(NotReceived::NotHeld(record))
    );
    Ok(())
}

#[test]
fn goes_from_hand_to_hand(rt: HostRuntime) -> Result<(), Fail> {
    let scan: ScanHost = KITE.host(rt.alloc())?;
    check_way(&rt, KeptGraph::new(&scan, &Gabriel))?;
    let table: TableHost = KITE.host(rt.alloc())?;
    check_way(&rt, KeptGraph::new(&table, &Gabriel))
}

#[test]
fn is_handed_back(rt: HostRuntime) -> Result<(), Fail> {
    let host: ScanHost = KITE.host(rt.alloc())?;
    let mut other: TableHost = KITE.host(rt.alloc())?;
    other.withdraw(2);
    let (graph, other) = (
        KeptGraph::new(&host, &Gabriel),
        KeptGraph::new(&other, &Gabriel),
    );
    // It is at node 1 with the link to node 2 in hand, which the other graph does not have.
    let record = send(graph, graph, opened(graph, 0, 3)?)?;
    assert_eq!(rt; Standing::of(record), Standing::held(1, 2, 1));
    let back = NotReceived::HandedBack(Refusal::NoWay, record);
    assert_eq!(rt; send(other, other, record), Err(back));
    let on = send(graph, graph, record)?;
    assert_eq!(rt; Standing::of(on), Standing::held(2, 0, 2));
    let lost = send(graph, other, record)?;
    assert_eq!(rt; Standing::of(lost), Standing::ended(2, 2, End::Unreachable));
    Ok(())
}

#[test]
fn finds_no_such_node(rt: HostRuntime) -> Result<(), Fail> {
    let host: ScanHost = KITE.host(rt.alloc())?;
    let first_two = Floor {
        coordinates: &KITE.coordinates[0..2],
        ..KITE
    };
    let two: TableHost = first_two.host(rt.alloc())?;
    let (graph, two) = (
        KeptGraph::new(&host, &Gabriel),
        KeptGraph::new(&two, &Gabriel),
    );
    let at_one = send(graph, graph, opened(graph, 0, 3)?)?;
    let lost = send(graph, two, at_one)?;
    assert_eq!(rt; Standing::of(lost), Standing::ended(2, 2, End::Unreachable));
    let before_last = walked(&rt, graph)?;
    let at_target = send(graph, two, before_last)?;
    assert_eq!(rt;
        Standing::of(at_target),
        Standing::ended(3, 7, End::Unreachable)
    );
    Ok(())
}

#[test]
fn counts_to_the_last(rt: HostRuntime) -> Result<(), Fail> {
    let host: ScanHost = KITE.host(rt.alloc())?;
    let graph = KeptGraph::new(&host, &Gabriel);
    let mut record = opened(graph, 0, 3)?;
    record.total = 65_534;
    record = send(graph, graph, record)?;
    assert_eq!(rt; Standing::of(record), Standing::held(1, 2, 65_535));
    let back = NotReceived::HandedBack(Refusal::NoWay, record);
    assert_eq!(rt; send(graph, graph, record), Err(back));
    Ok(())
}

#[test]
fn opens_or_refuses(rt: HostRuntime) -> Result<(), Fail> {
    let mut host: TableHost = KITE.host(rt.alloc())?;
    host.withdraw(2);
    let graph = KeptGraph::new(&host, &Gabriel);
    assert_eq!(rt; refusal(opened(graph, 0, 3)), None);
    assert_eq!(rt; refusal(opened(graph, 4, 3)), Some(43));
    assert_eq!(rt; refusal(opened(graph, 0, 4)), Some(43));
    assert_eq!(rt; refusal(opened(graph, 2, 200)), Some(43));
    assert_eq!(rt; refusal(opened(graph, 2, 3)), Some(44));
    assert_eq!(rt; refusal(opened(graph, 0, 2)), Some(44));
    Ok(())
}
