//! Packets are sent to their ends, hop by hop.
use crate::floors::host_of;
use crate::refusals::tell_refusal;
use crate::sends::sends_of;
use delivery::deliver;
use face::packet::{Packet, Refusal};
use face::record::Record;
use floor::planariser::Planariser;
use floor::planariser::rule::Rule;
use host::kind::HostKind;
use host::making::Making;
use host::scan::ScanHost;
use host::sides::Reading;
use host::table::TableHost;
use kept::links::KeptGraph;
use std::io;
use worked::{Floor, ISLAND, KITE, MESH, RING, WEB};

/// A packet to be sent over a floor, one node of which may be withdrawn before.
#[derive(Clone, Copy)]
struct Errand {
    floor: Floor,
    without: Option<u8>,
    source: u8,
    target: u8,
}

// The packets of the account.
const ERRANDS: [Errand; 10] = [
    Errand {
        floor: RING,
        without: None,
        source: 0,
        target: 5,
    },
    Errand {
        floor: RING,
        without: Some(2),
        source: 0,
        target: 5,
    },
    Errand {
        floor: KITE,
        without: None,
        source: 0,
        target: 3,
    },
    Errand {
        floor: ISLAND,
        without: None,
        source: 0,
        target: 3,
    },
    Errand {
        floor: MESH,
        without: None,
        source: 0,
        target: 8,
    },
    Errand {
        floor: WEB,
        without: None,
        source: 0,
        target: 10,
    },
    Errand {
        floor: KITE,
        without: None,
        source: 2,
        target: 2,
    },
    Errand {
        floor: ISLAND,
        without: None,
        source: 3,
        target: 0,
    },
    Errand {
        floor: KITE,
        without: None,
        source: 0,
        target: 4,
    },
    Errand {
        floor: KITE,
        without: Some(3),
        source: 0,
        target: 3,
    },
];

// Sends the packet of a record to its end, and tells each receiver.
fn tell_hops<R: Reading, P: Planariser>(
    rt: &impl Print,
    graph: KeptGraph<'_, R, P>,
    record: Record,
) -> io::Result<()> {
    for record in sends_of(graph, record) {
        print!(rt; " {}", record.holder)?;
    }
    Ok(())
}

// The record of an errand's packet when it is opened, and at its end: that one is run to in one call.
fn run<R: Reading, P: Planariser>(
    graph: KeptGraph<'_, R, P>,
    errand: Errand,
    budget: u16,
) -> Result<(Record, Record), Refusal> {
    let opened = Packet::open(graph, errand.source, errand.target)?.put_by();
    let ended = deliver(graph, errand.source, errand.target, budget)?;
    Ok((opened, ended))
}

// Tells an errand's packet, with three sends for each kept link: its receivers, end and total, or the number of the refusal.
fn tell_packet<R: Reading, P: Planariser>(
    rt: &impl Print,
    graph: KeptGraph<'_, R, P>,
    errand: Errand,
) -> io::Result<()> {
    let budget = graph.kept_links().saturating_mul(3);
    match run(graph, errand, budget) {
        Ok((opened, ended)) => {
            tell_hops(rt, graph, opened)?;
            println!(rt; ", {} after {} of at most {budget}", ended.end, ended.total)
        }
        Err(refusal) => {
            print!(rt; " ")?;
            tell_refusal(rt, refusal)
        }
    }
}

// Tells what is sent: on which floor, without which node, over which host and under which planariser.
fn tell_errand(rt: &impl Print, errand: Errand, kind: HostKind, rule: Rule) -> io::Result<()> {
    print!(rt; "{}", errand.floor.name)?;
    if let Some(node) = errand.without {
        print!(rt; " without {node}")?;
    }
    print!(rt; ", {kind}, {rule}, {} to {}:", errand.source, errand.target)
}

// Withdraws what an errand withdraws from a host of its floor, and tells its packet under each planariser.
fn tell_over<H: Making + Drop>(rt: &(impl Print + AllocGlobal), errand: Errand) -> io::Result<()> {
    let mut host: H = host_of(rt.alloc(), errand.floor)?;
    if let Some(node) = errand.without {
        host.withdraw(node);
    }
    for rule in [Rule::Gabriel, Rule::Relative] {
        tell_errand(rt, errand, H::KIND, rule)?;
        tell_packet(rt, KeptGraph::new(&host, &rule), errand)?;
    }
    Ok(())
}

/// The account of packets.
pub fn tell(rt: &(impl Print + AllocGlobal)) -> io::Result<()> {
    println!(rt; "Packets")?;
    for errand in ERRANDS {
        tell_over::<ScanHost>(rt, errand)?;
        tell_over::<TableHost>(rt, errand)?;
    }
    Ok(())
}
