//! The library's calls behind functions that other languages can link: whole floors of packets, for measuring.

#![tactic(auto)]

use face::record::End;
use floor::map::Map;
use floor::planariser::Planariser;
use floor::planariser::gabriel::Gabriel;
use floor::planariser::relative::Relative;
use floor::planariser::rule::Rule;
use host::kind::HostKind;
use host::making::Making;
use host::scan::ScanHost;
use host::sides::Switching;
use host::table::TableHost;
use network::list::LentList;
use network::network::Network;
use network::types::HopRecord;
use plane::Point;
use std::alloc::{AllocError, Global};

/// What came of some packets.
#[repr(C)]
#[derive(Clone, Copy, PartialEq, Eq, Debug, Default)]
pub struct Sums {
    /// How many were delivered.
    pub delivered: u64,
    /// The sends of all.
    pub sends: u64,
    /// A number that every receiver, in its place, has its part in.
    pub mixed: u64,
}

impl Sums {
    // One send more.
    fn count(&mut self, hop: HopRecord) {
        self.sends = self.sends.wrapping_add(1);
        self.mixed = self
            .mixed
            .wrapping_mul(31)
            .wrapping_add(u64::from(hop.receiver));
    }
}

// The map of some points, those that can be placed. Their coordinates come in two arrays, as the C interface passes them.
fn map_of(heap: Global, xs: &[u16], ys: &[u16]) -> Result<Map, AllocError> {
    let mut map = Map::new(heap)?;
    for (x, y) in xs.iter().zip(ys) {
        let _ = map.place(Point { x: *x, y: *y });
    }
    Ok(map)
}

// The most sends of a packet: three for each of the 3 * 64 - 6 = 186 links that 64 nodes can keep without a crossing.
// That is not proved, so no library says it, and each program has its own.
const MOST_SENDS: usize = 558;

// Runs one packet to its end on line 0.
fn run<H: Switching, P: Planariser>(
    network: &mut Network<H, P>,
    source: u8,
    target: u8,
    sums: &mut Sums,
) {
    let mut memory = [HopRecord::default(); MOST_SENDS];
    let mut list = LentList::new(&mut memory);
    let _ = network.open(0, source, target);
    let _ = network.carry(0, u16::MAX, &mut list);
    for hop in list.as_slice() {
        sums.count(*hop);
    }
    if let Ok((End::Delivered, _)) = network.collect(0) {
        sums.delivered = sums.delivered.wrapping_add(1);
    }
}

// Every ordered pair of different nodes, so many times over.
fn pairs<H: Switching + Drop, P: Planariser + Drop>(host: H, planariser: P, times: u32) -> Sums {
    let nodes = host.count();
    let mut network = Network::new(host, planariser);
    let mut sums = Sums::default();
    for _ in 0..times {
        for source in 0..nodes {
            for target in 0..nodes {
                if source != target {
                    run(&mut network, source, target, &mut sums);
                }
            }
        }
    }
    sums
}

// The same over one kind of host; none where no host is made. Each planariser is a type here: picked once, not asked about at every link.
fn pairs_over<H: Making + Drop>(map: Map, reach: u16, rule: Rule, times: u32) -> Option<Sums> {
    let host = H::make(map, reach).ok()?;
    Some(match rule {
        Rule::Gabriel => pairs(host, Gabriel, times),
        Rule::Relative => pairs(host, Relative, times),
    })
}

/// Runs a packet for every ordered pair of different nodes, so many times over: planariser 1 keeps the Gabriel graph, 2 the
/// relative neighbourhood graph; host 1 scans, 2 keeps a table.
#[unsafe(no_mangle)]
pub extern "C" fn kalzhuna_pairs(
    heap: Global,
    xs: &[u16],
    ys: &[u16],
    reach: u16,
    planariser: u8,
    host: u8,
    times: u32,
) -> Sums {
    let (Ok(map), Ok(rule), Ok(kind)) = (
        map_of(heap, xs, ys),
        Rule::try_from(planariser),
        HostKind::try_from(host),
    ) else {
        return Sums::default();
    };
    let sums = match kind {
        HostKind::Scan => pairs_over::<ScanHost>(map, reach, rule, times),
        HostKind::Table => pairs_over::<TableHost>(map, reach, rule, times),
    };
    sums.unwrap_or_default()
}
