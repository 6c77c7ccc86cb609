//! The links that each planariser keeps over each host.
use crate::floors::host_of;
use floor::planariser::Planariser;
use floor::planariser::rule::Rule;
use host::making::Making;
use host::neighbours::Neighbours;
use host::scan::ScanHost;
use host::sides::Reading;
use host::table::TableHost;
use kept::links::KeptGraph;
use std::io;
use worked::{Floor, ISLAND, KITE, MESH, RING, WEB};

// Tells the kept links of a graph, the lower node first, and how many they are.
fn tell_links<R: Reading, P: Planariser>(
    rt: &impl Print,
    graph: KeptGraph<'_, R, P>,
) -> io::Result<()> {
    for i in 0..graph.host.count() {
        for k in Neighbours::numbered_from(graph.host, i, i) {
            if graph.is_kept(i, k.number) {
                print!(rt; " {i}-{}", k.number)?;
            }
        }
    }
    println!(rt; ", K = {}", graph.kept_links())
}

// Tells the kept links over a host of a floor, under each planariser.
fn tell_over<H: Making + Drop>(rt: &(impl Print + AllocGlobal), floor: Floor) -> io::Result<()> {
    let host: H = host_of(rt.alloc(), floor)?;
    for rule in [Rule::Gabriel, Rule::Relative] {
        print!(rt; "{}, {}, {rule}:", floor.name, H::KIND)?;
        tell_links(rt, KeptGraph::new(&host, &rule))?;
    }
    Ok(())
}

/// The account of the kept links.
pub fn tell(rt: &(impl Print + AllocGlobal)) -> io::Result<()> {
    println!(rt; "Kept links")?;
    for floor in [RING, KITE, ISLAND, MESH, WEB] {
        tell_over::<ScanHost>(rt, floor)?;
        tell_over::<TableHost>(rt, floor)?;
    }
    Ok(())
}
