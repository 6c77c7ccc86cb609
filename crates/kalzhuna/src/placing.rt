//! Nodes are placed, and told with their numbers; so are the links of those that hear each other.
use crate::refusals::tell_refusal;
use floor::map::Map;
use floor::node::Node;
use host::making::Making;
use host::neighbours::Neighbours;
use host::scan::ScanHost;
use host::sides::Reading;
use network::list::{AppendRefusal, LentList};
use network::types::LinkRecord;
use plane::{Point, squared_distance};
use std::io;
use worked::RING;

// Points as they are tried: some are taken, some lie on a line with two others, some are too far out.
const TRIES: [(u16, u16); 12] = [
    (0, 10),
    (3, 18),
    (0, 10),
    (6, 26),
    (11, 20),
    (18, 17),
    (6, 5),
    (32_768, 1),
    (1, 32_768),
    (20, 10),
    (10, 10),
    (3, 18),
];

// Tries a point, and tells the number of the new node or of the refusal.
fn tell_placing(rt: &impl Print, map: &mut Map, p: Point) -> io::Result<()> {
    print!(rt; "({}, {}) is ", p.x, p.y)?;
    match map.place(p) {
        Ok(number) => println!(rt; "node {number}"),
        Err(refusal) => tell_refusal(rt, refusal),
    }
}

// The link from node `i` of a host to a neighbour.
fn link_to<R: Reading>(host: &R, i: u8, neighbour: Node) -> Option<LinkRecord> {
    let here = host.radio(i)?;
    let squared_length = u32::try_from(squared_distance(here.point, neighbour.point)).ok()?;
    Some(LinkRecord {
        a: i,
        b: neighbour.number,
        squared_length,
    })
}

// Appends every link of a host to a list once, the lower node first, until one is refused.
fn list_links<R: Reading>(
    host: &R,
    list: &mut LentList<'_, LinkRecord>,
) -> Result<(), AppendRefusal> {
    for i in 0..host.count() {
        let above = Neighbours::numbered_from(host, i, i);
        for link in above.filter_map(|neighbour| link_to(host, i, neighbour)) {
            list.append(link)?;
        }
    }
    Ok(())
}

// Lists the links of a host in room for so many, at most 16, and tells them.
fn tell_links<R: Reading>(rt: &impl Print, host: &R, room: usize) -> io::Result<()> {
    let mut memory = [LinkRecord::default(); 16];
    let mut list = LentList::new(&mut memory[0..room.min(16)]);
    let answer = list_links(host, &mut list);
    for link in list.as_slice() {
        println!(rt;
            "{} and {} hear each other, squared distance {}",
            link.a, link.b, link.squared_length
        )?;
    }
    match answer {
        Ok(()) => println!(rt; "{} links", list.as_slice().len()),
        Err(refusal) => {
            print!(rt; "the next is ")?;
            tell_refusal(rt, refusal)
        }
    }
}

// Makes a host of a map, and tells its links or the number of the refusal.
fn tell_host(rt: &impl Print, map: Map, reach: u16, room: usize) -> io::Result<()> {
    println!(rt; "reach {reach}, room for {room} links:")?;
    match ScanHost::make(map, reach) {
        Ok(host) => tell_links(rt, &host, room),
        Err(unmade) => tell_refusal(rt, unmade.why),
    }
}

// Fills a map, and tells what a point is answered that comes too late. No three points of a parabola are on one line.
fn tell_full(rt: &(impl Print + AllocGlobal)) -> io::Result<()> {
    let mut map = Map::new(rt.alloc())?;
    for i in 0..64u16 {
        let _ = map.place(Point { x: i, y: i * i });
    }
    println!(rt; "{} nodes on a parabola", map.count())?;
    tell_placing(rt, &mut map, Point { x: 64, y: 4096 })
}

/// The account of placing.
pub fn tell(rt: &(impl Print + AllocGlobal)) -> io::Result<()> {
    println!(rt; "Placing")?;
    let mut map = Map::new(rt.alloc())?;
    for coordinates in TRIES {
        tell_placing(rt, &mut map, Point::from(coordinates))?;
    }
    println!(rt; "{} nodes", map.count())?;
    tell_host(rt, map, RING.reach, 8)?;
    for (reach, room) in [(0, 8), (46_341, 8), (46_340, 8), (46_340, 16)] {
        tell_host(rt, RING.map(rt.alloc())?, reach, room)?;
    }
    tell_full(rt)
}
