//! A floor and a packet go through lines of hexadecimal digits before the packet is sent.
use crate::sends::sends_of;
use face::packet::Packet;
use face::record::Record;
use floor::map::Map;
use floor::planariser::Planariser;
use floor::planariser::rule::Rule;
use frame::{Frame, read_line, write_line};
use host::kind::HostKind;
use host::making::Making;
use host::scan::ScanHost;
use host::sides::Reading;
use host::table::TableHost;
use kept::links::KeptGraph;
use plane::Point;
use std::io;
use worked::{Floor, KITE};

// Lines that say no frame.
const BAD_LINES: [&str; 9] = [
    "000000000000000000000000000000000000000000000000000000000000000000000000000000000",
    "4e0g",
    "4E00",
    "500",
    "",
    "50",
    "50000354",
    "510051",
    "5050",
];

// What frames have told: a map, its reach, planariser and host, and a packet's ends.
#[derive(Drop)]
struct Job {
    map: Map,
    reach: u16,
    rule: Option<Rule>,
    kind: Option<HostKind>,
    source: u8,
    target: u8,
}

impl Job {
    // What is known before the first frame: nothing.
    fn new(map: Map) -> Job {
        Job {
            map,
            reach: 0,
            rule: None,
            kind: None,
            source: 0,
            target: 0,
        }
    }

    // Takes what a frame tells; a point that cannot be placed is left out.
    fn take(&mut self, frame: Frame) {
        match frame {
            Frame::Map {
                reach,
                planariser,
                host,
            } => {
                self.reach = reach;
                self.rule = Rule::try_from(planariser).ok();
                self.kind = HostKind::try_from(host).ok();
            }
            Frame::Node { x, y } => {
                let _ = self.map.place(Point { x, y });
            }
            Frame::Packet { source, target } => {
                self.source = source;
                self.target = target;
            }
            Frame::Withdraw { .. } | Frame::Return { .. } | Frame::Hop { .. } | Frame::End { .. } =>
                {}
        }
    }

    // Takes a frame that has gone through its line.
    fn hand_over(&mut self, rt: &impl Print, frame: Frame) -> io::Result<()> {
        if let Some(back) = through_line(rt, frame)? {
            self.take(back);
        }
        Ok(())
    }
}

// Writes a frame, tells its line, and reads it again.
fn through_line(rt: &impl Print, frame: Frame) -> io::Result<Option<Frame>> {
    let mut buf = [0; 80];
    let Ok(len) = write_line(frame, &mut buf) else {
        return Ok(None);
    };
    let line = &buf[0..len];
    if let Ok(text) = std::str::from_utf8(line) {
        println!(rt; "{text}")?;
    }
    Ok(read_line(line).ok())
}

// Sends the packet of a record to its end, and tells each hop and the end by frames.
fn tell_hops<R: Reading, P: Planariser>(
    rt: &impl Print,
    graph: KeptGraph<'_, R, P>,
    record: Record,
) -> io::Result<()> {
    let mut last = record;
    for next in sends_of(graph, record) {
        let hop = Frame::Hop {
            sender: last.holder,
            receiver: next.holder,
        };
        through_line(rt, hop)?;
        last = next;
    }
    let end = Frame::End {
        source: last.source.number,
        target: last.target.number,
        end: u8::from(last.end),
        total: last.total,
    };
    through_line(rt, end)?;
    Ok(())
}

// Does a job over a host of its kind.
fn tell_over<H: Making + Drop>(rt: &impl Print, job: Job) -> io::Result<()> {
    let Ok(host) = H::make(job.map, job.reach) else {
        return println!(rt; "no host is made");
    };
    let Some(rule) = job.rule else {
        return println!(rt; "there is no such planariser");
    };
    let graph = KeptGraph::new(&host, &rule);
    match Packet::open(graph, job.source, job.target) {
        Ok(packet) => tell_hops(rt, graph, packet.put_by()),
        Err(_) => println!(rt; "no packet is opened"),
    }
}

// Does a job.
fn tell_job(rt: &impl Print, job: Job) -> io::Result<()> {
    match job.kind {
        Some(HostKind::Scan) => tell_over::<ScanHost>(rt, job),
        Some(HostKind::Table) => tell_over::<TableHost>(rt, job),
        None => println!(rt; "there is no such host"),
    }
}

// Tells what lines that say no frame are refused with.
fn tell_bad_lines(rt: &impl Print) -> io::Result<()> {
    for line in BAD_LINES {
        if let Err(fault) = read_line(line.as_bytes()) {
            println!(rt; "'{line}' is refused with {}", u8::from(fault))?;
        }
    }
    Ok(())
}

// Hands a floor and a packet over by frames.
fn hand_floor(rt: &impl Print, job: &mut Job, floor: Floor) -> io::Result<()> {
    let map = Frame::Map {
        reach: floor.reach,
        planariser: u8::from(Rule::Relative),
        host: u8::from(HostKind::Scan),
    };
    job.hand_over(rt, map)?;
    for (x, y) in floor.coordinates {
        job.hand_over(rt, Frame::Node { x: *x, y: *y })?;
    }
    let packet = Frame::Packet {
        source: 0,
        target: 3,
    };
    job.hand_over(rt, packet)
}

/// The account of frames.
pub fn tell(rt: &(impl Print + AllocGlobal)) -> io::Result<()> {
    println!(rt; "Frames")?;
    let mut job = Job::new(Map::new(rt.alloc())?);
    hand_floor(rt, &mut job, KITE)?;
    tell_job(rt, job)?;
    tell_bad_lines(rt)
}
