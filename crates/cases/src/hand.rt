//! Packets in the hand, over one kept graph and from one to another.
use crate::answers::{end_word, tell_refusal};
use crate::call::Errand;
use face::packet::{Packet, Refusal, Unsent};
use face::record::{Best, Link, Record};
use floor::planariser::Planariser;
use host::sides::Reading;
use kept::links::KeptGraph;
use order::Place;
use std::{fmt, io};

// What there is, or a dash.
#[derive(Clone, Copy)]
struct OrDash<T>(Option<T>);

impl<T: fmt::Display> fmt::Display for OrDash<T> {
    fn fmt<W: fmt::Write>(&self, f: &mut fmt::Formatter<W>) -> fmt::Result {
        match &self.0 {
            Some(x) => write!(f, "{x}"),
            None => write!(f, "-"),
        }
    }
}

// A link, from its one end to its other.
#[derive(Clone, Copy)]
struct LinkText(Link);

impl fmt::Display for LinkText {
    fn fmt<W: fmt::Write>(&self, f: &mut fmt::Formatter<W>) -> fmt::Result {
        write!(f, "{}>{}", self.0.from, self.0.to)
    }
}

// A place, as a fraction.
#[derive(Clone, Copy)]
struct PlaceText(Place);

impl fmt::Display for PlaceText {
    fn fmt<W: fmt::Write>(&self, f: &mut fmt::Formatter<W>) -> fmt::Result {
        write!(f, "{}/{}", self.0.above, self.0.below)
    }
}

// A best crossing, with a star where it is marked.
#[derive(Clone, Copy)]
struct BestText(Best);

impl fmt::Display for BestText {
    fn fmt<W: fmt::Write>(&self, f: &mut fmt::Formatter<W>) -> fmt::Result {
        let best = self.0;
        let (link, place) = (LinkText(best.link), PlaceText(best.place));
        let mark = if best.marked { "*" } else { "" };
        write!(f, "{link}@{}:{place}{mark}", best.index)
    }
}

// Tells all that a packet carries but its source and its target.
fn tell_record(rt: &impl Print, record: Record) -> io::Result<()> {
    let course = record.course;
    println!(rt;
        "{} {} {} {} {} {} {} {} {} {}",
        record.holder,
        OrDash(record.hand.map(LinkText)),
        course.phase,
        OrDash(course.first.map(LinkText)),
        course.sends,
        PlaceText(course.entry),
        OrDash(course.best.map(BestText)),
        course.walk,
        record.total,
        end_word(record.end)
    )
}

// The record of a packet after a send that leaves over one graph and is received over another: as it was where it has ended.
// Programs and tests stand alone, each with such a function; no call of the library needs two graphs.
fn sent<R: Reading, P: Planariser>(
    before: KeptGraph<'_, R, P>,
    after: KeptGraph<'_, R, P>,
    record: Record,
) -> Result<Record, Refusal> {
    match Packet::take_up(record) {
        Packet::Held(held) => match held.forward(before) {
            Ok(flight) => Ok(flight.receive(after).put_by()),
            Err(Unsent { why, held }) => {
                held.set_aside();
                Err(why)
            }
        },
        Packet::Ended(ended) => Ok(ended.file()),
    }
}

// The record of a packet that is opened over a graph and sent on so many times, or as far as it can be.
fn sent_on<R: Reading, P: Planariser>(
    graph: KeptGraph<'_, R, P>,
    errand: Errand,
) -> Result<Record, Refusal> {
    let mut record = Packet::open(graph, errand.source, errand.target)?.put_by();
    for _ in 0..errand.sends {
        record = sent(graph, graph, record).unwrap_or(record);
    }
    Ok(record)
}

/// Tells the record of a packet.
pub fn tell_carried<R: Reading, P: Planariser>(
    rt: &impl Print,
    graph: KeptGraph<'_, R, P>,
    errand: Errand,
) -> io::Result<()> {
    match sent_on(graph, errand) {
        Ok(record) => tell_record(rt, record),
        Err(refusal) => tell_refusal(rt, refusal),
    }
}

/// Tells what a packet's next send is answered over a changed graph, and its record where it is received over that one.
pub fn tell_gone<R: Reading, P: Planariser>(
    rt: &impl Print,
    graph: KeptGraph<'_, R, P>,
    changed: KeptGraph<'_, R, P>,
    errand: Errand,
) -> io::Result<()> {
    let record = match sent_on(graph, errand) {
        Ok(record) => record,
        Err(refusal) => return tell_refusal(rt, refusal),
    };
    if record.hand.is_none() {
        return println!(rt; "ended");
    }
    match sent(changed, changed, record) {
        Ok(_) => print!(rt; "sent ")?,
        Err(refusal) => print!(rt; "refused {} ", u8::from(refusal))?,
    }
    tell_record(rt, sent(graph, changed, record).unwrap_or(record))
}
