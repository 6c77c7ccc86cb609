//! A floor and the calls that are made on it, over both hosts and both planarisers.
use crate::answers::{end_word, phase_letter, stopper_word, tell_refusal};
use crate::call::{Call, Errand};
use crate::hand::{tell_carried, tell_gone};
use crate::words::map_of;
use anyhow::Context;
use face::record::End;
use floor::planariser::rule::Rule;
use host::making::Making;
use host::scan::ScanHost;
use host::sides::Switching;
use host::table::TableHost;
use kept::links::KeptGraph;
use network::list::LentList;
use network::network::Network;
use network::types::{HopRecord, Refusal};
use std::alloc::Global;
use std::io;

// The most sends of a packet: three for each of the 3 * 64 - 6 = 186 links that 64 nodes can keep without a crossing.
// That is not proved, so no library says it, and each program has its own.
const MOST_SENDS: usize = 558;

// Tells that a call was accepted, or the number of its refusal: by the words of this program, which are not the account's.
fn tell_done(rt: &impl Print, done: &str, answer: Result<(), Refusal>) -> io::Result<()> {
    match answer {
        Ok(()) => println!(rt; "{done}"),
        Err(refusal) => tell_refusal(rt, refusal),
    }
}

// Tells end and total.
fn tell_end(rt: &impl Print, answer: Result<(End, u16), Refusal>) -> io::Result<()> {
    match answer {
        Ok((end, total)) => println!(rt; "{} {total}", end_word(end)),
        Err(refusal) => tell_refusal(rt, refusal),
    }
}

// Carries, and tells receivers and phases, and what stopped it.
fn tell_carry<H: Switching>(
    rt: &impl Print,
    network: &mut Network<H, Rule>,
    line: u8,
    budget: u16,
    room: u8,
) -> io::Result<()> {
    let mut memory = [HopRecord::default(); 64];
    let mut list = LentList::new(&mut memory[0..usize::from(room).min(64)]);
    let carried = match network.carry(line, budget, &mut list) {
        Ok(carried) => carried,
        Err(refusal) => return tell_refusal(rt, refusal),
    };
    for hop in list.as_slice() {
        print!(rt; "{}{} ", hop.receiver, phase_letter(hop.phase))?;
    }
    println!(rt; "{}", stopper_word(carried.stopper))
}

// Opens a packet on line 0, carries it to its end and collects it; tells receivers, end and total.
fn tell_packet<H: Switching>(
    rt: &impl Print,
    network: &mut Network<H, Rule>,
    source: u8,
    target: u8,
) -> io::Result<()> {
    if let Err(refusal) = network.open(0, source, target) {
        return tell_refusal(rt, refusal);
    }
    let mut memory = [HopRecord::default(); MOST_SENDS];
    let mut list = LentList::new(&mut memory);
    let _ = network.carry(0, u16::MAX, &mut list);
    for hop in list.as_slice() {
        print!(rt; "{} ", hop.receiver)?;
    }
    tell_end(rt, network.collect(0))
}

// A floor on trial: a network, and two hosts of the same floor for packets in the hand.
#[derive(Drop)]
struct Trial<H> {
    network: Network<H, Rule>,
    whole: H,
    changed: H,
    rule: Rule,
}

impl<H: Switching> Trial<H> {
    // The kept graph of the host that stays as it is.
    fn whole(&self) -> KeptGraph<'_, H, Rule> {
        KeptGraph::new(&self.whole, &self.rule)
    }

    // The kept graph of the host that a node goes out of.
    fn changed(&self) -> KeptGraph<'_, H, Rule> {
        KeptGraph::new(&self.changed, &self.rule)
    }

    // Tells a packet's next send when a node has gone out of service, and puts that back.
    fn tell_without(&mut self, rt: &impl Print, node: u8, errand: Errand) -> io::Result<()> {
        self.changed.withdraw(node);
        let told = tell_gone(rt, self.whole(), self.changed(), errand);
        self.changed.restore(node);
        told
    }

    // Makes a call, and tells what comes of it.
    fn tell(&mut self, rt: &impl Print, call: Call) -> io::Result<()> {
        let network = &mut self.network;
        match call {
            Call::Open {
                line,
                source,
                target,
            } => tell_done(rt, "opened", network.open(line, source, target)),
            Call::Hop { line } => match network.hop(line) {
                Ok((sender, receiver)) => println!(rt; "{sender} {receiver}"),
                Err(refusal) => tell_refusal(rt, refusal),
            },
            Call::Carry { line, budget, room } => tell_carry(rt, network, line, budget, room),
            Call::Collect { line } => tell_end(rt, network.collect(line)),
            Call::Withdraw { node } => tell_done(rt, "done", network.withdraw(node)),
            Call::Return { node } => tell_done(rt, "done", network.restore(node)),
            Call::Packet { source, target } => tell_packet(rt, network, source, target),
            Call::Record(errand) => tell_carried(rt, self.whole(), errand),
            Call::Gone(errand, node) => self.tell_without(rt, node, errand),
        }
    }
}

// A floor of a case, and the calls that are made on it.
#[derive(Clone, Copy)]
struct Floor<'a> {
    reach: u16,
    points: &'a str,
    calls: &'a str,
}

impl Floor<'_> {
    // A host of the floor.
    fn host<H: Making>(&self, heap: Global) -> anyhow::Result<H> {
        H::make(map_of(heap, self.points)?, self.reach)
            .ok()
            .context("no host is made")
    }

    // The floor on trial, over three hosts that are alike.
    fn trial<H: Making + Drop>(&self, heap: Global, rule: Rule) -> anyhow::Result<Trial<H>> {
        Ok(Trial {
            network: Network::new(self.host(heap)?, rule),
            whole: self.host(heap)?,
            changed: self.host(heap)?,
            rule,
        })
    }

    // Tells what comes of each call over a kind of host, under each planariser.
    fn tell_over<H: Making + Drop>(&self, rt: &(impl Print + AllocGlobal)) -> anyhow::Result<()> {
        for rule in [Rule::Gabriel, Rule::Relative] {
            print!(rt; "floor {} {rule} ", H::KIND)?;
            let mut trial = self.trial::<H>(rt.alloc(), rule)?;
            println!(rt; "{}", trial.whole().kept_links())?;
            for line in self.calls.lines() {
                trial.tell(rt, Call::read(line).context("no such call")?)?;
            }
        }
        Ok(())
    }
}

/// Tells what comes of the calls on a floor: over the scan host and the table host, under each planariser.
pub fn tell<'a>(
    rt: &(impl Print + AllocGlobal),
    floor: &'a str,
    calls: &'a str,
) -> anyhow::Result<()> {
    let (reach, points) = floor
        .split_once(' ')
        .context("a floor has a reach and points")?;
    let floor = Floor {
        reach: reach.parse::<u16>()?,
        points,
        calls,
    };
    floor.tell_over::<ScanHost>(rt)?;
    floor.tell_over::<TableHost>(rt)
}
