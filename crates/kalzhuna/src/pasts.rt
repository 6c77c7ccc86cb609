//! A past of a network: its calls, and what each is answered.
use crate::refusals::tell_refusal;
use floor::planariser::Planariser;
use host::sides::Switching;
use network::list::LentList;
use network::network::Network;
use network::types::{HopRecord, Refusal};
use std::{fmt, io};

/// A call of a network. A carry is lent room for so many hops, at most 16.
#[derive(Clone, Copy, PartialEq, Eq, Debug)]
pub enum Call {
    Open { line: u8, source: u8, target: u8 },
    Hop { line: u8 },
    Carry { line: u8, budget: u16, room: u8 },
    Collect { line: u8 },
    Withdraw { node: u8 },
    Return { node: u8 },
}

/// What is asked, with its numbers.
impl fmt::Display for Call {
    fn fmt<W: fmt::Write>(&self, f: &mut fmt::Formatter<W>) -> fmt::Result {
        match *self {
            Call::Open {
                line,
                source,
                target,
            } => write!(f, "open on line {line}, {source} to {target}"),
            Call::Hop { line } => write!(f, "hop on line {line}"),
            Call::Carry { line, budget, room } => {
                write!(f, "carry on line {line}, budget {budget}, room {room}")
            }
            Call::Collect { line } => write!(f, "collect from line {line}"),
            Call::Withdraw { node } => write!(f, "withdraw {node}"),
            Call::Return { node } => write!(f, "return {node}"),
        }
    }
}

// Tells that a call was accepted, or the number of its refusal.
fn tell_done(rt: &impl Print, done: &str, answer: Result<(), Refusal>) -> io::Result<()> {
    match answer {
        Ok(()) => println!(rt; "{done}"),
        Err(refusal) => tell_refusal(rt, refusal),
    }
}

// Carries, and tells the hops and what stopped them.
fn tell_carry<H: Switching, P: Planariser>(
    rt: &impl Print,
    network: &mut Network<H, P>,
    line: u8,
    budget: u16,
    room: u8,
) -> io::Result<()> {
    let mut memory = [HopRecord::default(); 16];
    let mut list = LentList::new(&mut memory[0..usize::from(room).min(16)]);
    let carried = match network.carry(line, budget, &mut list) {
        Ok(carried) => carried,
        Err(refusal) => return tell_refusal(rt, refusal),
    };
    print!(rt; "{} hops,", carried.hops)?;
    for hop in list.as_slice() {
        print!(rt; " {} to {} {},", hop.sender, hop.receiver, hop.phase)?;
    }
    println!(rt; " stopped by {}", carried.stopper)
}

// Makes a call, and tells its answer.
fn tell_answer<H: Switching, P: Planariser>(
    rt: &impl Print,
    network: &mut Network<H, P>,
    call: Call,
) -> io::Result<()> {
    match call {
        Call::Open {
            line,
            source,
            target,
        } => tell_done(rt, "opened", network.open(line, source, target)),
        Call::Hop { line } => match network.hop(line) {
            Ok((sender, receiver)) => println!(rt; "{sender} to {receiver}"),
            Err(refusal) => tell_refusal(rt, refusal),
        },
        Call::Carry { line, budget, room } => tell_carry(rt, network, line, budget, room),
        Call::Collect { line } => match network.collect(line) {
            Ok((end, total)) => println!(rt; "{end} after {total}"),
            Err(refusal) => tell_refusal(rt, refusal),
        },
        Call::Withdraw { node } => tell_done(rt, "done", network.withdraw(node)),
        Call::Return { node } => tell_done(rt, "done", network.restore(node)),
    }
}

/// Makes the calls of a past one after the other, and tells each with its answer.
pub fn tell_past<H: Switching, P: Planariser>(
    rt: &impl Print,
    network: &mut Network<H, P>,
    past: &[Call],
) -> io::Result<()> {
    for call in past {
        print!(rt; "{call}: ")?;
        tell_answer(rt, network, *call)?;
    }
    Ok(())
}
