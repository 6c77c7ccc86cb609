//! The calls of a case.
use crate::words::number;
use std::str::SplitWhitespace;

/// A packet in the hand that is sent on so many times.
#[derive(Clone, Copy, PartialEq, Eq, Debug)]
pub struct Errand {
    pub source: u8,
    pub target: u8,
    pub sends: u16,
}

/// What is asked of a floor: the six calls of a network, a packet from its opening to its collection on line 0, and two
/// questions about a packet in the hand.
#[derive(Clone, Copy, PartialEq, Eq, Debug)]
pub enum Call {
    Open { line: u8, source: u8, target: u8 },
    Hop { line: u8 },
    Carry { line: u8, budget: u16, room: u8 },
    Collect { line: u8 },
    Withdraw { node: u8 },
    Return { node: u8 },
    Packet { source: u8, target: u8 },
    /// The packet's record.
    Record(Errand),
    /// The packet's next send, a node having gone out of service.
    Gone(Errand, u8),
}

impl Errand {
    // The packet of three numbers.
    fn read(words: &mut SplitWhitespace<'_>) -> Option<Errand> {
        Some(Errand {
            source: number(words)?,
            target: number(words)?,
            sends: number(words)?,
        })
    }
}

impl Call {
    /// The call that a line names, with its numbers.
    pub fn read(line: &str) -> Option<Call> {
        let words = &mut line.split_whitespace();
        Some(match words.next()? {
            "open" => Call::Open {
                line: number(words)?,
                source: number(words)?,
                target: number(words)?,
            },
            "hop" => Call::Hop {
                line: number(words)?,
            },
            "carry" => Call::Carry {
                line: number(words)?,
                budget: number(words)?,
                room: number(words)?,
            },
            "collect" => Call::Collect {
                line: number(words)?,
            },
            "withdraw" => Call::Withdraw {
                node: number(words)?,
            },
            "return" => Call::Return {
                node: number(words)?,
            },
            "packet" => Call::Packet {
                source: number(words)?,
                target: number(words)?,
            },
            "record" => Call::Record(Errand::read(words)?),
            "gone" => Call::Gone(Errand::read(words)?, number(words)?),
            _ => return None,
        })
    }
}
