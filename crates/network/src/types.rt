ghost use Rattle.std.specs.Prelude.{◌≡◌};

use face::packet::Refusal as Unopened;
use face::record::Phase;
use std::fmt;

/// A hop as a list keeps it, with the phase before the send.
#[derive(Clone, Copy, PartialEq, Eq, Debug, Default)]
pub struct HopRecord {
    pub sender: u8,
    pub receiver: u8,
    pub phase: Phase,
}

/// A link as a list keeps it: its two nodes and its squared length.
#[derive(Clone, Copy, PartialEq, Eq, Debug, Default)]
pub struct LinkRecord {
    pub a: u8,
    pub b: u8,
    pub squared_length: u32,
}

/// What stopped a carry: the packet's end, the budget used up, or the full list.
#[derive(Clone, Copy, PartialEq, Eq, Debug)]
pub enum Stopper {
    Ended,
    Budget,
    Full,
}

impl fmt::Display for Stopper {
    ghost use Rattle.std.specs.Prelude.{Some};
    ghost use Rattle.network.specs.Texts.{stopper_text};

    ghost output = { λ stopper. Some (stopper_text stopper) };

    fn fmt<W: fmt::Write>(&self, f: &mut fmt::Formatter<W>) -> fmt::Result {
        f.write_str(match self {
            Stopper::Ended => "the end",
            Stopper::Budget => "the budget",
            Stopper::Full => "the full list",
        })
    }
}

/// What a carry did: how many hops it made, and what stopped it.
#[derive(Clone, Copy, PartialEq, Eq, Debug)]
pub struct Carried {
    pub hops: u16,
    pub stopper: Stopper,
}

/// Why a call of a network is refused.
#[derive(Clone, Copy, PartialEq, Eq, Debug)]
pub enum Refusal {
    NoLine,
    LineTaken,
    NoNode,
    OutOfService,
    LineEmpty,
    PacketEnded,
    PacketUnderWay,
    NetworkBusy,
}

/// A packet that is not opened. An opening never answers `NoWay`: only a forwarding does.
impl From<Unopened> for Refusal {
    ghost use Rattle.network.specs.Refusals.{not_opened};

    ghost from_gives = { λ why refusal. refusal ≡ not_opened why };

    fn from(why: Unopened) -> Refusal {
        match why {
            Unopened::NoNode => Refusal::NoNode,
            Unopened::OutOfService | Unopened::NoWay => Refusal::OutOfService,
        }
    }
}

/// The number of the refusal.
impl From<Refusal> for u8 {
    ghost use Rattle.network.specs.Refusals.{number_of};

    ghost from_gives = { λ refusal number. number ≡ number_of refusal };

    fn from(refusal: Refusal) -> u8 {
        match refusal {
            Refusal::NoLine => 41,
            Refusal::LineTaken => 42,
            Refusal::NoNode => 43,
            Refusal::OutOfService => 44,
            Refusal::LineEmpty => 45,
            Refusal::PacketEnded => 46,
            Refusal::PacketUnderWay => 47,
            Refusal::NetworkBusy => 48,
        }
    }
}
