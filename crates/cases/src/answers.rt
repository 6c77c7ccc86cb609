//! Answers, as the lines of a case tell them: in few words, each without a space.
use face::record::{End, Phase};
use network::types::Stopper;
use std::io;

/// Tells the number of a refusal. Not shared with the account, which words refusals otherwise in its output.
pub fn tell_refusal<E>(rt: &impl Print, refusal: E) -> io::Result<()>
where
    u8: From<E>,
{
    println!(rt; "refused {}", u8::from(refusal))
}

/// How a packet stands. Not as it displays, which is two words for a packet under way.
pub fn end_word(end: End) -> &'static str {
    match end {
        End::UnderWay => "underway",
        End::Delivered => "delivered",
        End::Unreachable => "unreachable",
    }
}

/// The first letter of a phase, which stands at each hop.
pub fn phase_letter(phase: Phase) -> char {
    match phase {
        Phase::Round => 'R',
        Phase::Ahead => 'A',
        Phase::Back => 'B',
    }
}

/// What stopped a carry. Not as it displays, which is two words or three.
pub fn stopper_word(stopper: Stopper) -> &'static str {
    match stopper {
        Stopper::Ended => "end",
        Stopper::Budget => "budget",
        Stopper::Full => "full",
    }
}
