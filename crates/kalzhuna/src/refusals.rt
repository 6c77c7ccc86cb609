//! Refusals, by their numbers.
use std::io;

/// Tells the number of a refusal, at the end of a line.
pub fn tell_refusal<E>(rt: &impl Print, refusal: E) -> io::Result<()>
where
    u8: From<E>,
{
    println!(rt; "refused with {}", u8::from(refusal))
}
