//! Rows of bytes as hexadecimal digits, two a byte.
ghost use Rattle.std.specs.Prelude.{◌≡◌, ◌<◌, true, not, position};
ghost use Rattle.frame.specs.Digits.{digit, is_digit, worth, byte_digits, spelled, bytes_in};
ghost use Rattle.frame.specs.Lines.{told, held};

use crate::fault::{LineFault, ShortBuffer};
use crate::row::{MOST_BYTES, Row};
use std::marker::Model;

/// The most characters that a line may have.
pub const LONGEST: usize = 80;

/// The digit of a number.
fn to_digit(n: u8) -> u8
    requires { n < 16 }
    ensures { result ≡ digit n }
{
    match n {
        0..=9 => b'0' + n,
        _ => b'a' + (n - 10),
    }
}

/// Whether a character is a digit; capitals are not.
fn is_digit(c: u8) -> bool
    ensures { result ≡ is_digit c }
{
    matches!(c, b'0'..=b'9' | b'a'..=b'f')
}

/// The number that a digit stands for.
fn from_digit(c: u8) -> u8
    requires { is_digit c ≡ true }
    ensures number { result ≡ worth c }
    ensures small { result < 16 }
{
    match c {
        b'0'..=b'9' => c - b'0',
        _ => c - b'a' + 10,
    }
}

/// The place of the first character that is no digit.
fn first_stray(line: &[u8]) -> Option<usize>
    ensures { result ≡ position (λ c. not (is_digit c)) line.now }
{
    line.iter().position(|c| !is_digit(*c))
}

/// A line that spells bytes, seen as those bytes: at most 80 characters, all digits, an even number.
#[derive(Drop)]
pub struct Digits<'a> {
    line: &'a [u8],
}

impl<'a> Model for Digits<'a> {
    ghost use Rattle.std.specs.Prelude.{◌≡◌, ℕ, List, Ok};
    ghost use Rattle.frame.specs.Digits.{paired, bytes_in};

    ghost Value = { List ℕ };

    ghost view = { λ d. paired d.line.now };

    ghost invariant = { λ d. bytes_in d.line.now ≡ Ok (paired d.line.now) };
}

/// The digits in a line, or the line's first fault.
impl<'a> TryFrom<&'a [u8]> for Digits<'a> {
    type Error = LineFault;

    ghost try_from_gives = { λ line r. r ≡ bytes_in line.now };

    fn try_from(line: &'a [u8]) -> Result<Digits<'a>, LineFault> {
        if line.len() > LONGEST {
            return Err(LineFault::TooLong);
        }
        if let Some(at) = first_stray(line) {
            return Err(LineFault::NotDigit { at });
        }
        if line.len() % 2 == 1 {
            return Err(LineFault::Odd { digits: line.len() });
        }
        Ok(Digits { line })
    }
}

/// The bytes that digits spell.
impl From<Digits<'_>> for Row {
    ghost from_gives = { λ digits r. r ≡ digits };

    fn from(digits: Digits<'_>) -> Row {
        let (pairs, _) = digits.line.as_chunks::<2>();
        let mut bytes = [0; MOST_BYTES];
        for (at, [high, low]) in pairs.iter().enumerate() {
            bytes[at] = from_digit(*high) * 16 + from_digit(*low);
        }
        Row::of(bytes, pairs.len())
    }
}

/// The two digits of a byte.
fn spell(byte: u8) -> [u8; 2]
    ensures { result ≡ byte_digits byte }
{
    [to_digit(byte / 16), to_digit(byte % 16)]
}

/// Writes the digits of a row into a buffer, and tells how many they are.
#[tactic(auto, using(crate::proofs::Spelling::length_spelled))]
pub fn write_row(row: &Row, buf: &mut [u8]) -> Result<usize, ShortBuffer>
    ensures answer { result ≡ told (spelled row.now) buf.old }
    ensures buffer { buf.new ≡ held (spelled row.now) buf.old }
{
    let bytes = row.as_slice();
    let size = 2 * bytes.len();
    if buf.len() < size {
        return Err(ShortBuffer);
    }
    // By places, since no clause says what a loop over `chunks_exact_mut(2)` leaves in the buffer.
    for (at, byte) in bytes.iter().enumerate() {
        let [high, low] = spell(*byte);
        buf[2 * at] = high;
        buf[2 * at + 1] = low;
    }
    Ok(size)
}
