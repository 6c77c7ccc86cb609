//! Frames as rows of bytes, the check byte last.
ghost use Rattle.std.specs.Prelude.{◌≡◌, ◌<◌, ◌≤◌, [], ◌∷◌, ◌++◌, length, take, All};
ghost use Rattle.frame.specs.Frames.{body, by_kind, check, checked, frame_in};

use crate::Frame;
use crate::digits::LONGEST;
use crate::fault::FrameFault;
use std::marker::Model;

/// The most bytes that a line can spell.
pub const MOST_BYTES: usize = LONGEST / 2;

// The first byte of each kind of frame.
const MAP: u8 = 0x4d;

const NODE: u8 = 0x4e;

const PACKET: u8 = 0x50;

const WITHDRAW: u8 = 0x57;

const RETURN: u8 = 0x52;

const HOP: u8 = 0x48;

const END: u8 = 0x44;

/// A row of bytes, few enough for a line, in memory of a fixed size.
// By hand, as are the digits: the library stands on std alone, so that no further crate is trusted, and on no heap.
#[derive(Drop)]
pub struct Row {
    bytes: [u8; MOST_BYTES],
    count: usize,
}

impl Model for Row {
    ghost use Rattle.std.specs.Prelude.{ℕ, ◌≤◌, List, take};
    ghost use Rattle.frame.specs.declared.row.TheConstants.{MOST_BYTES};

    ghost Value = { List ℕ };

    ghost view = { λ r. take r.count r.bytes };

    ghost invariant = { λ r. r.count ≤ MOST_BYTES };
}

impl Row {
    /// A row with no bytes.
    pub fn new() -> Row
        ensures { result ≡ [] }
    {
        Row {
            bytes: [0; MOST_BYTES],
            count: 0,
        }
    }

    /// The row of the first so many bytes.
    pub fn of(bytes: [u8; MOST_BYTES], count: usize) -> Row
        requires { count ≤ MOST_BYTES }
        ensures { result ≡ take count bytes }
    {
        Row { bytes, count }
    }

    /// Puts a byte behind the others.
    pub fn push(&mut self, byte: u8)
        requires { length self.old < MOST_BYTES }
        ensures { self.new ≡ self.old ++ byte ∷ [] }
    {
        self.bytes[self.count] = byte;
        self.count += 1;
    }

    /// The bytes.
    pub fn as_slice(&self) -> &[u8]
        ensures bytes { result.now ≡ self.now }
        ensures short { length self.now ≤ MOST_BYTES }
    {
        &self.bytes[..self.count]
    }
}

/// The check byte of a row: its sum, modulo 256.
fn check_byte(row: &[u8]) -> u8
    ensures { result ≡ check row.now }
{
    row.iter().fold(0, |sum: u8, byte| sum.wrapping_add(*byte))
}

/// The frame in a row whose check byte is right.
fn take_apart(row: &[u8]) -> Result<Frame, FrameFault>
    ensures { result ≡ by_kind row.now }
{
    match row {
        [MAP, rh, rl, planariser, host, _check] => {
            Ok(Frame::Map {
                reach: u16::from_be_bytes([*rh, *rl]),
                planariser: *planariser,
                host: *host,
            })
        }
        [NODE, xh, xl, yh, yl, _check] => {
            Ok(Frame::Node {
                x: u16::from_be_bytes([*xh, *xl]),
                y: u16::from_be_bytes([*yh, *yl]),
            })
        }
        [PACKET, source, target, _check] => Ok(Frame::Packet {
            source: *source,
            target: *target,
        }),
        [WITHDRAW, node, _check] => Ok(Frame::Withdraw { node: *node }),
        [RETURN, node, _check] => Ok(Frame::Return { node: *node }),
        [HOP, sender, receiver, _check] => Ok(Frame::Hop {
            sender: *sender,
            receiver: *receiver,
        }),
        [END, source, target, end, th, tl, _check] => {
            Ok(Frame::End {
                source: *source,
                target: *target,
                end: *end,
                total: u16::from_be_bytes([*th, *tl]),
            })
        }
        [MAP | NODE | PACKET | WITHDRAW | RETURN | HOP | END, ..] => Err(FrameFault::WrongLength),
        _ => Err(FrameFault::UnknownKind),
    }
}

/// The frame in a row, or the row's first fault.
pub fn read_row(row: &[u8]) -> Result<Frame, FrameFault>
    ensures { result ≡ frame_in row.now }
{
    match row {
        [] | [_] => Err(FrameFault::TooShort),
        [front @ .., check] if check_byte(front) != *check => Err(FrameFault::WrongSum),
        _ => take_apart(row),
    }
}

/// The row of some bytes and their check byte.
fn with_check(front: &[u8]) -> Row
    requires { length front.now < MOST_BYTES }
    ensures row { result ≡ checked front.now }
    ensures bytes { All (λ b. b < 256) front.now }
{
    let mut row = Row::new();
    for byte in front {
        row.push(*byte);
    }
    row.push(check_byte(front));
    row
}

/// The row of a frame, which is short enough for a line, and is read as the frame.
pub fn row_of(frame: Frame) -> Row
    ensures row { result ≡ checked (body frame) }
    ensures bytes { All (λ b. b < 256) (body frame) }
    ensures back { by_kind (checked (body frame)) ≡ Ok frame }
{
    match frame {
        Frame::Map {
            reach,
            planariser,
            host,
        } => {
            let [rh, rl] = reach.to_be_bytes();
            with_check(&[MAP, rh, rl, planariser, host])
        }
        Frame::Node { x, y } => {
            let [xh, xl] = x.to_be_bytes();
            let [yh, yl] = y.to_be_bytes();
            with_check(&[NODE, xh, xl, yh, yl])
        }
        Frame::Packet { source, target } => with_check(&[PACKET, source, target]),
        Frame::Withdraw { node } => with_check(&[WITHDRAW, node]),
        Frame::Return { node } => with_check(&[RETURN, node]),
        Frame::Hop { sender, receiver } => with_check(&[HOP, sender, receiver]),
        Frame::End {
            source,
            target,
            end,
            total,
        } => {
            let [th, tl] = total.to_be_bytes();
            with_check(&[END, source, target, end, th, tl])
        }
    }
}
