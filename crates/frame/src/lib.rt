//! Frames as lines of hexadecimal digits: every line written reads back, and every line accepted is one that would be written.

#![tactic(auto)]

ghost use Rattle.std.specs.Prelude.{◌≡◌};
ghost use Rattle.frame.specs.Lines.{text, reads, told, held, ReadsBack, OnlyText};

mod digits;
pub mod fault;
mod row;

use digits::Digits;
pub use fault::{FrameFault, LineFault, ShortBuffer};
use row::Row;

/// What a line says. Coordinates, reach and total have two bytes, every other field has one.
/// A planariser, a host and an end are numbers here: every value of their byte is in some line that reads.
#[derive(Clone, Copy, PartialEq, Eq, Debug)]
pub enum Frame {
    /// A map. Planariser 1 keeps the Gabriel graph, 2 the relative neighbourhood graph; host 1 scans, 2 keeps a table.
    Map {
        reach: u16,
        planariser: u8,
        host: u8,
    },
    /// A node at a point.
    Node {
        x: u16,
        y: u16,
    },
    /// A packet to be sent.
    Packet {
        source: u8,
        target: u8,
    },
    /// A node goes out of service.
    Withdraw {
        node: u8,
    },
    /// A node comes back into service.
    Return {
        node: u8,
    },
    /// A send of a packet.
    Hop {
        sender: u8,
        receiver: u8,
    },
    /// How a packet ended, and after how many sends.
    End {
        source: u8,
        target: u8,
        end: u8,
        total: u16,
    },
}

/// The frame that a line says, or the line's first fault.
pub fn read_line(line: &[u8]) -> Result<Frame, FrameFault>
    ensures answer { result ≡ reads line.now }
    ensures only_text { OnlyText line.now result }
{
    let row = Row::from(Digits::try_from(line)?);
    row::read_row(row.as_slice())
}

/// Writes the line of a frame into a buffer, with no line feed, and tells how many characters it has.
pub fn write_line(frame: Frame, buf: &mut [u8]) -> Result<usize, ShortBuffer>
    ensures answer { result ≡ told (text frame) buf.old }
    ensures buffer { buf.new ≡ held (text frame) buf.old }
    ensures reads_back { ReadsBack frame buf.new result }
{
    digits::write_row(&row::row_of(frame), buf)
}
