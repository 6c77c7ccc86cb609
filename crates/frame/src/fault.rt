//! What can be wrong with a line, with the frame in it, and with the buffer for one.
ghost use Rattle.std.specs.Prelude.{◌≡◌};
ghost use Rattle.frame.specs.declared.fault.FrameFault.TheVariants.{Line};
ghost use Rattle.frame.specs.Faults.{line_number, frame_number, buffer_number};

/// Why characters are no row of bytes.
#[derive(Clone, Copy, PartialEq, Eq, Debug)]
pub enum LineFault {
    /// More than 80 characters.
    TooLong,
    /// A character that is no digit, the first of them, at this place from 0.
    NotDigit { at: usize },
    /// An odd number of digits.
    Odd { digits: usize },
}

/// Why a line is no frame.
#[derive(Clone, Copy, PartialEq, Eq, Debug)]
pub enum FrameFault {
    /// It is no row of bytes.
    Line(LineFault),
    /// Fewer than two bytes.
    TooShort,
    /// The last byte is not the sum of the others.
    WrongSum,
    /// No frame is of this kind.
    UnknownKind,
    /// A frame of this kind has another length.
    WrongLength,
}

/// The buffer is shorter than the line.
#[derive(Clone, Copy, PartialEq, Eq, Debug)]
pub struct ShortBuffer;

impl From<LineFault> for FrameFault {
    ghost from_gives = { λ e r. r ≡ Line e };

    fn from(line: LineFault) -> FrameFault {
        FrameFault::Line(line)
    }
}

/// The number of a line's refusal.
impl From<LineFault> for u8 {
    ghost from_gives = { λ e r. r ≡ line_number e };

    fn from(fault: LineFault) -> u8 {
        match fault {
            LineFault::TooLong => 10,
            LineFault::NotDigit { .. } => 11,
            LineFault::Odd { .. } => 12,
        }
    }
}

/// The number of a frame's refusal.
impl From<FrameFault> for u8 {
    ghost from_gives = { λ e r. r ≡ frame_number e };

    fn from(fault: FrameFault) -> u8 {
        match fault {
            FrameFault::Line(fault) => u8::from(fault),
            FrameFault::TooShort => 13,
            FrameFault::WrongSum => 14,
            FrameFault::UnknownKind => 15,
            FrameFault::WrongLength => 16,
        }
    }
}

/// The number of the refusal to write.
impl From<ShortBuffer> for u8 {
    ghost from_gives = { λ e r. r ≡ buffer_number e };

    fn from(_fault: ShortBuffer) -> u8 {
        17
    }
}
