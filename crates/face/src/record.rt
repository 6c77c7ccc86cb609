ghost use Rattle.std.specs.Prelude.{◌≡◌};

use floor::node::Node;
use order::Place;
use std::fmt;

/// A link in one of its two directions.
#[derive(Clone, Copy, PartialEq, Eq, Debug)]
pub struct Link {
    pub from: u8,
    pub to: u8,
}

/// The crossing nearest the target that a round has met; marked once its link was walked both ways, which the rules keep beside it.
#[derive(Clone, Copy, PartialEq, Eq, Debug)]
pub struct Best {
    pub link: Link,
    pub index: u16,
    pub place: Place,
    pub marked: bool,
}

/// Round a face, or back along it to the best crossing by the shorter way.
#[derive(Clone, Copy, PartialEq, Eq, Debug, Default)]
pub enum Phase {
    #[default]
    Round,
    Ahead,
    Back,
}

impl fmt::Display for Phase {
    ghost use Rattle.std.specs.Prelude.{Some};
    ghost use Rattle.face.specs.Texts.{phase_text};

    ghost output = { λ phase. Some (phase_text phase) };

    fn fmt<W: fmt::Write>(&self, f: &mut fmt::Formatter<W>) -> fmt::Result {
        f.write_str(match self {
            Phase::Round => "Round",
            Phase::Ahead => "Ahead",
            Phase::Back => "Back",
        })
    }
}

/// How a packet stands.
#[derive(Clone, Copy, PartialEq, Eq, Debug)]
pub enum End {
    UnderWay,
    Delivered,
    Unreachable,
}

/// The number of the end.
impl From<End> for u8 {
    ghost use Rattle.face.specs.Ends.{end_number};

    ghost from_gives = { λ end number. number ≡ end_number end };

    fn from(end: End) -> u8 {
        match end {
            End::UnderWay => 0,
            End::Delivered => 1,
            End::Unreachable => 2,
        }
    }
}

impl fmt::Display for End {
    ghost use Rattle.std.specs.Prelude.{Some};
    ghost use Rattle.face.specs.Texts.{end_text};

    ghost output = { λ end. Some (end_text end) };

    fn fmt<W: fmt::Write>(&self, f: &mut fmt::Formatter<W>) -> fmt::Result {
        f.write_str(match self {
            End::UnderWay => "under way",
            End::Delivered => "delivered",
            End::Unreachable => "unreachable",
        })
    }
}

/// A packet's way from face to face.
#[derive(Clone, Copy, PartialEq, Eq, Debug)]
pub struct Course {
    pub phase: Phase,
    pub first: Option<Link>,
    pub sends: u16,
    pub entry: Place,
    pub best: Option<Best>,
    pub walk: u16,
}

/// All that a packet carries: these fields and no other, so the end stands beside the link in hand, which an end takes away.
#[derive(Clone, Copy, PartialEq, Eq, Debug)]
pub struct Record {
    pub source: Node,
    pub target: Node,
    pub holder: u8,
    pub hand: Option<Link>,
    pub course: Course,
    pub total: u16,
    pub end: End,
}
