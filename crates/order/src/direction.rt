//! Directions round a node, ordered by their angles from a start.
ghost use Rattle.std.specs.Prelude.{◌≡◌, ◌≢◌, ◌⊎◌, ◌*ℤ◌, Some, None};
ghost use Rattle.plane.specs.Plane.{way};
ghost use Rattle.order.specs.Arcs.{ArcLaws};
ghost use Rattle.order.specs.Directions.{direction, earlier, part};
ghost use Rattle.order.specs.Sectors.{rank};
ghost use Rattle.order.specs.Turning;

use crate::keeper::Order;
use crate::{Sense, Start};
use plane::{Point, inner_product, turn};

// The parts of a turn: its start, before half of it, half of it, beyond, and all of it.
#[derive(Clone, Copy, PartialEq, Eq, PartialOrd, Ord, Debug)]
enum Sector {
    Start,
    Before,
    Half,
    Beyond,
    Full,
}

/// A turn round a node: from the direction of another point on, one way or the other.
#[derive(Clone, Copy, PartialEq, Eq, Debug)]
pub struct Sweep {
    pub at: Point,
    pub from: Point,
    pub sense: Sense,
    pub start: Start,
}

impl Sweep {
    /// The direction in which `to` lies from the node; there is none from a point to itself.
    pub fn direction(self, to: Point) -> Option<Direction>
        ensures none { (self.from ≡ self.at) ⊎ (to ≡ self.at) → result ≡ None }
        ensures made { self.from ≢ self.at → to ≢ self.at → result ≡ Some (direction self.sense self.start (way self.at self.from) (way self.at to)) }
    {
        let Sweep {
            at,
            from,
            sense,
            start,
        } = self;
        if from == at || to == at {
            return None;
        }
        let across = match sense {
            Sense::Clockwise => turn(at, to, from),
            Sense::Counter => turn(at, from, to),
        };
        Some(Direction {
            along: inner_product(from, to, at),
            across,
            counts: start,
        })
    }
}

/// A way round a node in the frame of its start: what lies along the start, and what across it in the sense of the turn.
#[derive(Clone, Copy, Debug)]
pub struct Direction {
    along: i64,
    across: i64,
    counts: Start,
}

impl Direction {
    // How far round it lies.
    fn sector(&self) -> Sector
        ensures { rank result ≡ part self.now }
    {
        if self.across > 0 {
            Sector::Before
        } else if self.across < 0 {
            Sector::Beyond
        } else if self.along <= 0 {
            Sector::Half
        } else {
            match self.counts {
                Start::NoTurn => Sector::Start,
                Start::FullTurn => Sector::Full,
            }
        }
    }
}

// The product, which an `i128` always holds. (Within `comes_before` the check does not find that it fits.)
fn product(p: i64, q: i64) -> i128
    ensures { result ≡ p *ℤ q }
{
    i128::from(p) * i128::from(q)
}

/// The direction less far round comes first.
impl Order for Direction {
    ghost before = { earlier };

    ghost proper = { λ _. Unit {0} };

    ghost irreflexive = { Turning.never };

    ghost transitive = { λ d e f pd pe pf. Turning.transitive d e f };

    ghost alike = { λ d e f pd pe pf. Turning.alike d e f };

    fn comes_before(&self, other: &Direction) -> bool {
        let (i, j) = (self.sector(), other.sector());
        i < j || i == j && product(self.across, other.along) < product(self.along, other.across)
    }
}

/// The laws of directions round a point that the proofs about faces rest on.
pub fn arc_laws()
    ensures { ArcLaws }
{}
