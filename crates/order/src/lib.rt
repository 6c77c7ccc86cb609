//! What comes before what, and the foremost of a sequence of offers.

#![tactic(auto)]

ghost use Rattle.std.specs.Prelude.{◌≡◌, ◌<◌};
ghost use Rattle.order.specs.Places.{nearer};
ghost use Rattle.order.specs.Nearest;

use keeper::Order;

pub mod direction;
pub mod keeper;

/// Which way round a node.
#[derive(Clone, Copy, PartialEq, Eq, Debug)]
pub enum Sense {
    Clockwise,
    Counter,
}

/// What the start of a turn itself counts as.
#[derive(Clone, Copy, PartialEq, Eq, Debug)]
pub enum Start {
    NoTurn,
    FullTurn,
}

/// Where a link crosses the way from source to target: it divides that way as `above` to `below`.
#[derive(Clone, Copy, PartialEq, Eq, Debug)]
pub struct Place {
    pub above: u64,
    pub below: u64,
}

/// The place nearest the target comes first.
impl Order for Place {
    ghost before = { nearer };

    ghost proper = { λ p. 0 < p.below };

    ghost irreflexive = { Nearest.never };

    ghost transitive = { Nearest.transitive };

    ghost alike = { Nearest.alike };

    fn comes_before(&self, other: &Place) -> bool {
        u128::from(other.above) * u128::from(self.below)
            < u128::from(self.above) * u128::from(other.below)
    }
}
