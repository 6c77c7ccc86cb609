ghost use Rattle.std.specs.Prelude.{◌≡◌, Bool};
ghost use Rattle.order.specs.Directions.{earlier};
ghost use Rattle.order.specs.Turning as turning;

use floor::node::Node;
use order::direction::Direction;
use order::keeper::Order;

/// A neighbour, with the direction in which it lies.
#[derive(Clone, Copy, Debug)]
pub struct Bearing {
    pub node: Node,
    pub direction: Direction,
}

/// The neighbour less far round comes first.
impl Order for Bearing {
    ghost before = { λ a b. earlier a.direction b.direction };

    ghost proper = { λ _. Unit {0} };

    ghost irreflexive = { λ a. turning.never a.direction };

    ghost transitive = { λ x y z a b c. turning.transitive x.direction y.direction z.direction };

    ghost alike = { λ x y z a b c. turning.alike x.direction y.direction z.direction };

    fn comes_before(&self, other: &Bearing) -> bool {
        self.direction.comes_before(&other.direction)
    }
}
