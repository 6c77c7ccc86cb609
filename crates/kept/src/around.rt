ghost use Rattle.std.specs.Prelude.{◌≡◌, ◌≢◌, List, Some, None, nat_eq};
ghost use Rattle.plane.specs.Plane.{way};
ghost use Rattle.floor.specs.declared.node.Node.{Node};
ghost use Rattle.std.specs.List.{find};
ghost use Rattle.kept.specs.Kept.{first_round};

use floor::node::Node;
use order::{Sense, Start};
use plane::Point;

/// What a node can ask about itself and its own kept neighbours, and nothing else.
pub trait Surroundings {
    ghost here: { Self → Node };

    // the kept neighbours, the lowest number first
    ghost near: { Self → List Node };

    /// The node itself.
    fn node(&self) -> Node
        ensures { result ≡ here self.now };

    /// The kept neighbour of that number.
    fn known(&self, number: u8) -> Option<Node>
        ensures found { result ≡ find (λ (n : Node). nat_eq n.number number) (near self.now) }
        ensures elsewhere { (n : Node) → result ≡ Some n → n.point ≢ (here self.now).point };

    /// The kept neighbour that is first round the node from the direction of another point.
    // Three values and not a `Sweep`: its fourth is the node's own point.
    fn first(&self, sense: Sense, start: Start, towards: Point) -> Option<Node>
        ensures nowhere { towards ≡ (here self.now).point → result ≡ None }
        ensures found { towards ≢ (here self.now).point → result ≡ first_round sense start (here self.now).point (way (here self.now).point towards) (near self.now) };
}
