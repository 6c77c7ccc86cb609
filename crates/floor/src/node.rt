ghost use Rattle.std.specs.Prelude.{◌≡◌};

use plane::Point;

/// A node as another knows it.
#[derive(Clone, Copy, PartialEq, Eq, Debug)]
pub struct Node {
    pub number: u8,
    pub point: Point,
}

/// A node as its host has it: where it is, and whether it is in service. A node out of service has its point too, so the mark is a flag.
#[derive(Clone, Copy, PartialEq, Eq, Debug)]
pub struct Radio {
    pub point: Point,
    pub serving: bool,
}

impl Radio {
    /// The node of that number which is there.
    pub fn node(self, number: u8) -> Node
        ensures { result ≡ record { number = number; point = self.point } }
    {
        Node {
            number,
            point: self.point,
        }
    }
}
