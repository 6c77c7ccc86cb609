ghost use Rattle.floor.specs.Planar.{gabriel};
ghost use Rattle.floor.specs.BothLawful.{gabriel_lawful};

use super::Planariser;
use plane::{Point, inner_product};

/// Keeps the Gabriel graph: a node in the closed disc with the link as diameter blocks it.
#[derive(Clone, Copy, PartialEq, Eq, Debug)]
pub struct Gabriel;

impl Planariser for Gabriel {
    ghost blocking = { λ _. gabriel };

    ghost lawful = { λ _. gabriel_lawful };

    fn blocks(&self, u: Point, v: Point, w: Point) -> bool {
        inner_product(u, v, w) <= 0
    }
}
