ghost use Rattle.floor.specs.BothLawful.{relative_lawful};
ghost use Rattle.floor.specs.Planar.{relative};

use super::Planariser;
use plane::{Point, squared_distance};

/// Keeps the relative neighbourhood graph: a node strictly nearer to both ends than they are to each other blocks a link.
#[derive(Clone, Copy, PartialEq, Eq, Debug)]
pub struct Relative;

impl Planariser for Relative {
    ghost blocking = { λ _. relative };

    ghost lawful = { λ _. relative_lawful };

    fn blocks(&self, u: Point, v: Point, w: Point) -> bool {
        let length = squared_distance(u, v);
        squared_distance(w, u) < length && squared_distance(w, v) < length
    }
}
