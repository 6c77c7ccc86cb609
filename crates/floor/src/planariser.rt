ghost use Rattle.std.specs.Prelude.{◌≡◌};
ghost use Rattle.floor.specs.Planar.{Blocks, Lawful};

use plane::Point;

pub mod gabriel;
pub mod relative;
pub mod rule;

/// Thins the links of a storey: one question on three points.
pub trait Planariser {
    ghost blocking: { Self → Blocks };

    /// Whether `w` blocks the link between `u` and `v`.
    fn blocks(&self, u: Point, v: Point, w: Point) -> bool
        ensures { result ≡ blocking self.now u v w };

    ghost lawful: { (p : Self) → Lawful (blocking p) };
}
