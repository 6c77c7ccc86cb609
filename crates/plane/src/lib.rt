//! The integer plane: points in whole centimetres, turns, inner products and squared distances.

#![tactic(auto)]

ghost use Rattle.std.specs.Prelude.{true, ◌≡◌, ◌≤◌, pos, nat_abs, ◌+ℤ◌, ◌-ℤ◌, ◌*ℤ◌};
ghost use Rattle.plane.specs.Laws.{PlaneLaws};
ghost use Rattle.plane.specs.Plane.{turn, inner, squared, InRange, largest};

/// A point of a storey, in whole centimetres.
#[derive(Clone, Copy, PartialEq, Eq, Debug)]
pub struct Point {
    pub x: u16,
    pub y: u16,
}

/// The point of these coordinates.
impl From<(u16, u16)> for Point {
    ghost use Rattle.plane.specs.Plane.{point};

    ghost from_gives = { λ coordinates p. p ≡ point coordinates };

    fn from((x, y): (u16, u16)) -> Point {
        Point { x, y }
    }
}

// From one coordinate to another.
fn gap(from: u16, to: u16) -> i64
    ensures { result ≡ pos to -ℤ pos from }
{
    i64::from(to) - i64::from(from)
}

// The product of two gaps, which an `i64` always holds; that of directions is another, since it widens.
fn product(p: i64, q: i64) -> i64
    requires { (nat_abs p ≤ 65535) × (nat_abs q ≤ 65535) }
    ensures { result ≡ p *ℤ q }
{
    p * q
}

/// Positive when `c` lies left of the way from `a` to `b`. An `i64` holds it for all coordinates.
pub fn turn(a: Point, b: Point, c: Point) -> i64
    ensures value { result ≡ turn a b c }
    ensures bound { InRange a → InRange b → InRange c → nat_abs result ≤ largest }
{
    product(gap(a.x, b.x), gap(a.y, c.y)) - product(gap(a.y, b.y), gap(a.x, c.x))
}

/// The inner product of the ways from `c` to `a` and to `b`.
pub fn inner_product(a: Point, b: Point, c: Point) -> i64
    ensures value { result ≡ inner a b c }
    ensures bound { InRange a → InRange b → InRange c → nat_abs result ≤ largest }
{
    product(gap(c.x, a.x), gap(c.x, b.x)) + product(gap(c.y, a.y), gap(c.y, b.y))
}

/// The square of the distance between two points. An `i64` holds it for all coordinates.
pub fn squared_distance(a: Point, b: Point) -> i64
    ensures value { result ≡ squared a b }
    ensures bound { InRange a → InRange b → nat_abs result ≤ largest }
{
    inner_product(b, b, a)
}

/// The laws of the plane that the proofs about links and faces rest on.
pub fn plane_laws()
    ensures { PlaneLaws }
{}
