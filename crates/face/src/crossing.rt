ghost use Rattle.std.specs.Prelude.{◌≡◌};
ghost use Rattle.plane.specs.Plane.{turn};
ghost use Rattle.face.specs.Crossing.{opposite, four_nodes, crosses, crossing};

use floor::node::Node;
use order::Place;
use plane::{Point, turn};

// One is positive and the other negative.
fn opposite(y: i64, z: i64) -> bool
    ensures { result ≡ opposite y z }
{
    (y < 0 && 0 < z) || (0 < y && z < 0)
}

// Whether `p` and `q` lie on opposite sides of the line through `a` and `b`.
fn parted(a: Point, b: Point, p: Point, q: Point) -> bool
    ensures { result ≡ opposite (turn a b p) (turn a b q) }
{
    opposite(turn(a, b, p), turn(a, b, q))
}

// No two of the nodes are one: six inequalities say it most plainly.
fn four_nodes(s: Node, t: Node, u: Node, v: Node) -> bool
    ensures { result ≡ four_nodes s t u v }
{
    s.number != t.number
        && s.number != u.number
        && s.number != v.number
        && t.number != u.number
        && t.number != v.number
        && u.number != v.number
}

// Four nodes, `u` and `v` on opposite sides of the line through `s` and `t`, and those on opposite sides of theirs.
fn crosses(s: Node, t: Node, u: Node, v: Node) -> bool
    ensures { result ≡ crosses s t u v }
{
    four_nodes(s, t, u, v)
        && parted(s.point, t.point, u.point, v.point)
        && parted(u.point, v.point, s.point, t.point)
}

/// Where the link from `u` to `v` crosses the way from `s` to `t`, if it does.
pub fn crossing(s: Node, t: Node, u: Node, v: Node) -> Option<Place>
    ensures { result ≡ crossing s t u v }
{
    if !crosses(s, t, u, v) {
        return None;
    }
    let above = turn(u.point, v.point, s.point).unsigned_abs();
    let below = turn(u.point, v.point, t.point).unsigned_abs();
    Some(Place { above, below })
}
