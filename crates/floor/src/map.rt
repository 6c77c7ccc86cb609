//! A map of a storey: its nodes, numbered from 0 in the order of placing.
ghost use Rattle.std.specs.Prelude.{◌≤◌, vec_capacity};
ghost use Rattle.floor.specs.Charted.{Charted};

use plane::Point;

mod placing;

/// Why a point was not placed.
#[derive(Clone, Copy, PartialEq, Eq, Debug)]
pub enum PlaceRefusal {
    /// 64 nodes are placed.
    Full,
    /// A coordinate is above 32,767.
    OutOfRange,
    /// A node is at the point.
    Occupied,
    /// The point is on a line with two nodes.
    OnALine,
}

/// Up to 64 nodes in general position. Room for all of them is reserved when the map is made.
#[derive(Drop)]
pub struct Map {
    points: Vec<Point>,
    ghost charted: { ∥ Charted points.items ∥₁ },
    ghost room: { 64 ≤ vec_capacity points },
}
