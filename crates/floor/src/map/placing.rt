ghost use Rattle.std.specs.Prelude.{◌≡◌, [], length, IfOk};
ghost use Rattle.std.specs.List.{slice_get, list_any};
ghost use Rattle.floor.specs.Charted.{Charted};
ghost use Rattle.floor.specs.Map.{points_of};
ghost use Rattle.floor.specs.Placing.{same, straight, on_a_line, placing, placed, all_placed};

use super::{Map, PlaceRefusal};
use plane::{Point, turn};
use std::alloc::{AllocError, Global};

// The most nodes that a map holds.
const CAPACITY: usize = 64;

// The largest coordinate of a node.
const FARTHEST: u16 = 32_767;

/// The number of the refusal.
impl From<PlaceRefusal> for u8 {
    ghost use Rattle.floor.specs.Placing.{number_of};

    ghost from_gives = { λ why number. number ≡ number_of why };

    fn from(why: PlaceRefusal) -> u8 {
        match why {
            PlaceRefusal::Full => 21,
            PlaceRefusal::OutOfRange => 22,
            PlaceRefusal::Occupied => 23,
            PlaceRefusal::OnALine => 24,
        }
    }
}

// Whether `p` is on a line with `a` and one of the points.
fn on_line_with(points: &[Point], a: Point, p: Point) -> bool
    ensures { result ≡ list_any (λ b. straight a b p) points.now }
{
    points.iter().any(|b| turn(a, *b, p) == 0)
}

// Whether `p` is on a line with two of the points.
fn on_a_line(points: &[Point], p: Point) -> bool
    ensures { result ≡ on_a_line points.now p }
{
    match points {
        [] => false,
        [a, rest @ ..] => on_line_with(rest, *a, p) || on_a_line(rest, p),
    }
}

// The number that a node at `p` gets beside nodes at the points, or why it cannot be placed.
fn answer(points: &[Point], p: Point) -> Result<u8, PlaceRefusal>
    ensures { result ≡ placing points.now p }
{
    if points.len() >= CAPACITY {
        return Err(PlaceRefusal::Full);
    }
    if p.x > FARTHEST || p.y > FARTHEST {
        return Err(PlaceRefusal::OutOfRange);
    }
    if points.contains(&p) {
        return Err(PlaceRefusal::Occupied);
    }
    if on_a_line(points, p) {
        return Err(PlaceRefusal::OnALine);
    }
    Ok(points.len() as u8)
}

impl Map {
    /// A map with no node and room for 64. No other call on a map wants memory.
    pub fn new(heap: Global) -> Result<Map, AllocError>
        ensures { IfOk result (λ m. points_of m ≡ []) }
    {
        let points = Vec::with_capacity(heap, CAPACITY)?;
        Ok(Map { points })
    }

    /// A map of nodes at these coordinates, placed one after the other; those that are refused are left out.
    pub fn of(heap: Global, coordinates: &[(u16, u16)]) -> Result<Map, AllocError>
        ensures { IfOk result (λ m. points_of m ≡ all_placed coordinates.now) }
    {
        let mut map = Map::new(heap)?;
        for p in coordinates {
            let _ = map.place(Point::from(*p));
        }
        Ok(map)
    }

    /// Places a node at `p` and answers its number. A refusal changes nothing.
    pub fn place(&mut self, p: Point) -> Result<u8, PlaceRefusal>
        ensures answer { result ≡ placing (points_of self.old) p }
        ensures points { points_of self.new ≡ placed (points_of self.old) p }
    {
        let number = answer(&self.points, p)?;
        self.points.push_reserved(p);
        Ok(number)
    }

    /// How many nodes are placed.
    pub fn count(&self) -> u8
        ensures { result ≡ length (points_of self.now) }
    {
        self.points.len() as u8
    }

    /// Where node `i` is.
    pub fn node(&self, i: u8) -> Option<Point>
        ensures { result ≡ slice_get (points_of self.now) i }
    {
        self.points.get(usize::from(i)).copied()
    }

    /// The points of the nodes, in the order of their numbers.
    pub fn points(&self) -> &[Point]
        ensures value { result.now ≡ points_of self.now }
        ensures charted { Charted (points_of self.now) }
    {
        self.points.as_slice()
    }
}
