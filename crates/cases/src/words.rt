//! Numbers in a line of words, and points.
use floor::map::Map;
use plane::Point;
use std::alloc::{AllocError, Global};
use std::str::{FromStr, SplitWhitespace};

/// The next word as a number.
pub fn number<T: FromStr>(words: &mut SplitWhitespace<'_>) -> Option<T>
where
    T::Err: Drop,
{
    words.next()?.parse::<T>().ok()
}

/// The point of two numbers with that mark between them.
pub fn point(text: &str, between: char) -> Option<Point> {
    let (x, y) = text.split_once(between)?;
    Some(Point::from((x.parse().ok()?, y.parse().ok()?)))
}

/// The map of some points; one that cannot be placed is left out.
pub fn map_of(heap: Global, points: &str) -> Result<Map, AllocError> {
    let mut map = Map::new(heap)?;
    let words = points.split_whitespace();
    for p in words.filter_map(|word| point(word, ',')) {
        let _ = map.place(p);
    }
    Ok(map)
}
