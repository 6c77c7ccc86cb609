//! Pseudo-random floors to test on, and what hosts answer on them.
use floor::map::Map;
use host::making::Making;
use host::neighbours::Neighbours;
use host::sides::Reading;
use plane::Point;
use std::alloc::{AllocError, Global};
use worked::NoHost;

/// Pseudo-random numbers, by a linear congruence.
#[derive(Drop)]
pub struct Random {
    state: u32,
}

impl Random {
    /// The numbers that follow a seed.
    pub fn new(seed: u32) -> Random {
        Random { state: seed }
    }

    /// The next number, of which only the bits of a mask are kept.
    pub fn next(&mut self, mask: u8) -> u8 {
        self.state = self
            .state
            .wrapping_mul(1_664_525)
            .wrapping_add(1_013_904_223);
        (self.state >> 24) as u8 & mask
    }
}

// A map of up to 64 pseudo-random points.
fn random_map(heap: Global, seed: u32) -> Result<Map, AllocError> {
    let mut random = Random::new(seed);
    let mut map = Map::new(heap)?;
    for _ in 0..80 {
        let x = u16::from(random.next(255));
        let y = u16::from(random.next(255));
        let _ = map.place(Point { x, y });
    }
    Ok(map)
}

/// A host of up to 64 pseudo-random points.
pub fn random_host<H: Making>(heap: Global, seed: u32, reach: u16) -> Result<H, NoHost> {
    Ok(H::make(random_map(heap, seed)?, reach)?)
}

/// Whether two hosts answer every question alike.
pub fn alike<A: Reading, B: Reading>(a: &A, b: &B) -> bool {
    a.count() == b.count()
        && (0..=64).all(|i| {
            a.radio(i) == b.radio(i)
                && (0..=64).all(|j| a.next_neighbour(i, j) == b.next_neighbour(i, j))
        })
}

/// Whether these are the neighbours of node i, in this order.
pub fn has_neighbours<H: Reading>(host: &H, i: u8, numbers: &[u8]) -> bool {
    Neighbours::of(host, i)
        .map(|node| node.number)
        .eq(numbers.iter().copied())
}
