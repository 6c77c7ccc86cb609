//! The neighbours of a node, one after the other.
ghost use Rattle.std.specs.Prelude.{◌≡◌};
ghost use Rattle.std.specs.Iterator.{YieldsFirst, item_count};

use crate::sides::Reading;
use floor::node::Node;

/// The neighbours of a node, the lowest number first.
#[derive(Drop)]
pub struct Neighbours<'a, R: Reading> {
    host: &'a R,
    of: u8,
    from: u8,
}

impl<'a, R: Reading> Neighbours<'a, R> {
    ghost use Rattle.floor.specs.Meaning.{neighbours};
    ghost use Rattle.host.specs.Questions.{numbered_from};
    ghost use Rattle.host.specs.Remaining.{remaining_of};

    /// All neighbours of node `i`.
    pub fn of(host: &'a R, i: u8) -> Neighbours<'a, R>
        ensures { remaining_of R.Reading.meaning result ≡ neighbours (R.Reading.meaning host.now) i }
    {
        Neighbours::numbered_from(host, i, 0)
    }

    /// The neighbours of node `i` whose numbers are at least `j`.
    pub fn numbered_from(host: &'a R, i: u8, j: u8) -> Neighbours<'a, R>
        ensures { remaining_of R.Reading.meaning result ≡ numbered_from j (neighbours (R.Reading.meaning host.now) i) }
    {
        Neighbours {
            host,
            of: i,
            from: j,
        }
    }
}

impl<R: Reading> Iterator for Neighbours<'_, R> {
    type Item = Node;

    ghost use Rattle.host.specs.Remaining.{remaining_of};

    ghost next_gives = { YieldsFirst (remaining_of R.Reading.meaning) };

    ghost remaining = { item_count (remaining_of R.Reading.meaning) };

    fn next(&mut self) -> Option<Node> {
        let next = self.host.next_neighbour(self.of, self.from);
        if let Some(node) = next {
            self.from = node.number + 1;
        }
        next
    }
}
