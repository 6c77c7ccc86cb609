ghost use Rattle.std.specs.Prelude.{◌≡◌, length, replicate, None, slice_set};
ghost use Rattle.std.specs.List.{list_any};
ghost use Rattle.network.specs.Network.{moving};
ghost use Rattle.network.specs.Lines.{content_on, vacant_on, packet_on};

use crate::types::Refusal;
use face::record::Record;

/// Sixteen lines, each for one packet's record.
#[derive(Drop)]
pub struct Lines {
    records: [Option<Record>; 16],
    ghost sixteen: { length records ≡ 16 },
}

// Whether a line's content is a packet under way.
fn is_moving(content: &Option<Record>) -> bool
    ensures { result ≡ moving content.now }
{
    content.is_some_and(|record| record.hand.is_some())
}

impl Lines {
    /// All lines empty.
    pub fn new() -> Lines
        ensures { result.records ≡ replicate 16 None }
    {
        Lines {
            records: [None; 16],
        }
    }

    // What a line holds.
    fn at(&self, line: u8) -> Result<Option<Record>, Refusal>
        ensures { result ≡ content_on self.now.records line }
    {
        self.records
            .get(usize::from(line))
            .copied()
            .ok_or(Refusal::NoLine)
    }

    /// Refused unless it is an empty line.
    pub fn vacant(&self, line: u8) -> Result<(), Refusal>
        ensures { result ≡ vacant_on self.now.records line }
    {
        match self.at(line)? {
            Some(_) => Err(Refusal::LineTaken),
            None => Ok(()),
        }
    }

    /// The packet's record on a line, or the refusal where it has none.
    pub fn packet(&self, line: u8) -> Result<Record, Refusal>
        ensures { result ≡ packet_on self.now.records line }
    {
        self.at(line)?.ok_or(Refusal::LineEmpty)
    }

    /// Puts a record on a line, or empties it; a number that is no line alters nothing.
    pub fn put(&mut self, line: u8, content: Option<Record>)
        ensures { self.new.records ≡ slice_set self.old.records line content }
    {
        // By index, since a slice's `get_mut` promises nothing of what is written.
        if line <= 15 {
            self.records[usize::from(line)] = content;
        }
    }

    /// Whether a line has a packet under way.
    pub fn busy(&self) -> bool
        ensures { result ≡ list_any moving self.now.records }
    {
        self.records.iter().any(is_moving)
    }
}
