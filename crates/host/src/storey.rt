//! The nodes that a host keeps.
ghost use Rattle.std.specs.Prelude.{◌≡◌, length};
ghost use Rattle.floor.specs.Meaning.{radio, node, hear, neighbours, is_among};
ghost use Rattle.host.specs.Making.{Made};
ghost use Rattle.host.specs.Questions.{with_mark};
ghost use Rattle.host.specs.Storeys.{meaning_of};

use crate::making::{MakeRefusal, Unmade};
use floor::map::Map;
use floor::node::{Node, Radio};

// The longest reach of a host: no two nodes are farther apart.
const LONGEST_REACH: u16 = 46_340;

/// The nodes of a map with their marks of service, and how far they reach.
#[derive(Drop)]
pub(crate) struct Storey {
    reach: u16,
    map: Map,
    // Not in one list with the points: a host is made of a map with no further memory, so making it cannot run out of memory.
    serving: [bool; 64],
}

// Whether both are in service and neither is out of the other's reach.
fn hears(reach: u16, p: Radio, q: Radio) -> bool
    ensures { result ≡ hear reach p q }
{
    let reach = i64::from(reach);
    p.serving && q.serving && plane::squared_distance(p.point, q.point) <= reach * reach
}

impl Storey {
    /// The nodes of a map, all in service, with that reach.
    pub(crate) fn make(map: Map, reach: u16) -> Result<Storey, Unmade>
        ensures { Made meaning_of map reach result }
    {
        if reach == 0 || reach > LONGEST_REACH {
            return Err(Unmade {
                why: MakeRefusal::ReachOutOfRange,
                map,
            });
        }
        Ok(Storey {
            reach,
            map,
            serving: [true; 64],
        })
    }

    /// The number of nodes.
    pub(crate) fn count(&self) -> u8
        ensures { result ≡ length (meaning_of self.now).nodes }
    {
        self.map.count()
    }

    /// The point and the mark of node i.
    pub(crate) fn radio(&self, i: u8) -> Option<Radio>
        ensures { result ≡ radio (meaning_of self.now) i }
    {
        self.map.node(i).map(|point| Radio {
            point,
            serving: self.serving[i as usize],
        })
    }

    /// Node i, by number and point.
    pub(crate) fn node(&self, i: u8) -> Option<Node>
        ensures { result ≡ node (meaning_of self.now) i }
    {
        self.map.node(i).map(|point| Node { number: i, point })
    }

    /// Whether nodes i and k are neighbours.
    pub(crate) fn links(&self, i: u8, k: u8) -> bool
        ensures { result ≡ is_among (neighbours (meaning_of self.now) i) k }
    {
        let (Some(p), Some(q)) = (self.radio(i), self.radio(k)) else {
            return false;
        };
        i != k && hears(self.reach, p, q)
    }

    /// Sets the mark of node i; a number that is no node alters nothing.
    pub(crate) fn mark(&mut self, i: u8, serving: bool)
        ensures { meaning_of self.new ≡ with_mark (meaning_of self.old) i serving }
    {
        if i < self.map.count() {
            self.serving[i as usize] = serving;
        }
    }
}
