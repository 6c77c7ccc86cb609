//! The floors that are worked through by hand, for the account and for tests.

#![tactic(auto)]

ghost use Rattle.std.specs.Prelude.{◌≡◌, ◌≢◌, Err, IsOk, IfOk, Some, length};
ghost use Rattle.floor.specs.Map.{points_of};
ghost use Rattle.floor.specs.Placing.{all_placed};
ghost use Rattle.host.specs.Making.{all_serving, refusal};
ghost use Rattle.host.specs.declared.making.MakeRefusal.{MakeRefusal};
ghost use Rattle.worked.specs.declared.NoHost.TheVariants.{OutOfMemory, NotPlaced, Refused};

use floor::map::Map;
use host::making::{MakeRefusal, Making, Unmade};
use std::alloc::{AllocError, Global};

/// A floor: how far its nodes reach, and where they are.
#[derive(Clone, Copy)]
pub struct Floor {
    pub name: &'static str,
    pub reach: u16,
    pub coordinates: &'static [(u16, u16)],
}

/// Why there is no host of a floor.
#[derive(Clone, Copy, PartialEq, Eq, Debug)]
pub enum NoHost {
    /// There is no memory for its map.
    OutOfMemory,
    /// The map refuses a node.
    NotPlaced,
    /// The host refuses its reach.
    Refused(MakeRefusal),
}

impl From<AllocError> for NoHost {
    ghost from_gives = { λ _ why. why ≡ OutOfMemory };

    fn from(_: AllocError) -> NoHost {
        NoHost::OutOfMemory
    }
}

impl From<Unmade> for NoHost {
    ghost from_gives = { λ unmade why. why ≡ Refused unmade.why };

    fn from(unmade: Unmade) -> NoHost {
        NoHost::Refused(unmade.why)
    }
}

/// Six nodes in a ring with a gap.
pub const RING: Floor = Floor {
    name: "A",
    reach: 10,
    coordinates: &[(0, 10), (3, 18), (11, 20), (18, 17), (6, 5), (20, 10)],
};

/// A triangle, and a node that hears one corner.
pub const KITE: Floor = Floor {
    name: "B",
    reach: 8,
    coordinates: &[(0, 5), (6, 2), (6, 9), (13, 7)],
};

/// The same with that node out of reach.
pub const ISLAND: Floor = Floor {
    name: "C",
    reach: 8,
    coordinates: &[(0, 5), (6, 2), (6, 9), (40, 7)],
};

/// Nine nodes that nearly all hear each other.
pub const MESH: Floor = Floor {
    name: "D",
    reach: 13,
    coordinates: &[
        (4, 0),
        (2, 7),
        (8, 9),
        (2, 5),
        (11, 5),
        (4, 11),
        (7, 2),
        (0, 1),
        (1, 11),
    ],
};

/// Eleven nodes.
pub const WEB: Floor = Floor {
    name: "E",
    reach: 9,
    coordinates: &[
        (0, 0),
        (2, 7),
        (3, 1),
        (1, 7),
        (9, 1),
        (2, 2),
        (8, 10),
        (4, 3),
        (10, 4),
        (1, 10),
        (6, 5),
    ],
};

impl Floor {
    /// The map of its nodes.
    pub fn map(&self, heap: Global) -> Result<Map, AllocError>
        ensures { IfOk result (λ m. points_of m ≡ all_placed self.now.coordinates.now) }
    {
        Map::of(heap, self.coordinates)
    }

    /// A host of its nodes, all of them placed and in service.
    pub fn host<H: Making>(&self, heap: Global) -> Result<H, NoHost>
        ensures nodes { IfOk result (λ host. H.Reading.meaning host ≡ all_serving self.now.reach (all_placed self.now.coordinates.now)) }
        ensures each { IsOk result → length (all_placed self.now.coordinates.now) ≡ length self.now.coordinates.now }
        ensures not_placed { result ≡ Err NotPlaced → length (all_placed self.now.coordinates.now) ≢ length self.now.coordinates.now }
        ensures refused { (why : MakeRefusal) → result ≡ Err (Refused why) → refusal self.now.reach ≡ Some why }
    {
        let map = self.map(heap)?;
        if usize::from(map.count()) != self.coordinates.len() {
            return Err(NoHost::NotPlaced);
        }
        Ok(H::make(map, self.reach)?)
    }
}
