//! Making a host of a map.
ghost use Rattle.std.specs.Prelude.{◌≡◌};
ghost use Rattle.host.specs.Making.{number_of, Made};

use crate::kind::HostKind;
use crate::sides::Switching;
use floor::map::Map;

/// Why a host was not made.
#[derive(Clone, Copy, PartialEq, Eq, Debug)]
pub enum MakeRefusal {
    /// The reach is 0 or above 46,340.
    ReachOutOfRange,
}

/// A map of which no host was made, handed back with the reason.
#[derive(Drop)]
pub struct Unmade {
    pub why: MakeRefusal,
    pub map: Map,
}

/// A switching host that is made of a map.
pub trait Making: Switching + Sized {
    /// Which host it is.
    const KIND: HostKind;

    /// A host with that reach of a map's nodes, all in service.
    fn make(map: Map, reach: u16) -> Result<Self, Unmade>
        ensures { Made Self.Reading.meaning map reach result };
}

/// The number of the refusal.
impl From<MakeRefusal> for u8 {
    ghost from_gives = { λ e r. r ≡ number_of e };

    fn from(refusal: MakeRefusal) -> u8 {
        match refusal {
            MakeRefusal::ReachOutOfRange => 31,
        }
    }
}
