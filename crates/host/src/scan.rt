//! The scan host.
ghost use Rattle.host.specs.Storeys.{meaning_of};
ghost use Rattle.host.specs.Radios.{mapped_storey};

use crate::kind::HostKind;
use crate::making::{Making, Unmade};
use crate::sides::{Reading, Switching};
use crate::storey::Storey;
use floor::map::Map;
use floor::node::{Node, Radio};

/// A host that works neighbours out each time.
#[derive(Drop)]
pub struct ScanHost {
    storey: Storey,
}

impl Reading for ScanHost {
    ghost meaning = { λ h. meaning_of h.storey };

    ghost mapped = { λ h. mapped_storey h.storey };

    fn count(&self) -> u8 {
        self.storey.count()
    }

    fn radio(&self, i: u8) -> Option<Radio> {
        self.storey.radio(i)
    }

    fn next_neighbour(&self, i: u8, j: u8) -> Option<Node> {
        (j..self.storey.count())
            .find(|k| self.storey.links(i, *k))
            .and_then(|k| self.storey.node(k))
    }
}

impl Switching for ScanHost {
    fn switch(&mut self, i: u8, serving: bool) {
        self.storey.mark(i, serving);
    }
}

impl Making for ScanHost {
    const KIND: HostKind = HostKind::Scan;

    fn make(map: Map, reach: u16) -> Result<ScanHost, Unmade> {
        let storey = Storey::make(map, reach)?;
        Ok(ScanHost { storey })
    }
}
