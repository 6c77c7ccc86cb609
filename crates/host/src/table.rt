//! The table host.
ghost use Rattle.host.specs.Rows.{RowsRight};
ghost use Rattle.host.specs.Storeys.{meaning_of};
ghost use Rattle.host.specs.Radios.{mapped_storey};

use crate::kind::HostKind;
use crate::making::{Making, Unmade};
use crate::rows::Rows;
use crate::sides::{Reading, Switching};
use crate::storey::Storey;
use floor::map::Map;
use floor::node::{Node, Radio};

/// A host that keeps a row of neighbours for each node, mended at each switching.
#[derive(Drop)]
pub struct TableHost {
    storey: Storey,
    rows: Rows,
    ghost right: { RowsRight (meaning_of storey) rows.row },
}

impl Reading for TableHost {
    ghost meaning = { λ h. meaning_of h.storey };

    ghost mapped = { λ h. mapped_storey h.storey };

    fn count(&self) -> u8 {
        self.storey.count()
    }

    fn radio(&self, i: u8) -> Option<Radio> {
        self.storey.radio(i)
    }

    fn next_neighbour(&self, i: u8, j: u8) -> Option<Node> {
        self.rows.next(i, j).and_then(|k| self.storey.node(k))
    }
}

impl Switching for TableHost {
    fn switch(&mut self, i: u8, serving: bool) {
        self.storey.mark(i, serving);
        self.rows.mend(&self.storey, i);
    }
}

impl Making for TableHost {
    const KIND: HostKind = HostKind::Table;

    fn make(map: Map, reach: u16) -> Result<TableHost, Unmade> {
        let storey = Storey::make(map, reach)?;
        let rows = Rows::of(&storey);
        Ok(TableHost { storey, rows })
    }
}
