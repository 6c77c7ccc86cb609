//! Rows of bits.
ghost use Rattle.std.specs.Prelude.{◌≡◌, ℕ, ◌<◌, ◌≢◌};
ghost use Rattle.host.specs.Rows.{bit, RowsRight, NextBit, Mended};
ghost use Rattle.host.specs.Storeys.{meaning_of};

use crate::storey::Storey;

/// A row of 64 bits for each of 64 nodes.
#[derive(Drop)]
pub(crate) struct Rows {
    row: [u64; 64],
}

impl Rows {
    /// The rows of the neighbours of every node.
    pub(crate) fn of(storey: &Storey) -> Rows
        ensures { RowsRight (meaning_of storey.now) result.row }
    {
        let mut rows = Rows { row: [0; 64] };
        for i in 0..64 {
            rows.mend(storey, i);
        }
        rows
    }

    // Sets bit j of row i, or clears it.
    fn put(&mut self, i: u8, j: u8, on: bool)
        requires { (i < 64) × (j < 64) }
        ensures there { bit self.new.row i j ≡ on }
        ensures else_same { (a b : ℕ) → (a ≡ i → b ≢ j) → bit self.new.row a b ≡ bit self.old.row a b }
    {
        if on {
            self.row[i as usize] |= 1 << j;
        } else {
            self.row[i as usize] &= !(1 << j);
        }
    }

    /// The first place from j on of a bit that is set in row i.
    pub(crate) fn next(&self, i: u8, j: u8) -> Option<u8>
        ensures { NextBit self.now.row i j result }
    {
        let rest = self.row.get(usize::from(i))?.checked_shr(u32::from(j))?;
        match rest {
            0 => None,
            _ => Some(j + rest.trailing_zeros() as u8),
        }
    }

    /// Mends the bits of node i, its own row and its bit in every other, by who its neighbours are now; there are none
    /// of a number past the rows.
    pub(crate) fn mend(&mut self, storey: &Storey, i: u8)
        ensures { Mended (meaning_of storey.now) i self.old.row self.new.row }
    {
        if i >= 64 {
            return;
        }
        for k in 0..64 {
            let on = storey.links(i, k);
            self.put(i, k, on);
            self.put(k, i, on);
        }
    }
}
