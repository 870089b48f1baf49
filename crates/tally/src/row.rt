//! The rows of a tally.
ghost use Rattle.tally.specs.Rows.{row_key, row_before};
ghost use Rattle.rank.proofs.Numbers.{rising_one, rising_transitive};

use rank::Rank;

/// A row: the executed volume of an index.
#[derive(Clone, Copy, PartialEq, Eq, Debug, Default)]
pub struct Row {
    pub index: u16,
    pub executed: u64,
}

impl Row {
    ghost use Rattle.std.specs.Prelude.{◌≡◌, ◌+◌};
    ghost use Rattle.tally.specs.Tallies.{capped64};

    // The executed volume with a quantity more.
    pub(crate) fn plus(self, quantity: u32) -> u64
        ensures { result ≡ capped64 (self.executed + quantity) }
    {
        self.executed.saturating_add(u64::from(quantity))
    }
}

/// The rank of rows: the lower index first.
// Kept beside the rank of levels by price: it reads another field of another row, as another kind of number.
#[derive(Drop)]
pub struct ByIndex;

impl Rank for ByIndex {
    type Row = Row;

    type Key = u16;

    ghost keyed = { row_key };

    ghost before = { row_before };

    ghost exactly_one = { rising_one };

    ghost transitive = { rising_transitive };

    fn key(row: &Row) -> u16 {
        row.index
    }

    fn precedes(a: u16, b: u16) -> bool {
        a < b
    }
}
