//! What a tally shows. A read changes nothing.
ghost use Rattle.std.specs.Prelude.{◌≡◌, ◌<◌, slice_index_or, IfSome, MatchResult};
ghost use Rattle.ladder.specs.Tables.{There, Missing};
ghost use Rattle.tally.specs.Rows.{row_key, row_before, blank};
ghost use Rattle.tally.specs.Tallies.{meant, executed_of};

use crate::row::ByIndex;
use crate::tally::{Counters, Tally};
use ladder::find;

impl Tally<'_> {
    // Where the row of an index is, if each index from the first row's on has one. Most have, and the turns of a search cannot be foretold.
    fn guess(&self, index: u16) -> Option<usize>
        ensures { IfSome result (λ at. (at < self.now.used) × (row_key (slice_index_or self.now.rows.now at blank) ≡ index)) }
    {
        let first = self.rows.first()?;
        let at = usize::from(index.checked_sub(first.index)?);
        if at < self.used && self.rows[at].index == index {
            return Some(at);
        }
        None
    }

    // Where the row of an index is, or else where one would be added.
    pub(crate) fn place(&self, index: u16) -> Result<usize, usize>
        ensures { MatchResult result (There row_key row_before index (meant self.now).rows) (Missing row_key row_before index (meant self.now).rows) }
    {
        match self.guess(index) {
            Some(at) => Ok(at),
            None => find::<ByIndex>(self.rows, self.used, index),
        }
    }

    /// The executed volume of an index, if it has a row.
    #[tactic(auto, using(crate::proofs::Found::there_executed))]
    pub fn executed(&self, index: u16) -> Option<u64>
        ensures { result ≡ executed_of index (meant self.now).rows }
    {
        let at = self.place(index).ok()?;
        Some(self.rows[at].executed)
    }

    /// The executions that found no free row, and the numbers that were lost.
    pub fn counters(&self) -> Counters
        ensures missed { result.missed ≡ (meant self.now).missed }
        ensures losses { result.losses ≡ (meant self.now).losses }
    {
        self.counters
    }
}
