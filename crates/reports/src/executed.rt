//! Executed volume, as a day leaves it.
ghost use Rattle.std.specs.Prelude.{Some};
ghost use Rattle.tally.specs.Tallies.{meant, executed_of};
ghost use Rattle.reports.specs.Executed.{executed_row, executed_rows};

use std::fmt;
use tally::Tally;

// The executed volume of an index, printed as a line; nothing where it has no row.
#[derive(Clone, Copy)]
struct ExecutedRow {
    index: u16,
    executed: Option<u64>,
}

impl fmt::Display for ExecutedRow {
    ghost output = { λ row. Some (executed_row row.index row.executed) };

    fn fmt<W: fmt::Write>(&self, f: &mut fmt::Formatter<W>) -> fmt::Result {
        let index = self.index;
        match self.executed {
            Some(executed) => writeln!(f, "{index},{executed}"),
            None => Ok(()),
        }
    }
}

/// The executed volume of each index that has a row, the lowest index first, printed as a line for each.
#[derive(Clone, Copy)]
pub struct Executed<'a, 'b> {
    pub tally: &'a Tally<'b>,
}

impl<'a, 'b> fmt::Display for Executed<'a, 'b> {
    ghost output = { λ all. Some (executed_rows (meant all.tally.now).rows) };

    #[tactic(auto, using(crate::proofs::Written::nothing))]
    fn fmt<W: fmt::Write>(&self, f: &mut fmt::Formatter<W>) -> fmt::Result {
        for index in 0..=u16::MAX {
            let executed = self.tally.executed(index);
            let row = ExecutedRow { index, executed };
            write!(f, "{row}")?;
        }
        Ok(())
    }
}
