//! Why tables are refused.
ghost use Rattle.std.specs.Prelude.{◌≡◌, Some};
ghost use Rattle.books.specs.Keepers.{fault_number, table_fault_text};

use common::Refusal;
use std::error::Error;
use std::fmt;

/// Why tables are refused.
#[derive(Clone, Copy, PartialEq, Eq, Debug)]
pub enum TableFault {
    /// Not 1 to 1,024 books, not 1 to 4,096 levels a side, or not that many levels for each book.
    Sizes,
}

impl TableFault {
    /// The refusal's number.
    pub fn number(self) -> u8
        ensures { result ≡ fault_number self }
    {
        match self {
            TableFault::Sizes => 22,
        }
    }
}

impl fmt::Display for TableFault {
    ghost output = { λ fault. Some (table_fault_text fault) };

    fn fmt<W: fmt::Write>(&self, f: &mut fmt::Formatter<W>) -> fmt::Result {
        write!(f, "{}", Refusal(self.number()))
    }
}

impl Error for TableFault {}
