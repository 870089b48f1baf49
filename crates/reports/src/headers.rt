//! The first line of each file, and what its rows have of it.
ghost use Rattle.std.specs.Prelude.{◌≡◌};
ghost use Rattle.reports.specs.Headers.{gap_header, day_book_header, tally_header, Rows};

/// The first line of the log of gaps.
pub const GAP_HEADER: &str = "event,channel,serial,begin,end,time,missing,request\n";

/// The first line of the day's books.
pub const DAY_BOOK_HEADER: &str = "index,state,side,level,price,volume,orders\n";

/// The first line of the executed volume.
pub const TALLY_HEADER: &str = "index,executed\n";

/// Every row of a file is one line, and has as many columns as the first line: a theorem.
pub fn rows_have_columns()
    ensures gaps { GAP_HEADER.now ≡ gap_header }
    ensures books { DAY_BOOK_HEADER.now ≡ day_book_header }
    ensures tally { TALLY_HEADER.now ≡ tally_header }
    ensures rows { Rows }
{}
