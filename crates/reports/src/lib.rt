//! What a replay of a day writes: its counts, the log of its gaps, its books and executed volume, and a page for a person.
#![tactic(auto)]

mod counts;
mod day_book;
mod executed;
mod gap_log;
mod headers;
mod lines;
mod preview;

pub use counts::{Counts, Kind, Skipped, kind_of};
pub use day_book::{DayBook, count_whole};
pub use executed::Executed;
pub use gap_log::{RequestedRow, SettledRow};
pub use headers::{DAY_BOOK_HEADER, GAP_HEADER, TALLY_HEADER, rows_have_columns};
pub use preview::{BooksPart, ExecutedPart, GapsPart, PacketsPart, RefusalsPart};
