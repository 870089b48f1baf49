//! The journal: the clean run of a channel as a CSV text, row by row, of which a lent buffer keeps the last part.
#![tactic(auto)]

mod buffer;
mod journal;
mod losses;
mod rows;
mod run;
mod tail;

pub use journal::{Journal, rows_stand};
pub use losses::LossRows;
pub use rows::{Rows, rows_worked};
pub use run::{RUN_HEADER, RunRows, columns_stand};
pub use tail::{Tail, pieces_stand};
