//! The tally: how much of each index was executed.
#![tactic(auto)]

mod laws;
mod reads;
mod row;
mod tally;

pub use laws::ordered;
pub use row::{ByIndex, Row};
pub use tally::{Counters, Tally};
