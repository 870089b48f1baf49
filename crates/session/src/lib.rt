//! A session of the console: what a setup takes, and a channel's calls and reads answered by text.
#![tactic(auto)]

mod acts;
mod answers;
mod reads;
mod sizes;

pub use answers::{answer, answer_alone};
pub use reads::Board;
pub use sizes::{Sizes, open_shelf, table_sizes};
