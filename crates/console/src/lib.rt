//! The console: the words of a line, and the text of what the reader makes of a packet.
#![tactic(auto)]

mod answers;
mod text;
mod words;

pub use answers::read_answer;
pub use text::{Dollars, Heading, PricedLevel};
pub use words::next_word;
