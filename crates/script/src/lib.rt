//! What a line of a script asks.
#![tactic(auto)]

mod answers;
mod command;
mod error;
mod fields;
mod number;
mod setup;
mod source;
mod verb;

pub use answers::answer;
pub use command::{Command, parse};
pub use error::ParseError;
pub use setup::{Setup, ShelfKind};
pub use source::{Source, open_script};
