//! The text of an operator's replies, and of the reads of a channel's books and rows.
#![tactic(auto)]

mod calls;
mod hex;
mod reads;

pub use calls::{ReplyLine, StateLine};
pub use hex::Hex;
pub use reads::{RowLine, book_text, whole_text};
