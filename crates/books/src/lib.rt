//! The book keeper: a sink that keeps the books of a channel in lent tables.
#![tactic(auto)]

mod book;
mod fault;
mod keeper;
mod laying;
mod level;
mod reads;
mod tables;
mod telling;

pub use book::{Book, BookRow};
pub use book_model::Level;
pub use fault::TableFault;
pub use keeper::{BookKeeper, keeper_moves};
pub use tables::{MOST_BOOKS, MOST_DEPTH, RefusedTables, Tables};
