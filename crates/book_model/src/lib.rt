//! What a book keeper means: the types that its meaning names, the orders of a book's two sides, and what holds of a keeper whatever it is told.
#![tactic(auto)]

mod by_price;
mod laws;
mod level;
mod start;

pub use by_price::{Buys, ByPrice, Sells};
pub use laws::keeping;
pub use level::{Level, Point};
pub use start::Start;
