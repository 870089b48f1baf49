//! An operator: who calls a channel, with the claim in hand and a buffer to lend. A list of actions is run, and what is promised of any list of calls holds of it.
#![tactic(auto)]

mod action;
mod desk;
mod place;

pub use action::{Action, Asked, Reply};
pub use desk::Desk;
