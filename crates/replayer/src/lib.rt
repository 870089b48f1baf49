//! A replay: what is done with each packet of a capture as it comes, and with the gaps and resets that it shows.
#![tactic(auto)]

mod announced;
mod filter;
mod followed;
mod replayer;

pub use announced::Announced;
pub use filter::Filter;
pub use followed::Followed;
pub use replayer::Replayer;
