//! What a channel hands over: the last number, the shelf of early packets and the sink, and how a packet moves them.
#![tactic(auto)]

ghost use Rattle.handover.specs.Laws.{MissingCounted};

mod fault;
mod handover;
mod offers;
mod reads;

pub use fault::{ChannelFault, OfferFault};
pub use handover::{Handover, Taken};

/// Of any numbers at most all are missing, and none is missing exactly where each is at most last or held: a theorem.
pub fn missing_counted()
    ensures { MissingCounted }
{}
