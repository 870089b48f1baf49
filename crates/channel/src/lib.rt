//! A channel: the packets of one stream, in order, each number once. Here is what its calls come to, and what is promised of any run of them.
#![tactic(auto)]

ghost use Rattle.channel.specs.Follows.{CallsFollow, MakingFollows};
ghost use Rattle.channel.specs.Kept.{PromiseStands};
ghost use Rattle.channel.specs.Runs.{RunsJoin, RunsStand};
ghost use Rattle.channel.specs.Laws.{Counts, SourcesStay, ClaimsAsk};

use sink::Sink;

mod calls;
mod channel;
mod claim;
mod gaps;
mod steps;

pub use channel::Channel;
pub use claim::Claim;
pub use handover::{ChannelFault, OfferFault, Taken};

/// A channel that follows a history follows the longer one after any call, taken or refused, and a making that is taken begins one: a theorem,
/// for every sink and whatever the shelf means.
pub fn calls_follow<S: Sink>()
    ensures calls { CallsFollow S.Sink.step }
    ensures making { MakingFollows S.Sink.step }
{}

/// Whatever follows a history keeps the promise, in its order, its last number and its books: a theorem.
#[tactic(auto, using(crate::proofs::Kept::promised))]
pub fn promise_stands<S: Sink>()
    ensures { PromiseStands S.Sink.step }
{}

/// One list of calls after another is the joined list, and what is made and then called keeps the promise: theorems.
pub fn runs_stand<S: Sink>()
    ensures join { RunsJoin S.Sink.step }
    ensures stand { RunsStand S.Sink.step }
{}

/// A taken offer counts the data and loss events that it handed over; the source id stays right; a claim asks for missing numbers only, and its
/// request stands in the buffer: theorems.
pub fn laws_stand<S: Sink>()
    ensures counts { Counts S.Sink.step }
    ensures sources { SourcesStay S.Sink.step }
    ensures claims { ClaimsAsk S.Sink.step }
{}
