//! Worked cases of a channel's calls, with the figures of the rules written out: what is proved of every run, seen at a few.
#![tactic(auto)]

ghost use Rattle.channel_cases.specs.Cases.{Cases};
ghost use Rattle.channel_cases.specs.Sample.{SampleHolds};
ghost use Rattle.channel_cases.specs.Table.{Table};

/// The rules' own examples: prices, the window, ranges, a full shelf, a refresh: a theorem.
#[tactic(auto, using(crate::proofs::Table::table))]
pub fn table_holds()
    ensures { Table }
{}

/// The promise is not empty: a run of real packets that earns it, with a whole book at its end: a theorem.
#[tactic(auto, using(crate::proofs::Sample::sample_holds))]
pub fn sample_holds()
    ensures { SampleHolds }
{}

/// Each refusal of each call, in their order, and the buffers: a theorem.
#[tactic(auto, using(crate::proofs::Cases::cases))]
pub fn cases_hold()
    ensures { Cases }
{}
