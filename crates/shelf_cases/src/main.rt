//! The proved shelves beside a plain map: the same random calls, every answer compared.
#![tactic(auto)]

ghost use Rattle.shelf_cases.specs.Cases.{Cases};

mod model;
mod trial;

use anyhow::ensure;
use chain_shelf::{ChainShelf, Region};
use model::{Model, Prices};
use shelf::{Quota, Shelf};
use slot_shelf::SlotShelf;
use std::alloc::Global;
use trial::Trial;

const CALLS: u32 = 20_000;

fn compare<S: Shelf + Drop>(
    rt: &HostRuntime,
    name: &str,
    shelf: S,
    model: Model,
    numbers: u32,
) -> anyhow::Result<S> {
    let mut trial = Trial::new(rt.alloc(), shelf, model, numbers);
    trial.run(CALLS)?;
    println!(rt; "{name}: {CALLS} calls agree")?;
    Ok(trial.into_shelf())
}

// An empty chain shelf of so many records, in memory that held something else.
fn chain(alloc: Global, records: u16) -> anyhow::Result<ChainShelf> {
    let memory = vec![in alloc; 165u8; usize::from(records) * 64]?;
    Ok(ChainShelf::new(Region::try_from(memory)?))
}

fn run(rt: &HostRuntime) -> anyhow::Result<()> {
    let alloc = rt.alloc();
    let slots = || Model::new(alloc, Prices::Slots, 16);
    let records = |total| Model::new(alloc, Prices::Records, total);
    compare(rt, "slots", SlotShelf::new(), slots(), 40)?;
    compare(rt, "chain of 26", chain(alloc, 26)?, records(25), 40)?;
    compare(rt, "chain of 300", chain(alloc, 300)?, records(299), 400)?;
    let quota = Quota::new(SlotShelf::new(), 9);
    let quota = compare(rt, "slots under 9", quota, slots().under(9), 40)?;
    let units = quota.used();
    ensure!(quota.into_below().used() == units, "what a quota held");
    let pile = Quota::new(Quota::new(chain(alloc, 300)?, 100), 7);
    let model = records(299).under(100).under(7);
    compare(rt, "chain of 300 under 100, 7", pile, model, 40)?;
    let pile = Quota::new(Quota::new(Quota::new(chain(alloc, 300)?, 90), 250), 60);
    let model = records(299).under(90).under(250).under(60);
    compare(rt, "chain of 300 under 90, 250, 60", pile, model, 40)?;
    Ok(())
}

/// Worked cases of a shelf's refusals and their order, of the lengths, and of the total under a quota: a theorem.
#[tactic(auto, using(crate::proofs::Cases::cases))]
pub fn cases_hold()
    ensures { Cases }
{}

fn main(rt: HostRuntime) -> anyhow::Result<()> {
    run(&rt)
}
