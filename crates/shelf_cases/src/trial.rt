//! A shelf and the model of it, given the same random calls.
use crate::model::{LONGEST, Model, SHORTEST};
use anyhow::ensure;
use random::Random;
use shelf::{PutFault, Shelf, TakeFault};
use std::alloc::{AllocError, Global};
use std::collections::BTreeSet;

/// What a call met. A run that has not met all six has not tried the shelf.
#[derive(Clone, Copy, PartialEq, Eq, PartialOrd, Ord, Debug)]
enum Met {
    Length,
    Held,
    Full,
    Short,
    Taken,
    Absent,
}

impl From<PutFault> for Met {
    fn from(fault: PutFault) -> Met {
        match fault {
            PutFault::Length => Met::Length,
            PutFault::Held => Met::Held,
            PutFault::Full => Met::Full,
        }
    }
}

/// The count of what may be met.
const MEETINGS: usize = 6;

/// The lengths of packets that matter.
const LENGTHS: [usize; 13] = [
    SHORTEST - 1,
    SHORTEST,
    53,
    54,
    55,
    56,
    115,
    116,
    117,
    118,
    LONGEST - 1,
    LONGEST,
    LONGEST + 1,
];

/// A shelf and its model, with the choices that are made for both and what their calls have met.
#[derive(Drop)]
pub struct Trial<S> {
    alloc: Global,
    shelf: S,
    model: Model,
    numbers: u32,
    random: Random,
    met: BTreeSet<Met>,
}

impl<S: Shelf> Trial<S> {
    /// A trial of an empty shelf, with packets of so many numbers.
    pub fn new(alloc: Global, shelf: S, model: Model, numbers: u32) -> Trial<S> {
        Trial {
            alloc,
            shelf,
            model,
            numbers,
            random: Random::new(88_172_645_463_325_252),
            met: BTreeSet::new(alloc),
        }
    }

    /// Makes so many calls, and asks all questions after each.
    pub fn run(&mut self, calls: u32) -> anyhow::Result<()> {
        self.shelf.clear();
        for _ in 0..calls {
            self.call()?;
            self.ask()?;
        }
        ensure!(self.met.len() == MEETINGS, "an answer was never met");
        Ok(())
    }

    /// The shelf, as the calls left it.
    pub fn into_shelf(self) -> S {
        let Trial { shelf, .. } = self;
        shelf
    }

    // One random call.
    fn call(&mut self) -> anyhow::Result<()> {
        match self.random.below(400) {
            0 => {
                self.shelf.clear();
                self.model.clear();
                Ok(())
            }
            1..=230 => self.put(),
            _ => self.take(),
        }
    }

    fn put(&mut self) -> anyhow::Result<()> {
        let number = self.random.below(self.numbers);
        let length = self.length();
        let packet = self.bytes(length)?;
        let told = self.shelf.put(number, packet.as_slice());
        ensure!(told == self.model.put(number, packet.as_slice())?, "put");
        if let Err(fault) = told {
            ensure!(fault.number() == Model::number(fault), "put's refusal");
            self.met.insert(Met::from(fault))?;
        }
        Ok(())
    }

    fn take(&mut self) -> anyhow::Result<()> {
        let number = self.random.below(self.numbers);
        let room = LONGEST - 1 + self.random.below(8) as usize / 2;
        let mut buffer = self.bytes(room)?;
        let before = buffer.clone()?;
        let told = self.shelf.take(number, buffer.as_mut_slice());
        if room < LONGEST {
            self.met.insert(Met::Short)?;
            ensure!(told == Err(TakeFault::Short), "take refuses");
            ensure!(TakeFault::Short.number() == 1, "take's refusal");
            ensure!(buffer == before, "take's buffer, refused");
            return Ok(());
        }
        match (told, self.model.take(number)) {
            (Ok(None), None) => {
                self.met.insert(Met::Absent)?;
                ensure!(buffer == before, "take's buffer, absent");
                Ok(())
            }
            (Ok(Some(length)), Some(packet)) => {
                self.met.insert(Met::Taken)?;
                ensure!(length == packet.len(), "take's length");
                ensure!(
                    buffer.get(..length) == Some(packet.as_slice())
                        && buffer.get(length..) == before.get(length..),
                    "take's buffer"
                );
                Ok(())
            }
            _ => Err(anyhow::anyhow!("take")),
        }
    }

    // Every question.
    fn ask(&mut self) -> anyhow::Result<()> {
        let number = self.random.below(self.numbers);
        let length = self.length();
        let (shelf, model) = (&self.shelf, &self.model);
        ensure!(shelf.holds(number) == model.holds(number), "holds");
        ensure!(
            shelf.least_above(number) == model.least_above(number),
            "least_above"
        );
        ensure!(
            u64::from(shelf.price(length)) == model.price(length),
            "price"
        );
        ensure!(u64::from(shelf.used()) == model.used(), "used");
        Ok(())
    }

    // One of the lengths that matter, or a short one.
    fn length(&mut self) -> usize {
        match LENGTHS.get(self.random.below(26) as usize) {
            Some(length) => *length,
            None => SHORTEST + self.random.below(200) as usize,
        }
    }

    // So many random bytes.
    fn bytes(&mut self, count: usize) -> Result<Vec<u8>, AllocError> {
        let mut bytes = vec![in self.alloc; 0; count]?;
        // Kept as a copy that is put back: a choice takes half as long where its state need not be read from the trial.
        let mut random = self.random;
        for byte in &mut bytes {
            *byte = random.below(256) as u8;
        }
        self.random = random;
        Ok(bytes)
    }
}
