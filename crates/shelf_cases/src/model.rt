//! A shelf as a plain map, to hold the proved shelves against.
use shelf::PutFault;
use std::alloc::{AllocError, Global};
use std::collections::BTreeMap;

/// The bytes of the shortest packet.
// Kept beside the shelf's own figure, here and below: a model that took it from there could not tell if it were wrong.
pub const SHORTEST: usize = 16;

/// The bytes of the longest packet.
pub const LONGEST: usize = 1500;

/// How a shelf prices a packet.
#[derive(Clone, Copy)]
pub enum Prices {
    /// One unit for every packet.
    Slots,
    /// A unit for the first 54 bytes, and one for each further 62.
    Records,
}

/// A map from number to packet under a total of units.
#[derive(Drop)]
pub struct Model {
    alloc: Global,
    held: BTreeMap<u32, Vec<u8>>,
    prices: Prices,
    total: u64,
}

impl Model {
    pub fn new(alloc: Global, prices: Prices, total: u64) -> Model {
        Model {
            alloc,
            held: BTreeMap::new(alloc),
            prices,
            total,
        }
    }

    /// The model under one more quota.
    pub fn under(self, limit: u64) -> Model {
        let most = limit.max(self.price(LONGEST));
        Model {
            total: most.min(self.total),
            ..self
        }
    }

    // The price of a length, or `None` for one that no packet has.
    // Kept beside `is_length`, and `number` beside that of a fault: the model says these rules in its own words.
    fn price_of(&self, length: usize) -> Option<u64> {
        if !(SHORTEST..=LONGEST).contains(&length) {
            return None;
        }
        Some(match self.prices {
            Prices::Slots => 1,
            Prices::Records if length <= 54 => 1,
            Prices::Records => (length as u64 - 54).div_ceil(62) + 1,
        })
    }

    /// The same as a shelf tells it, with 0 for `None`.
    pub fn price(&self, length: usize) -> u64 {
        self.price_of(length).unwrap_or(0)
    }

    // Kept as a fold: `sum` would owe that the units fit, which the model doesn't know of its packets.
    pub fn used(&self) -> u64 {
        self.held.values().fold(0, |units: u64, packet| {
            units.saturating_add(self.price(packet.len()))
        })
    }

    pub fn holds(&self, number: u32) -> bool {
        self.held.contains_key(&number)
    }

    pub fn least_above(&self, number: u32) -> Option<u32> {
        self.held.keys().copied().find(|held| *held > number)
    }

    /// The answer to a put.
    // Kept as a result in a result: the inner one is the answer, which is compared with a shelf's, and the outer one fails where memory runs out.
    pub fn put(&mut self, number: u32, packet: &[u8]) -> Result<Result<(), PutFault>, AllocError> {
        let Some(cost) = self.price_of(packet.len()) else {
            return Ok(Err(PutFault::Length));
        };
        if self.holds(number) {
            return Ok(Err(PutFault::Held));
        }
        if self.used().saturating_add(cost) > self.total {
            return Ok(Err(PutFault::Full));
        }
        self.held
            .insert(number, Vec::from_slice(self.alloc, packet)?)?;
        Ok(Ok(()))
    }

    /// The number of a refusal, as the rules have it.
    pub fn number(fault: PutFault) -> u8 {
        match fault {
            PutFault::Length => 2,
            PutFault::Held => 11,
            PutFault::Full => 13,
        }
    }

    pub fn take(&mut self, number: u32) -> Option<Vec<u8>> {
        self.held.remove(&number)
    }

    pub fn clear(&mut self) {
        self.held.clear();
    }
}
