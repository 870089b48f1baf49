//! One of two shelves, as a shelf: which one is chosen at run time.
#![tactic(auto)]

ghost use Rattle.std.specs.Prelude.{◌≡◌, is_ok, vec_len, MatchResult};
ghost use Rattle.slot_shelf.specs.Slots.{empty_store};
ghost use Rattle.chain_shelf.specs.Chain.{fresh};
ghost use Rattle.chain_shelf.specs.Regions.{fit};
ghost use Rattle.any_shelf.specs.Either.{either_store, any_store};
ghost use Rattle.any_shelf.specs.EitherLaw.{either_lawful};

use chain_shelf::{ChainShelf, Region, RegionFault};
use shelf::{PutFault, Shelf, TakeFault};
use slot_shelf::SlotShelf;

/// One of two shelves.
// Kept as an enum of its own: an impl of a trait of another crate needs a type of this one, and the trait's crate would know the kit's `Either` for no more than two other names of variants.
#[derive(Drop)]
pub enum Either<A, B> {
    First(A),
    Second(B),
}

impl<A: Shelf, B: Shelf> Shelf for Either<A, B> {
    ghost means = { either_store A.Shelf.means B.Shelf.means };

    ghost lawful = { either_lawful A.Shelf.means B.Shelf.means A.Shelf.lawful B.Shelf.lawful };

    fn put(&mut self, number: u32, packet: &[u8]) -> Result<(), PutFault> {
        match self {
            Either::First(a) => a.put(number, packet),
            Either::Second(b) => b.put(number, packet),
        }
    }

    fn take(&mut self, number: u32, buffer: &mut [u8]) -> Result<Option<usize>, TakeFault> {
        match self {
            Either::First(a) => a.take(number, buffer),
            Either::Second(b) => b.take(number, buffer),
        }
    }

    fn holds(&self, number: u32) -> bool {
        match self {
            Either::First(a) => a.holds(number),
            Either::Second(b) => b.holds(number),
        }
    }

    fn least_above(&self, number: u32) -> Option<u32> {
        match self {
            Either::First(a) => a.least_above(number),
            Either::Second(b) => b.least_above(number),
        }
    }

    fn price(&self, length: usize) -> u32 {
        match self {
            Either::First(a) => a.price(length),
            Either::Second(b) => b.price(length),
        }
    }

    fn used(&self) -> u32 {
        match self {
            Either::First(a) => a.used(),
            Either::Second(b) => b.used(),
        }
    }

    fn clear(&mut self) {
        match self {
            Either::First(a) => a.clear(),
            Either::Second(b) => b.clear(),
        }
    }
}

/// Slots, or a chain.
pub type AnyShelf = Either<SlotShelf, ChainShelf>;

// Kept as functions with names, not `From` and `TryFrom`: the name says which of the two shelves it is.
impl AnyShelf {
    /// Empty slots.
    pub fn slots() -> AnyShelf
        ensures { any_store result ≡ empty_store }
    {
        Either::First(SlotShelf::new())
    }

    /// An empty chain in the given memory, where that has the size of a region; else the memory is given back.
    pub fn chain(bytes: Vec<u8>) -> Result<AnyShelf, RegionFault>
        ensures when { is_ok result ≡ fit (vec_len bytes) }
        ensures means { MatchResult result (λ s. any_store s ≡ fresh (vec_len bytes)) (λ e. e ≡ RegionFault.Size bytes) }
    {
        let region = Region::try_from(bytes)?;
        Ok(Either::Second(ChainShelf::new(region)))
    }
}
