//! A quota on any shelf.
ghost use Rattle.std.specs.Prelude.{◌≡◌};
ghost use Rattle.shelf.specs.Store.{capped};
ghost use Rattle.shelf.specs.Quotas.{quota_lawful};

use crate::{LONGEST, PutFault, Shelf, TakeFault, is_length};

/// A quota is a shelf that spends no more than a limit of units of the shelf that it holds.
#[derive(Drop)]
pub struct Quota<S> {
    below: S,
    limit: u32,
}

impl<S> Quota<S> {
    /// A quota on the given shelf.
    pub fn new(below: S, limit: u32) -> Quota<S>
        ensures below { result.below ≡ below }
        ensures limit { result.limit ≡ limit }
    {
        Quota { below, limit }
    }

    /// The shelf below, given back.
    pub fn into_below(self) -> S
        ensures { result ≡ self.below }
    {
        let Quota { below, limit: _ } = self;
        below
    }
}

impl<S: Shelf> Shelf for Quota<S> {
    ghost means = { λ q. capped q.limit (S.Shelf.means q.below) };

    ghost lawful = { λ q. quota_lawful q.limit _ (S.Shelf.lawful q.below) };

    fn put(&mut self, number: u32, packet: &[u8]) -> Result<(), PutFault> {
        if is_length(packet.len()) && !self.holds(number) {
            let most = self.limit.max(self.price(LONGEST));
            if self.price(packet.len()) > most.saturating_sub(self.used()) {
                return Err(PutFault::Full);
            }
        }
        self.below.put(number, packet)
    }

    fn take(&mut self, number: u32, buffer: &mut [u8]) -> Result<Option<usize>, TakeFault> {
        self.below.take(number, buffer)
    }

    fn holds(&self, number: u32) -> bool {
        self.below.holds(number)
    }

    fn least_above(&self, number: u32) -> Option<u32> {
        self.below.least_above(number)
    }

    fn price(&self, length: usize) -> u32 {
        self.below.price(length)
    }

    fn used(&self) -> u32 {
        self.below.used()
    }

    fn clear(&mut self) {
        self.below.clear();
    }
}
