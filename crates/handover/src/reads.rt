//! What a handover shows.
ghost use Rattle.std.specs.Prelude.{◌≡◌, ◌+◌, ◌-◌, ◌<◌, not, ◌&&◌, nat_lt, IfSome};
ghost use Rattle.shelf.specs.Store.{has};
ghost use Rattle.handover.specs.Flows.{gap, missing};

use crate::handover::Handover;
use shelf::Shelf;
use sink::Sink;

impl<S, H> Handover<S, H> {
    /// Nothing handed over yet.
    pub fn new(sink: S, shelf: H) -> Handover<S, H>
        ensures { result ≡ record { last = 0; shelf = shelf; sink = sink } }
    {
        Handover {
            last: 0,
            shelf,
            sink,
        }
    }

    /// The sink and the shelf back.
    pub fn into_parts(self) -> (S, H)
        ensures { result ≡ (self.sink, self.shelf) }
    {
        let Handover {
            last: _,
            shelf,
            sink,
        } = self;
        (sink, shelf)
    }

    /// The last number that was handed over.
    pub fn last(&self) -> u32
        ensures { result ≡ self.now.last }
    {
        self.last
    }

    /// The sink, to be read.
    pub fn sink(&self) -> &S
        ensures { result.now ≡ self.now.sink }
    {
        &self.sink
    }

    /// The shelf, to be read.
    pub fn shelf(&self) -> &H
        ensures { result.now ≡ self.now.shelf }
    {
        &self.shelf
    }
}

impl<S: Sink, H: Shelf> Handover<S, H> {
    /// The gap above last: the least number held above it, where the next one is not held.
    #[tactic(auto, using(crate::proofs::Flows::above_over))]
    pub fn gap(&self) -> Option<u32>
        ensures gap { result ≡ gap self.now.last (H.Shelf.means self.now.shelf).held }
        ensures above { IfSome result (λ least. self.now.last + 1 < least) }
    {
        if self.holds_next() {
            return None;
        }
        self.shelf.least_above(self.last)
    }

    // Whether a number is missing: above last, and not held.
    fn lacks(&self, number: u32) -> bool
        ensures { result ≡ nat_lt self.now.last number && not (has (H.Shelf.means self.now.shelf).held number) }
    {
        number > self.last && !self.shelf.holds(number)
    }

    /// How many of the numbers from begin to end are missing.
    // The count fits 32 bits: number 0 is never missing.
    // Kept as a loop: a filter that is counted takes 1.7 times the instructions of it, and a settlement asks for a thousand numbers.
    pub fn missing(&self, begin: u32, end: u32) -> u32
        ensures { result ≡ missing self.now.last (H.Shelf.means self.now.shelf).held begin (end + 1 - begin) }
    {
        let mut count = 0;
        for number in begin..=end {
            if self.lacks(number) {
                count += 1;
            }
        }
        count
    }
}
