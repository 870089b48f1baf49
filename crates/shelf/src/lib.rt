//! Shelves: packets that came early, kept by number until their turn.
#![tactic(auto)]

ghost use Rattle.std.specs.Prelude.{◌≡◌, [], Some};
ghost use Rattle.shelf.specs.Store.{Store, Lawful, has, above, used, priced, with_held, put_answer, put_after, take_answer, take_buffer, take_after, put_fault_number, take_fault_number};
ghost use Rattle.common.specs.Texts.{refused_text};
ghost use Rattle.shelf.specs.Laws.{HeldIsAMap, QuotasJoin, WidestQuota};

use common::Refusal;
use std::error::Error;
use std::fmt;

mod quota;

pub use common::{LONGEST, SHORTEST, is_length};
pub use quota::Quota;

/// Why a packet was not put on a shelf.
#[derive(Clone, Copy, PartialEq, Eq, Debug)]
pub enum PutFault {
    /// Its length is outside 16 to 1,500 bytes.
    Length,
    /// A packet of its number is held.
    Held,
    /// The units in use and its price exceed the total.
    Full,
}

impl PutFault {
    /// The refusal's number.
    pub fn number(self) -> u8
        ensures { result ≡ put_fault_number self }
    {
        match self {
            PutFault::Length => 2,
            PutFault::Held => 11,
            PutFault::Full => 13,
        }
    }
}

impl fmt::Display for PutFault {
    ghost output = { λ fault. Some (refused_text (put_fault_number fault)) };

    fn fmt<W: fmt::Write>(&self, f: &mut fmt::Formatter<W>) -> fmt::Result {
        write!(f, "{}", Refusal(self.number()))
    }
}

impl Error for PutFault {}

/// Why a packet was not taken from a shelf.
#[derive(Clone, Copy, PartialEq, Eq, Debug)]
pub enum TakeFault {
    /// The buffer is below 1,500 bytes.
    Short,
}

impl TakeFault {
    /// The refusal's number.
    pub fn number(self) -> u8
        ensures { result ≡ take_fault_number self }
    {
        match self {
            TakeFault::Short => 1,
        }
    }
}

impl fmt::Display for TakeFault {
    ghost output = { λ fault. Some (refused_text (take_fault_number fault)) };

    fn fmt<W: fmt::Write>(&self, f: &mut fmt::Formatter<W>) -> fmt::Result {
        write!(f, "{}", Refusal(self.number()))
    }
}

impl Error for TakeFault {}

/// A shelf keeps packets that came early, by number. It has a total of units, and each packet costs a price in units by its length.
pub trait Shelf {
    ghost means: { Self → Store };

    /// Keeps a packet under its number.
    fn put(&mut self, number: u32, packet: &[u8]) -> Result<(), PutFault>
        ensures answer { result ≡ put_answer (means self.old) number packet.now }
        ensures after { means self.new ≡ put_after (means self.old) number packet.now };

    /// Moves the packet of a number to the front of the buffer, and answers its length, or `None` where the number is absent.
    fn take(&mut self, number: u32, buffer: &mut [u8]) -> Result<Option<usize>, TakeFault>
        ensures answer { result ≡ take_answer (means self.old) number buffer.old }
        ensures buffer { buffer.new ≡ take_buffer (means self.old) number buffer.old }
        ensures after { means self.new ≡ take_after (means self.old) number buffer.old };

    /// Whether a number is held.
    fn holds(&self, number: u32) -> bool
        ensures { result ≡ has (means self.now).held number };

    /// The least number held above the given one.
    fn least_above(&self, number: u32) -> Option<u32>
        ensures { result ≡ above (means self.now).held number };

    /// The price of a length in units, 0 for a length that no packet has.
    // Kept as a number, not an Option: the rules name the price of every length, and 0 is the price that they give here.
    fn price(&self, length: usize) -> u32
        ensures { result ≡ priced (means self.now) length };

    /// The units in use: the sum of the prices of the packets held.
    fn used(&self) -> u32
        ensures { result ≡ used (means self.now) };

    /// Lets go of every packet.
    fn clear(&mut self)
        ensures { means self.new ≡ with_held (means self.old) [] };

    ghost lawful: { (s : Self) → Lawful (means s) };
}

/// What is held is a map: look-ups, the least number above and the units are what a map's would be. A theorem.
pub fn held_is_a_map()
    ensures { HeldIsAMap }
{}

/// A quota on a quota means one quota with the lesser limit, and a quota with the largest limit means the shelf itself: theorems.
pub fn quotas_join()
    ensures join { QuotasJoin }
    ensures widest { WidestQuota }
{}
