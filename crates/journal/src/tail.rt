//! The last bytes of a text.
ghost use Rattle.std.specs.Prelude.{◌≡◌, ◌/◌, ◌++◌, length, codes, decimal};
ghost use Rattle.std.specs.Option.{option_map};
ghost use Rattle.console.specs.Texts.{price_text, places_from, decimals};
ghost use Rattle.journal.specs.Tails.{meant, fresh, said, since as kept_since};
ghost use Rattle.journal.specs.Laws.{PiecesJoin, PiecesStand};

use crate::buffer::{append, last_of};
use itoa::Buffer;

/// The last bytes of a text, in a lent buffer: as many as half of it holds.
// Kept with twice the room: the kept bytes are moved to the front only once that many more were told, and not at each piece.
// Kept with `meant` in the contracts: it is the meaning that the journal's sink names; an `impl Model` would be a second one.
#[derive(Drop)]
pub struct Tail<'a> {
    buffer: &'a mut [u8],
    used: usize,
    told: u64,
}

// The point and the nine decimals of a price in billionths.
fn point_and_decimals(billionths: u64) -> [u8; 10]
    ensures { result ≡ codes "." ++ places_from billionths decimals }
{
    let part = (billionths % 1_000_000_000) as u32;
    let digit = |place: u32| b'0' + (part / place % 10) as u8;
    [
        b'.',
        digit(100_000_000),
        digit(10_000_000),
        digit(1_000_000),
        digit(100_000),
        digit(10_000),
        digit(1_000),
        digit(100),
        digit(10),
        digit(1),
    ]
}

impl<'a> Tail<'a> {
    /// A tail of a text of which nothing is told yet.
    #[tactic(auto, unfolding(crate::specs::Tails::meant, crate::specs::Tails::last_part))]
    pub fn new(buffer: &'a mut [u8]) -> Tail<'a>
        ensures { meant result ≡ fresh (length buffer.old / 2) }
    {
        Tail {
            buffer,
            used: 0,
            told: 0,
        }
    }
}

impl Tail<'_> {
    /// Goes on with these bytes.
    #[tactic(auto, unfolding(crate::specs::Tails::meant, crate::specs::Tails::said))]
    pub fn push(&mut self, bytes: &[u8])
        ensures { meant self.new ≡ said bytes.now (meant self.old) }
    {
        self.used = append(self.buffer, self.used, bytes);
        self.told = self.told.saturating_add(bytes.len() as u64);
    }

    /// Goes on with a number in decimal.
    pub fn push_number(&mut self, number: u64)
        ensures { meant self.new ≡ said (decimal number) (meant self.old) }
    {
        let mut digits = Buffer::new();
        self.push(digits.format(number).as_bytes());
    }

    /// Goes on with a price in billionths, as dollars with nine decimals.
    #[tactic(auto, using(crate::proofs::Told::pieces_join, std::proofs::lemmas::List::append_assoc))]
    pub fn push_price(&mut self, billionths: u64)
        ensures { meant self.new ≡ said (price_text billionths) (meant self.old) }
    {
        self.push_number(billionths / 1_000_000_000);
        self.push(&point_and_decimals(billionths));
    }

    /// How many bytes were told; the count stops at the largest number of 64 bits.
    #[tactic(auto, unfolding(crate::specs::Tails::meant))]
    pub fn told(&self) -> u64
        ensures { result ≡ (meant self.now).told }
    {
        self.told
    }

    /// The last bytes that were told, as many as there is room for.
    #[tactic(auto, unfolding(crate::specs::Tails::meant))]
    pub fn kept(&self) -> &[u8]
        ensures { result.now ≡ (meant self.now).kept }
    {
        last_of(
            &self.buffer[..self.used.min(self.buffer.len())],
            self.buffer.len() / 2,
        )
    }

    /// What was told since the count stood at this number: none where not all of it is kept, or the count has not come there or has stopped.
    #[tactic(auto, unfolding(crate::specs::Tails::meant, crate::specs::Tails::last_part))]
    pub fn since(&self, told: u64) -> Option<&[u8]>
        ensures { option_map (λ bytes. bytes.now) result ≡ kept_since told (meant self.now) }
    {
        if self.told == u64::MAX {
            return None;
        }
        let new = self.told.checked_sub(told)?;
        let kept = self.kept();
        let start = (kept.len() as u64).checked_sub(new)?;
        Some(&kept[start as usize..])
    }
}

/// What holds of every text: pieces are told as one, and what was told since a count is exactly the pieces behind it. A theorem.
pub fn pieces_stand()
    ensures join { PiecesJoin }
    ensures stand { PiecesStand }
{}
