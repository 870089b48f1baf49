//! What the reader and the shelves share: how long a packet may be, and how a refusal is told.
#![tactic(auto)]

ghost use Rattle.std.specs.Prelude.{◌≡◌, Some};
ghost use Rattle.common.specs.Lengths.{right};
ghost use Rattle.common.specs.Texts.{refused_text};

use std::fmt;

/// The bytes of the shortest packet.
pub const SHORTEST: usize = 16;

/// The bytes of the longest packet.
pub const LONGEST: usize = 1500;

/// Whether a packet may have a length, in bytes.
pub fn is_length(length: usize) -> bool
    ensures { result ≡ right length }
{
    (SHORTEST..=LONGEST).contains(&length)
}

/// A refusal by its number, to be printed.
#[derive(Clone, Copy, PartialEq, Eq, Debug)]
pub struct Refusal(pub u8);

impl fmt::Display for Refusal {
    ghost output = { λ refusal. Some (refused_text refusal.0) };

    fn fmt<W: fmt::Write>(&self, f: &mut fmt::Formatter<W>) -> fmt::Result {
        write!(f, "refused {}", self.0)
    }
}
