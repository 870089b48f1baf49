//! Numbers written as decimal digits.
ghost use Rattle.std.specs.Prelude.{◌≡◌, false};
ghost use Rattle.script.specs.Numbers.{number_in};
ghost use Rattle.script.specs.Words.{begins};

use std::str::from_utf8;

// The number that a word writes which has no sign.
// Kept as a match: with `.ok()?` the proof loses what `from_utf8` said, and two goals stay open.
fn plain_number(word: &[u8]) -> Option<u32>
    requires { begins 43 word.now ≡ false }
    ensures { result ≡ number_in 32 word.now }
{
    match from_utf8(word) {
        Ok(text) => text.parse().ok(),
        Err(_) => None,
    }
}

// The number that a word writes, where it fits 32 bits; a sign is none of its bytes.
pub(crate) fn read_number(word: &[u8]) -> Option<u32>
    ensures { result ≡ number_in 32 word.now }
{
    if word.starts_with(b"+") {
        return None;
    }
    plain_number(word)
}
