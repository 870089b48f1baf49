//! The words behind the first of a command.
ghost use Rattle.std.specs.Prelude.{◌≡◌, vec_items};
ghost use Rattle.std.specs.Option.{option_map};
ghost use Rattle.std.specs.List.{list_all};
ghost use Rattle.std.specs.Char.{is_ascii_hexdigit};
ghost use Rattle.console.specs.Words.{words_in};
ghost use Rattle.script.specs.Hex.{hex_bytes};
ghost use Rattle.script.specs.Faults.{Reads};
ghost use Rattle.script.specs.Fields.{only, only_number, packet_in, keyed, source_in, field, shelf_in, quotas_from, setup_in, told_field};

use crate::error::ParseError;
use crate::number::read_number;
use crate::setup::{Setup, ShelfKind};
use console::next_word;
use std::alloc::Global;

// The one word, if there is just one.
fn only_word(words: &[u8]) -> Option<&[u8]>
    ensures { option_map (λ x. x.now) result ≡ only (words_in words.now) }
{
    let (word, rest) = next_word(words)?;
    next_word(rest).is_none().then_some(word)
}

// The one number, if there is just one word and it writes one.
pub(crate) fn only_number(words: &[u8]) -> Option<u32>
    ensures { result ≡ only_number 32 (words_in words.now) }
{
    read_number(only_word(words)?)
}

// Whether a word has hexadecimal digits alone.
fn only_digits(word: &[u8]) -> bool
    ensures { result ≡ list_all is_ascii_hexdigit word.now }
{
    word.iter().all(u8::is_ascii_hexdigit)
}

// The bytes that a word writes, two digits to a byte. No memory is taken for a word that writes none.
#[tactic(auto, using(crate::proofs::Digits::decoded_ok, crate::proofs::Digits::decoded_err, crate::proofs::Digits::no_digits))]
fn decode_hex(alloc: Global, digits: &[u8]) -> Result<Vec<u8>, ParseError>
    ensures { Reads vec_items result (hex_bytes digits.now) }
{
    if !only_digits(digits) {
        return Err(ParseError::Unreadable);
    }
    Ok(hex::decode(alloc, digits)?)
}

// The bytes of just one word; no word writes no byte.
pub(crate) fn read_packet(alloc: Global, words: &[u8]) -> Result<Vec<u8>, ParseError>
    ensures { Reads vec_items result (packet_in (words_in words.now)) }
{
    let Some((digits, rest)) = next_word(words) else {
        return Ok(Vec::new(alloc));
    };
    if next_word(rest).is_some() {
        return Err(ParseError::Unreadable);
    }
    decode_hex(alloc, digits)
}

// What stands behind a key that a word begins with.
fn behind_key<'a>(word: &'a [u8], key: &[u8]) -> Option<&'a [u8]>
    ensures { option_map (λ x. x.now) result ≡ keyed key.now word.now }
{
    word.strip_prefix(key)
}

// A text, or bytes behind `hex:`.
pub(crate) fn read_source(alloc: Global, word: &[u8]) -> Result<Vec<u8>, ParseError>
    ensures { Reads vec_items result (source_in word.now) }
{
    match behind_key(word, b"hex:") {
        Some(digits) => decode_hex(alloc, digits),
        None => Ok(word.to_vec(alloc)?),
    }
}

// The number behind a key in the first word, and what stands behind that word.
fn read_field<'a>(words: &'a [u8], key: &[u8]) -> Option<(u32, &'a [u8])>
    ensures { told_field result ≡ field key.now (words_in words.now) }
{
    let (word, rest) = next_word(words)?;
    let number = read_number(behind_key(word, key)?)?;
    Some((number, rest))
}

fn read_shelf(word: &[u8]) -> Option<ShelfKind>
    ensures { result ≡ shelf_in word.now }
{
    match word {
        b"slots" => Some(ShelfKind::Slots),
        _ => {
            let records = read_number(behind_key(word, b"chain=")?)?;
            Some(ShelfKind::Chain { records })
        }
    }
}

// The least limit of the quota words in front, and what stands behind them.
fn read_quotas(words: &[u8]) -> Option<(u32, &[u8])>
    ensures { told_field result ≡ quotas_from 4294967295 (words_in words.now) }
{
    let mut least = u32::MAX;
    let mut rest = words;
    while let Some((word, more)) = next_word(rest) {
        let Some(digits) = behind_key(word, b"quota=") else {
            return Some((least, rest));
        };
        let limit = read_number(digits)?;
        least = least.min(limit);
        rest = more;
    }
    Some((least, rest))
}

// A shelf, its quotas, then books, depth and rows.
pub(crate) fn read_setup(words: &[u8]) -> Option<Setup>
    ensures { result ≡ setup_in (words_in words.now) }
{
    let (word, rest) = next_word(words)?;
    let shelf = read_shelf(word)?;
    let (limit, rest) = read_quotas(rest)?;
    let (books, rest) = read_field(rest, b"books=")?;
    let (depth, rest) = read_field(rest, b"depth=")?;
    let (rows, rest) = read_field(rest, b"rows=")?;
    next_word(rest).is_none().then_some(Setup {
        shelf,
        limit,
        books,
        depth,
        rows,
    })
}
