//! What a line of a script asks.
ghost use Rattle.std.specs.Prelude.{◌≡◌, [], ◌∷◌, cond};
ghost use Rattle.console.specs.Words.{words_in, words_of, told_words};
ghost use Rattle.script.specs.Words.{begins};
ghost use Rattle.script.specs.Numbers.{number_in};
ghost use Rattle.script.specs.Fields.{only_number};
ghost use Rattle.script.specs.Commands.{Tells, TellsLine, command_in, asked, by_verb, make_in};

use crate::error::ParseError;
use crate::fields::{only_number, read_packet, read_setup, read_source};
use crate::number::read_number;
use crate::setup::Setup;
use crate::verb::Verb;
use console::next_word;
use std::alloc::Global;

/// What a line asks.
#[derive(Drop)]
pub enum Command {
    /// What the reader makes of a packet.
    Read(Vec<u8>),
    /// A closed channel over a shelf, a keeper and a tally.
    Setup(Setup),
    /// The channel is made: its number, its source id and the first number of its run.
    Make {
        number: u8,
        source: Vec<u8>,
        first: u32,
    },
    /// A packet is offered.
    Offer(Vec<u8>),
    /// A gap is claimed at a send time.
    Claim {
        time: u32,
    },
    /// The claim in hand is settled.
    Settle,
    /// The channel begins again at a number.
    Restart {
        number: u32,
    },
    /// The book of an index is shown.
    Book {
        index: u16,
    },
    /// The executed volume of an index is shown.
    Row {
        index: u16,
    },
    /// Last, the units in use, the loss mark and the counts of the tally are shown.
    State,
}

// The one index, if there is just one word and it writes one.
// Kept apart from `only_number`, as `read_byte` from `read_number`: each is one `try_from` to its width, and one function for both widths needs a trait that says the width, for two callers.
fn only_index(words: &[u8]) -> Option<u16>
    ensures { result ≡ only_number 16 (words_in words.now) }
{
    u16::try_from(only_number(words)?).ok()
}

// The number that a word writes, where it fits 8 bits.
fn read_byte(word: &[u8]) -> Option<u8>
    ensures { result ≡ number_in 8 word.now }
{
    u8::try_from(read_number(word)?).ok()
}

// A number of 8 bits, a source id and a number of 32 bits.
fn read_make(alloc: Global, words: &[u8]) -> Result<Command, ParseError>
    ensures { Tells result (make_in (words_in words.now)) }
{
    let (number, words) = next_word(words).ok_or(ParseError::Unreadable)?;
    let (source, words) = next_word(words).ok_or(ParseError::Unreadable)?;
    let number = read_byte(number).ok_or(ParseError::Unreadable)?;
    let first = only_number(words).ok_or(ParseError::Unreadable)?;
    let source = read_source(alloc, source)?;
    Ok(Command::Make {
        number,
        source,
        first,
    })
}

// A command by its first word, of what stands behind it.
fn read_command(alloc: Global, verb: Verb, words: &[u8]) -> Result<Command, ParseError>
    ensures { Tells result (by_verb verb (words_in words.now)) }
{
    let command = match verb {
        Verb::Read => Some(Command::Read(read_packet(alloc, words)?)),
        Verb::Setup => read_setup(words).map(Command::Setup),
        Verb::Make => Some(read_make(alloc, words)?),
        Verb::Offer => Some(Command::Offer(read_packet(alloc, words)?)),
        Verb::Claim => only_number(words).map(|time| Command::Claim { time }),
        Verb::Settle => next_word(words).is_none().then_some(Command::Settle),
        Verb::Restart => only_number(words).map(|number| Command::Restart { number }),
        Verb::Book => only_index(words).map(|index| Command::Book { index }),
        Verb::Row => only_index(words).map(|index| Command::Row { index }),
        Verb::State => next_word(words).is_none().then_some(Command::State),
    };
    command.ok_or(ParseError::Unreadable)
}

// The same, of a word that may be none of them.
fn read_words(alloc: Global, word: &[u8], words: &[u8]) -> Result<Command, ParseError>
    ensures { Tells result (asked (word.now ∷ words_in words.now)) }
{
    read_command(alloc, Verb::try_from(word)?, words)
}

// The first word of a line and what stands behind it, or none: blank lines and lines that begin with `#` are passed over.
pub(crate) fn first_word(line: &[u8]) -> Option<(&[u8], &[u8])>
    ensures { words_of (told_words result) ≡ cond (begins 35 line.now) [] (words_in line.now) }
{
    if line.starts_with(b"#") {
        return None;
    }
    next_word(line)
}

/// The command of a line, or none: blank lines and lines that begin with `#` are passed over.
pub fn parse(alloc: Global, line: &[u8]) -> Result<Option<Command>, ParseError>
    ensures { TellsLine result (command_in line.now) }
{
    first_word(line)
        .map(|(word, words)| read_words(alloc, word, words))
        .transpose()
}
