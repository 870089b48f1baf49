//! The answer of a program that only reads packets.
ghost use Rattle.std.specs.Prelude.{◌≡◌, IfErr, IfOk, string_bytes};
ghost use Rattle.std.specs.Option.{option_map};
ghost use Rattle.script.specs.Commands.{command_in};
ghost use Rattle.script.specs.Answers.{answer_to, AnswersBy};
ghost use Rattle.script.specs.declared.error.ParseError.TheVariants.{OutOfMemory};

use crate::command::first_word;
use crate::error::ParseError;
use crate::fields::read_packet;
use crate::verb::Verb;
use console::read_answer;
use std::alloc::Global;

// The packet that a line reads, or none where it is passed over. Behind another first word than `read` nothing is looked at.
fn asked_packet(alloc: Global, line: &[u8]) -> Result<Option<Vec<u8>>, ParseError>
    ensures { AnswersBy result (answer_to (command_in line.now)) }
{
    let Some((word, words)) = first_word(line) else {
        return Ok(None);
    };
    match Verb::try_from(word)? {
        Verb::Read => Ok(Some(read_packet(alloc, words)?)),
        _ => Err(ParseError::Unreadable),
    }
}

/// The answer to a line, each line of it ended; `None` to a line that is passed over. It fails only where memory runs out.
pub fn answer(alloc: Global, line: &[u8]) -> Result<Option<String>, ParseError>
    ensures text { IfOk result (λ o. option_map string_bytes o ≡ answer_to (command_in line.now)) }
    ensures fails { IfErr result (λ fault. fault ≡ OutOfMemory) }
{
    match asked_packet(alloc, line) {
        Ok(None) => Ok(None),
        Ok(Some(packet)) => Ok(Some(read_answer(alloc, packet.as_slice())?)),
        Err(ParseError::Unreadable) => {
            let fault = ParseError::Unreadable;
            Ok(Some(format!(in alloc; "{fault}\n")?))
        }
        Err(ParseError::OutOfMemory) => Err(ParseError::OutOfMemory),
    }
}
