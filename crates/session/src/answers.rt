//! What a command asks of a session, answered.
ghost use Rattle.std.specs.Prelude.{◌≡◌, IfOk, string_bytes};
ghost use Rattle.operator.specs.Desks.{desk as seen, GoesBy};
ghost use Rattle.channel.specs.Channels.{state};
ghost use Rattle.session.specs.Commands.{board, told, command_left, command_answer, command_alone};
ghost use Rattle.session.specs.Lines.{calls_by, left_by, refusal_text, answer_to, answer_alone};

use crate::acts::act_text;
use crate::reads::{Board, book, row, show_state};
use console::read_answer;
use operator::{Action, Desk};
use script::{Command, ParseError};
use shelf::Shelf;
use std::alloc::{AllocError, Global};

// The answer to a command where no channel is set up: a packet can be read, and nothing else is readable.
fn reply_alone(alloc: Global, command: Command) -> Result<String, AllocError>
    ensures { IfOk result (λ t. string_bytes t ≡ command_alone command) }
{
    match command {
        Command::Setup(_) => Ok(String::new(alloc)),
        Command::Read(packet) => read_answer(alloc, packet.as_slice()),
        Command::Make { .. }
        | Command::Offer(_)
        | Command::Claim { .. }
        | Command::Settle
        | Command::Restart { .. }
        | Command::Book { .. }
        | Command::Row { .. }
        | Command::State => refusal(alloc, ParseError::Unreadable),
    }
}

// The answer to a command at a desk.
// Kept with the five calls said in two enums: `script` reads words and stands on no operator.
fn reply<H: Shelf>(
    alloc: Global,
    desk: &mut Desk<Board<'_, '_, '_, '_>, H>,
    buffer: &mut [u8],
    command: Command,
) -> Result<String, AllocError>
    ensures text { IfOk result (λ t. string_bytes t ≡ command_answer command (seen board (H.Shelf) desk.old buffer.old)) }
    ensures after { seen board (H.Shelf) desk.new buffer.new ≡ command_left command (seen board (H.Shelf) desk.old buffer.old) }
{
    match command {
        Command::Setup(_) => Ok(String::new(alloc)),
        Command::Read(packet) => read_answer(alloc, packet.as_slice()),
        Command::Make {
            number,
            source,
            first,
        } => {
            let action = Action::Make {
                number,
                source,
                first,
            };
            act_text(alloc, desk, buffer, action)
        }
        Command::Offer(packet) => act_text(alloc, desk, buffer, Action::Offer(packet)),
        Command::Claim { time } => act_text(alloc, desk, buffer, Action::Claim { time }),
        Command::Settle => act_text(alloc, desk, buffer, Action::Settle),
        Command::Restart { number } => act_text(alloc, desk, buffer, Action::Restart { number }),
        Command::Book { index } => book(alloc, desk.channel(), index),
        Command::Row { index } => row(alloc, desk.channel(), index),
        Command::State => show_state(alloc, desk.channel()),
    }
}

// The answer to a line that is no command.
fn refusal(alloc: Global, fault: ParseError) -> Result<String, AllocError>
    ensures { IfOk result (λ t. string_bytes t ≡ refusal_text fault) }
{
    format!(in alloc; "{fault}\n")
}

// Kept as an empty text where there is no answer, here and below: callers print what they get, and an Option would ask more of them.
// Kept beside `answer`, whose match is alike: that has a desk to lend.
/// The answer to what `parse` makes of a line, where no channel is set up: then a packet can be read, and nothing else is readable.
/// A line that asks nothing has an empty answer, and so has a setup, which is the caller's.
pub fn answer_alone(
    alloc: Global,
    asked: Result<Option<Command>, ParseError>,
) -> Result<String, AllocError>
    ensures { IfOk result (λ t. string_bytes t ≡ answer_alone asked) }
{
    match asked {
        Ok(None) => Ok(String::new(alloc)),
        Ok(Some(command)) => reply_alone(alloc, command),
        Err(fault) => refusal(alloc, fault),
    }
}

/// The answer to what `parse` makes of a line, each line of it ended. What a command asks of the channel goes through the operator, so that whatever history the
/// channel followed it then follows that history with the call of the command, and keeps the promise of it. A line that asks nothing has an empty answer, and so has
/// a setup, which is the caller's.
#[tactic(auto, using(crate::proofs::Lines::goes_line))]
pub fn answer<H: Shelf>(
    alloc: Global,
    desk: &mut Desk<Board<'_, '_, '_, '_>, H>,
    buffer: &mut [u8],
    asked: Result<Option<Command>, ParseError>,
) -> Result<String, AllocError>
    ensures text { IfOk result (λ t. string_bytes t ≡ answer_to asked (seen board (H.Shelf) desk.old buffer.old)) }
    ensures stands { GoesBy told (calls_by asked (seen board (H.Shelf) desk.old buffer.old)) (state board (H.Shelf) desk.old.channel) (state board (H.Shelf) desk.new.channel) }
    ensures after { seen board (H.Shelf) desk.new buffer.new ≡ left_by asked (seen board (H.Shelf) desk.old buffer.old) }
{
    match asked {
        Ok(None) => Ok(String::new(alloc)),
        Ok(Some(command)) => reply(alloc, desk, buffer, command),
        Err(fault) => refusal(alloc, fault),
    }
}
