//! What a journal writes of an event.
ghost use Rattle.std.specs.Prelude.{◌≡◌, ℕ, List};
ghost use Rattle.wire.specs.Reading.{model};
ghost use Rattle.sink.specs.Events.{Event, data_of, loss_of, refresh_of, restart_of};
ghost use Rattle.journal.specs.Tails.{meant, said};
ghost use Rattle.journal.specs.Worked.{LossWorked, RunWorked};

use crate::tail::Tail;
use wire::Message;

/// The rows of a journal: a text for each event, which may be none.
pub trait Rows {
    /// The text of an event.
    ghost text: { Event → List ℕ };

    /// Writes the text of the message with a number, in its turn.
    fn data(tail: &mut Tail<'_>, number: u32, message: Message<'_>)
        ensures { meant tail.new ≡ said (text (data_of number (model message.entry))) (meant tail.old) };

    /// Writes the text of a lost number.
    fn loss(tail: &mut Tail<'_>, number: u32)
        ensures { meant tail.new ≡ said (text (loss_of number)) (meant tail.old) };

    /// Writes the text of a message out of a refresh, as of a number.
    fn refresh(tail: &mut Tail<'_>, number: u32, message: Message<'_>)
        ensures { meant tail.new ≡ said (text (refresh_of number (model message.entry))) (meant tail.old) };

    /// Writes the text of a channel's new beginning at a number.
    fn restart(tail: &mut Tail<'_>, number: u32)
        ensures { meant tail.new ≡ said (text (restart_of number)) (meant tail.old) };
}

/// Some rows of each kind. A theorem.
pub fn rows_worked()
    ensures run { RunWorked }
    ensures losses { LossWorked }
{}
