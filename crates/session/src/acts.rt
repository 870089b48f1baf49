//! An action of the operator, and the text of its reply.
ghost use Rattle.std.specs.Prelude.{◌≡◌, IfOk, string_bytes};
ghost use Rattle.operator.specs.Desks.{desk as seen, desk_after};
ghost use Rattle.session.specs.Commands.{acted_text};

use operator::{Action, Desk};
use replies::ReplyLine;
use shelf::Shelf;
use sink::Sink;
use std::alloc::{AllocError, Global};

// Kept with a desk and a buffer, both lent: a struct of the two, made for one call, leaves the checker without the tie between its fields and what was lent.
// Does one action, answered by text.
pub(crate) fn act_text<S: Sink, H: Shelf>(
    alloc: Global,
    desk: &mut Desk<S, H>,
    buffer: &mut [u8],
    action: Action,
) -> Result<String, AllocError>
    ensures text { IfOk result (λ t. string_bytes t ≡ acted_text S.Sink.step action (seen (S.Sink) (H.Shelf) desk.old buffer.old)) }
    ensures after { seen (S.Sink) (H.Shelf) desk.new buffer.new ≡ desk_after S.Sink.step action (seen (S.Sink) (H.Shelf) desk.old buffer.old) }
{
    let reply = desk.act(&action, buffer);
    let last = desk.channel().last();
    let line = ReplyLine {
        reply,
        last,
        buffer,
    };
    format!(in alloc; "{line}")
}
