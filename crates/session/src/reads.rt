//! The reads of a channel whose sink is a keeper beside a tally, answered by text.
ghost use Rattle.std.specs.Prelude.{◌≡◌, IfOk, string_bytes};
ghost use Rattle.std.specs.Option.{option_map};
ghost use Rattle.shelf.specs.Store.{used};
ghost use Rattle.book_model.specs.Keepers.{book_of};
ghost use Rattle.books.specs.Keepers.{keeper_means};
ghost use Rattle.tally.specs.Tallies.{meant, executed_of};
ghost use Rattle.replies.specs.Calls.{state_text};
ghost use Rattle.replies.specs.Reads.{book_text, row_text};
ghost use Rattle.session.specs.Commands.{counters_of};

use books::BookKeeper;
use channel::Channel;
use replies::{RowLine, StateLine, book_text};
use shelf::Shelf;
use sink::Twin;
use std::alloc::{AllocError, Global};
use tally::Tally;

/// What a channel of the console tells its events to.
pub type Board<'a, 'b, 'c, 'd> = Twin<BookKeeper<'a, 'b, 'c>, Tally<'d>>;

// The book of an index.
pub(crate) fn book<H: Shelf>(
    alloc: Global,
    channel: &Channel<Board<'_, '_, '_, '_>, H>,
    index: u16,
) -> Result<String, AllocError>
    ensures { IfOk result (λ t. string_bytes t ≡ book_text index (book_of index (keeper_means channel.now.handover.sink.first).books)) }
{
    book_text(alloc, channel.sink().first(), index)
}

// The executed volume of an index.
pub(crate) fn row<H: Shelf>(
    alloc: Global,
    channel: &Channel<Board<'_, '_, '_, '_>, H>,
    index: u16,
) -> Result<String, AllocError>
    ensures { IfOk result (λ t. string_bytes t ≡ row_text index (executed_of index (meant channel.now.handover.sink.second).rows)) }
{
    let executed = channel.sink().second().executed(index);
    let line = RowLine { index, executed };
    format!(in alloc; "{line}")
}

// Where a channel stands.
pub(crate) fn show_state<H: Shelf>(
    alloc: Global,
    channel: &Channel<Board<'_, '_, '_, '_>, H>,
) -> Result<String, AllocError>
    ensures { IfOk result (λ t. string_bytes t ≡ state_text (option_map (λ _. channel.now.handover.last) channel.now.open) (used (H.Shelf.means channel.now.handover.shelf)) (keeper_means channel.now.handover.sink.first).mark (counters_of (meant channel.now.handover.sink.second))) }
{
    let board = channel.sink();
    let line = StateLine {
        last: channel.last(),
        units: channel.shelf().used(),
        mark: board.first().mark(),
        counts: board.second().counters(),
    };
    format!(in alloc; "{line}")
}
