//! The text of books and of rows.
ghost use Rattle.std.specs.Prelude.{◌≡◌, Some, IfOk, string_bytes};
ghost use Rattle.book_model.specs.Keepers.{book_of};
ghost use Rattle.books.specs.Keepers.{keeper_means};
ghost use Rattle.replies.specs.Reads.{whole_text, heading, levels_text, book_text, row_text};

use books::{Book, BookKeeper, Level};
use console::PricedLevel;
use std::alloc::{AllocError, Global};
use std::fmt;
use wire::Side;

/// Whether a book is whole, in a word: `whole` or `partial`.
pub fn whole_text(whole: bool) -> &'static str
    ensures { result.now ≡ whole_text whole }
{
    if whole { "whole" } else { "partial" }
}

// A book in one line, which is not ended.
#[derive(Clone, Copy)]
struct Heading {
    index: u16,
    book: Book,
}

impl fmt::Display for Heading {
    ghost output = { λ line. Some (heading line.index line.book) };

    fn fmt<W: fmt::Write>(&self, f: &mut fmt::Formatter<W>) -> fmt::Result {
        let index = self.index;
        let whole = whole_text(self.book.whole);
        let touched = self.book.touched;
        let buys = self.book.buys;
        let sells = self.book.sells;
        write!(
            f,
            "book {index} {whole} touched={touched} buys={buys} sells={sells}"
        )
    }
}

// The levels of a side, printed a line for each.
#[derive(Clone, Copy)]
struct SideLines<'a> {
    side: Side,
    levels: &'a [Level],
}

impl<'a> fmt::Display for SideLines<'a> {
    ghost output = { λ lines. Some (levels_text lines.side lines.levels.now) };

    fn fmt<W: fmt::Write>(&self, f: &mut fmt::Formatter<W>) -> fmt::Result {
        let SideLines { side, levels } = *self;
        for level in levels {
            let line = PricedLevel {
                side,
                price: level.price,
                volume: level.volume,
                orders: level.orders,
            };
            writeln!(f, "{line}")?;
        }
        Ok(())
    }
}

// Kept as a function: there may be no such book, and what it joins prints itself.
/// The book of an index with its levels, buys first and the best first, a line for each; or that there is none.
pub fn book_text(
    alloc: Global,
    keeper: &BookKeeper<'_, '_, '_>,
    index: u16,
) -> Result<String, AllocError>
    ensures { IfOk result (λ t. string_bytes t ≡ book_text index (book_of index (keeper_means keeper.now).books)) }
{
    let Some(book) = keeper.book(index) else {
        return Ok(format!(in alloc; "book {index} none\n")?);
    };
    let heading = Heading { index, book };
    let buys = SideLines {
        side: Side::Buy,
        levels: keeper.levels(index, Side::Buy),
    };
    let sells = SideLines {
        side: Side::Sell,
        levels: keeper.levels(index, Side::Sell),
    };
    format!(in alloc; "{heading}\n{buys}{sells}")
}

/// The executed volume of an index, printed in a line that is ended; or that it has no row.
#[derive(Clone, Copy)]
pub struct RowLine {
    pub index: u16,
    pub executed: Option<u64>,
}

impl fmt::Display for RowLine {
    ghost output = { λ line. Some (row_text line.index line.executed) };

    fn fmt<W: fmt::Write>(&self, f: &mut fmt::Formatter<W>) -> fmt::Result {
        let index = self.index;
        match self.executed {
            Some(executed) => writeln!(f, "row {index} executed={executed}"),
            None => writeln!(f, "row {index} none"),
        }
    }
}
