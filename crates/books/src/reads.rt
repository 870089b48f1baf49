//! What is read of the books in tables, and of a keeper's. A read changes nothing.
ghost use Rattle.std.specs.Prelude.{◌≡◌};
ghost use Rattle.std.specs.List.{slice_get};
ghost use Rattle.rank.specs.Rows.{Sorted};
ghost use Rattle.book_model.specs.Keepers.{book_of};
ghost use Rattle.book_model.specs.Levels.{price_of, before};
ghost use Rattle.books.specs.Keepers.{keeper_means, tables_known, shown, levels_shown};

use crate::book::Book;
use crate::keeper::BookKeeper;
use crate::tables::Tables;
use book_model::Level;
use wire::Side;

impl Tables<'_, '_, '_> {
    /// The book of an index, if there is one.
    pub fn book(&self, index: u16) -> Option<Book>
        ensures { result ≡ shown (book_of index (tables_known self.now)) }
    {
        let i = self.spot(index)?;
        let book = self.books[i].book;
        Some(Book {
            buys: book.buys.min(self.depth),
            sells: book.sells.min(self.depth),
            ..book
        })
    }

    /// The levels of one side of the book of an index, the best first; none where there is no book.
    pub fn levels(&self, index: u16, side: Side) -> &[Level]
        ensures is { result.now ≡ levels_shown side (book_of index (tables_known self.now)) }
        ensures best_first { Sorted price_of (before side) result.now }
    {
        match self.spot(index) {
            Some(i) => self.side(i, side),
            None => &[],
        }
    }
}

impl BookKeeper<'_, '_, '_> {
    /// The loss mark.
    pub fn mark(&self) -> u32
        ensures { result ≡ (keeper_means self.now).mark }
    {
        self.mark
    }

    /// The book of an index, if there is one.
    pub fn book(&self, index: u16) -> Option<Book>
        ensures { result ≡ shown (book_of index (keeper_means self.now).books) }
    {
        let book = self.tables.book(index)?;
        Some(if self.stale { Book::UNKNOWN } else { book })
    }

    /// The levels of one side of the book of an index, the best first; none where there is no book.
    pub fn levels(&self, index: u16, side: Side) -> &[Level]
        ensures is { result.now ≡ levels_shown side (book_of index (keeper_means self.now).books) }
        ensures best_first { Sorted price_of (before side) result.now }
    {
        if self.stale {
            return &[];
        }
        self.tables.levels(index, side)
    }

    /// The level of a side at a place of the book of an index, if there is one. Places count from 0, the best.
    pub fn level(&self, index: u16, side: Side, place: usize) -> Option<Level>
        ensures { result ≡ slice_get (levels_shown side (book_of index (keeper_means self.now).books)) place }
    {
        self.levels(index, side).get(place).copied()
    }
}
