//! The books as a day leaves them.
ghost use Rattle.std.specs.Prelude.{◌≡◌, true, Some};
ghost use Rattle.book_model.specs.Keepers.{book_of};
ghost use Rattle.books.specs.Keepers.{keeper_means};
ghost use Rattle.reports.specs.DayBook.{level_row, side_rows, book_rows, day_book_text, has_state, count_state};

use books::{BookKeeper, Level};
use console::Dollars;
use replies::whole_text;
use std::fmt;
use wire::Side;

// A level of a book, printed as a line.
#[derive(Clone, Copy)]
struct LevelRow {
    index: u16,
    whole: bool,
    side: Side,
    place: usize,
    level: Level,
}

impl fmt::Display for LevelRow {
    ghost output = { λ row. Some (level_row row.index row.whole row.side row.place row.level) };

    fn fmt<W: fmt::Write>(&self, f: &mut fmt::Formatter<W>) -> fmt::Result {
        let index = self.index;
        let state = whole_text(self.whole);
        let side = self.side;
        let place = self.place;
        let price = Dollars(self.level.price);
        let volume = self.level.volume;
        let orders = self.level.orders;
        writeln!(
            f,
            "{index},{state},{side},{place},{price},{volume},{orders}"
        )
    }
}

// The levels of one side of a book, printed as a line for each.
#[derive(Clone, Copy)]
struct SideRows<'a> {
    index: u16,
    whole: bool,
    side: Side,
    levels: &'a [Level],
}

impl<'a> fmt::Display for SideRows<'a> {
    ghost output = { λ rows. Some (side_rows rows.index rows.whole rows.side 1 rows.levels.now) };

    fn fmt<W: fmt::Write>(&self, f: &mut fmt::Formatter<W>) -> fmt::Result {
        let SideRows {
            index,
            whole,
            side,
            levels,
        } = *self;
        for (place, level) in levels.iter().enumerate() {
            let row = LevelRow {
                index,
                whole,
                side,
                place: place + 1,
                level: *level,
            };
            write!(f, "{row}")?;
        }
        Ok(())
    }
}

// The book of an index, printed as a line for each level, or as one line where it has none; nothing where there is no such book.
#[derive(Clone, Copy)]
struct BookRows<'k, 'a, 'b, 'c> {
    keeper: &'k BookKeeper<'a, 'b, 'c>,
    index: u16,
}

impl<'k, 'a, 'b, 'c> fmt::Display for BookRows<'k, 'a, 'b, 'c> {
    ghost output = { λ rows. Some (book_rows rows.index (book_of rows.index (keeper_means rows.keeper.now).books)) };

    fn fmt<W: fmt::Write>(&self, f: &mut fmt::Formatter<W>) -> fmt::Result {
        let index = self.index;
        let Some(book) = self.keeper.book(index) else {
            return Ok(());
        };
        let whole = book.whole;
        if book.buys == 0 && book.sells == 0 {
            let state = whole_text(whole);
            return writeln!(f, "{index},{state},,,,,");
        }
        let buys = SideRows {
            index,
            whole,
            side: Side::Buy,
            levels: self.keeper.levels(index, Side::Buy),
        };
        let sells = SideRows {
            index,
            whole,
            side: Side::Sell,
            levels: self.keeper.levels(index, Side::Sell),
        };
        write!(f, "{buys}{sells}")
    }
}

/// The books of a keeper up to an index, the lowest index first, printed as lines.
#[derive(Clone, Copy)]
pub struct DayBook<'k, 'a, 'b, 'c> {
    pub keeper: &'k BookKeeper<'a, 'b, 'c>,
    pub count: u16,
}

impl<'k, 'a, 'b, 'c> fmt::Display for DayBook<'k, 'a, 'b, 'c> {
    ghost output = { λ day. Some (day_book_text day.count (keeper_means day.keeper.now).books) };

    #[tactic(auto, using(crate::proofs::Written::nothing))]
    fn fmt<W: fmt::Write>(&self, f: &mut fmt::Formatter<W>) -> fmt::Result {
        let keeper = self.keeper;
        for index in 1..=self.count {
            let rows = BookRows { keeper, index };
            write!(f, "{rows}")?;
        }
        Ok(())
    }
}

// Whether there is a book of that index and it is whole, or is not.
fn has_state(keeper: &BookKeeper<'_, '_, '_>, index: u16, whole: bool) -> bool
    ensures { result ≡ has_state whole (book_of index (keeper_means keeper.now).books) }
{
    keeper.book(index).is_some_and(|book| book.whole == whole)
}

// How many of the books up to an index are whole, or how many are not.
#[tactic(auto, using(crate::proofs::EachMore::count_none))]
pub(crate) fn count_state(keeper: &BookKeeper<'_, '_, '_>, count: u16, whole: bool) -> u16
    ensures { result ≡ count_state whole count (keeper_means keeper.now).books }
{
    let mut found = 0;
    for index in 1..=count {
        if has_state(keeper, index, whole) {
            found += 1;
        }
    }
    found
}

/// How many of the books up to an index are whole.
pub fn count_whole(keeper: &BookKeeper<'_, '_, '_>, count: u16) -> u16
    ensures { result ≡ count_state true count (keeper_means keeper.now).books }
{
    count_state(keeper, count, true)
}
