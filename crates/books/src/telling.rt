//! What a message with points makes of its book.
ghost use Rattle.std.specs.Prelude.{◌<◌, suc, List, length, replicate};
ghost use Rattle.book_model.specs.Entering.{limited, filled, told, points_of, unknown};
ghost use Rattle.book_model.specs.Keepers.{changed_at};
ghost use Rattle.books.specs.Keepers.{tables_known, Becomes};
ghost use Rattle.books.specs.Laying.{pending, Leaves};

use crate::book::Book;
use crate::laying::lay;
use crate::level::{change, named};
use crate::tables::{Tables, clear};
use book_model::{Buys, Point, Sells, Start};
use wire::{Points, Side};

impl Tables<'_, '_, '_> {
    // One level told to the book at a place.
    // Kept as two arms: the order of a side is a type, and the side is a value.
    // Kept with the books borrowed first: the rows of a side and their count are in order together, and are written one after the other.
    // Kept inline, as `change` is.
    #[inline(always)]
    fn put(&mut self, i: usize, point: Point)
        requires { i < length self.old.books.now }
        ensures { Becomes self.old self.new (changed_at (suc i) (limited self.old.depth point.side point.level) (tables_known self.old)) }
    {
        let rows = self.rows(i);
        let books = &mut *self.books;
        let row = &mut books[i];
        let Book { buys, sells, .. } = row.book;
        match point.side {
            Side::Buy => match change::<Buys>(&mut self.buys[rows], buys, point.level) {
                Some(used) => row.book.buys = used,
                None => row.book = row.book.overflown(),
            },
            Side::Sell => match change::<Sells>(&mut self.sells[rows], sells, point.level) {
                Some(used) => row.book.sells = used,
                None => row.book = row.book.overflown(),
            },
        }
    }

    // The points of a message, in order, while the book is whole.
    fn fill<P: wire::Point>(&mut self, i: usize, scale: u8, points: Points<'_, P>)
        requires { i < length self.old.books.now }
        ensures { Becomes self.old self.new (changed_at (suc i) (filled self.old.depth (points_of P.named scale points.entry)) (tables_known self.old)) }
    {
        for point in points {
            if !self.books[i].book.whole {
                return;
            }
            self.put(i, named(point.level(), scale));
        }
    }

    // Lays points down on a side of the book at a place, where the book is whole and the side has no level. Gives the first point that is left.
    // Kept inline, as `lay` is.
    #[inline(always)]
    fn lay_side<P: wire::Point>(
        &mut self,
        i: usize,
        side: Side,
        scale: u8,
        first: Option<P>,
        points: &mut Points<'_, P>,
    ) -> Option<P>
        requires { i < length self.old.books.now }
        ensures { Leaves self.old self.new i (points_of P.named scale (pending first points.old)) (points_of P.named scale (pending result points.new)) }
    {
        let rows = self.rows(i);
        let book = self.books[i].book;
        match side {
            Side::Buy if book.whole && book.buys == 0 => {
                let (used, next) = lay(&mut self.buys[rows], side, scale, first, points);
                self.books[i].book.buys = used as u16;
                next
            }
            Side::Sell if book.whole && book.sells == 0 => {
                let (used, next) = lay(&mut self.sells[rows], side, scale, first, points);
                self.books[i].book.sells = used as u16;
                next
            }
            _ => first,
        }
    }

    // A point that is taken out already, if there is one, told to the book at a place while that is whole.
    fn tell_first<P: wire::Point>(&mut self, i: usize, scale: u8, first: Option<P>)
        requires { i < length self.old.books.now }
        ensures { (ps : List P) → Leaves self.old self.new i (points_of P.named scale (pending first ps)) (points_of P.named scale ps) }
    {
        let Some(point) = first else {
            return;
        };
        if self.books[i].book.whole {
            self.put(i, named(point.level(), scale));
        }
    }

    // The points of a message to a book with no level: they are laid down as far as they come in the order of their side, and then told in order.
    fn lay_out<P: wire::Point>(&mut self, i: usize, scale: u8, points: Points<'_, P>)
        requires { i < length self.old.books.now }
        ensures { Becomes self.old self.new (changed_at (suc i) (filled self.old.depth (points_of P.named scale points.entry)) (tables_known self.old)) }
    {
        let mut points = points;
        let first = points.next();
        let first = self.lay_side(i, Side::Buy, scale, first, &mut points);
        let first = self.lay_side(i, Side::Sell, scale, first, &mut points);
        self.tell_first(i, scale, first);
        self.fill(i, scale, points);
    }

    // A message with points to the book with a number.
    pub(crate) fn tell<P: wire::Point>(
        &mut self,
        number: u16,
        start: Start,
        scale: u8,
        points: Points<'_, P>,
    )
        ensures { Becomes self.old self.new (changed_at number (told self.old.depth start (points_of P.named scale points.entry)) (tables_known self.old)) }
    {
        let Some(i) = self.spot(number) else {
            return;
        };
        let Some(book) = self.books[i].book.begun(start) else {
            return;
        };
        self.books[i].book = book;
        match start {
            Start::Delta(_) => self.fill(i, scale, points),
            _ => self.lay_out(i, scale, points),
        }
    }

    // Nothing is known of any book.
    #[tactic(auto, using(crate::proofs::Rows::blanked, crate::proofs::Told::blank_ordered))]
    pub(crate) fn forget(&mut self)
        ensures { Becomes self.old self.new (replicate (length (tables_known self.old)) unknown) }
    {
        clear(self.books);
    }
}
