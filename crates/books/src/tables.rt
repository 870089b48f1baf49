//! The three lent tables of a keeper: books, and the levels of the two sides of each.
ghost use Rattle.std.specs.Prelude.{◌≡◌, ◌+◌, ◌*◌, ◌<◌, ◌≤◌, true, false, length, replicate, MatchOption, MatchResult, slice_index_or};
ghost use Rattle.books.specs.Sizes.{tables_fit};
ghost use Rattle.books.specs.Tabled.{tabled, AllOrdered, AllOrdered-prop};

use crate::book::{Book, BookRow};
use crate::fault::TableFault;
use book_model::Level;
use std::ops::Range;
use wire::Side;

/// The most books of a keeper.
pub const MOST_BOOKS: usize = 1024;

/// The most levels of a side of a book.
pub const MOST_DEPTH: usize = 4096;

/// Tables whose sizes are checked: N books, and N times D levels of each side.
// Kept as three lent slices: memory is fixed, so callers own the tables and may have each where they like.
// Kept with `tables_known` in the contracts: they speak of the tables' own rows and of what is known of them in one line, and a Model would hide the rows.
#[derive(Drop)]
pub struct Tables<'a, 'b, 'c> {
    pub(crate) books: &'a mut [BookRow],
    pub(crate) buys: &'b mut [Level],
    pub(crate) sells: &'c mut [Level],
    pub(crate) depth: u16,
    pub ghost fit: { tables_fit books.now buys.now sells.now depth ≡ true },
    pub ghost ordered: { AllOrdered (tabled depth books.now buys.now sells.now) } by { AllOrdered-prop (tabled depth books.now buys.now sells.now) },
}

/// Tables that are refused: why, and the tables as they were lent.
#[derive(Drop)]
pub struct RefusedTables<'a, 'b, 'c> {
    pub fault: TableFault,
    pub books: &'a mut [BookRow],
    pub buys: &'b mut [Level],
    pub sells: &'c mut [Level],
}

// Whether tables are a keeper's at a depth.
fn fit(books: &[BookRow], buys: &[Level], sells: &[Level], depth: usize) -> bool
    ensures is { result ≡ tables_fit books.now buys.now sells.now depth }
{
    (1..=MOST_BOOKS).contains(&books.len())
        && (1..=MOST_DEPTH).contains(&depth)
        && buys.len() == books.len() * depth
        && sells.len() == books.len() * depth
}

// Has all rows of books be unknown.
pub(crate) fn clear(rows: &mut [BookRow])
    ensures { rows.new ≡ replicate (length rows.old) BookRow.UNKNOWN }
{
    rows.fill(BookRow::UNKNOWN);
}

impl<'a, 'b, 'c> Tables<'a, 'b, 'c> {
    ghost use Rattle.books.specs.Keepers.{Checked, GivenBack};
    ghost use Rattle.books.specs.Laws.{SizesWorked};

    /// The tables, where their sizes are a keeper's. What the books' rows held does not matter: nothing is known of any book.
    /// Refused tables are given back as they were lent.
    // Kept as a function of four values: a `TryFrom` takes one, and a struct of the four would be made only to be passed here.
    #[tactic(auto, using(crate::proofs::Told::blank_ordered, crate::proofs::Told::blank_known))]
    pub fn check(
        books: &'a mut [BookRow],
        buys: &'b mut [Level],
        sells: &'c mut [Level],
        depth: usize,
    ) -> Result<Tables<'a, 'b, 'c>, RefusedTables<'a, 'b, 'c>>
        ensures when { MatchResult result (λ t. (tables_fit books.old buys.old sells.old depth ≡ true) × Checked t (length books.old) depth buys.old sells.old) (λ r. (tables_fit books.old buys.old sells.old depth ≡ false) × GivenBack r books.old buys.old sells.old) }
        ensures worked { SizesWorked }
    {
        if !fit(books, buys, sells, depth) {
            return Err(RefusedTables {
                fault: TableFault::Sizes,
                books,
                buys,
                sells,
            });
        }
        clear(books);
        Ok(Tables {
            books,
            buys,
            sells,
            depth: depth as u16,
        })
    }
}

impl Tables<'_, '_, '_> {
    ghost use Rattle.book_model.specs.Entering.{levels, unknown};
    ghost use Rattle.books.specs.Keepers.{tables_known, Spot, Nowhere};

    // The place of the book with a number, if there is one: the numbers count from 1.
    // Kept as a `requires` of what takes a place: that it is one of these books' is a fact of the place and the tables together, which no field of either can hold.
    #[tactic(auto, using(crate::proofs::Rows::spot_is))]
    pub(crate) fn spot(&self, number: u16) -> Option<usize>
        ensures { MatchOption result (Nowhere (tables_known self.now) number) (λ i. Spot self.now number i) }
    {
        let i = usize::from(number).checked_sub(1)?;
        (i < self.books.len()).then_some(i)
    }

    // Where the rows of the book at a place are, in the levels of each side.
    pub(crate) fn rows(&self, i: usize) -> Range<usize>
        requires { i < length self.now.books.now }
        ensures start { result.start ≡ i * self.now.depth }
        ensures end { result.end ≡ i * self.now.depth + self.now.depth }
        ensures within { (result.end ≤ length self.now.buys.now) × (result.end ≤ length self.now.sells.now) }
    {
        let depth = usize::from(self.depth);
        i * depth..i * depth + depth
    }

    // The levels of a side of the book at a place.
    pub(crate) fn side(&self, i: usize, side: Side) -> &[Level]
        requires { i < length self.now.books.now }
        ensures { result.now ≡ levels side (slice_index_or (tables_known self.now) i unknown) }
    {
        let Book { buys, sells, .. } = self.books[i].book;
        match side {
            Side::Buy => &self.buys[self.rows(i)][..usize::from(buys.min(self.depth))],
            Side::Sell => &self.sells[self.rows(i)][..usize::from(sells.min(self.depth))],
        }
    }
}
