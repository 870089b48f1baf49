//! One book: its row in the table, and how a message begins it.
ghost use Rattle.std.specs.Prelude.{◌≡◌, List, true, false, MatchOption};
ghost use Rattle.book_model.specs.declared.level.Level.{Level};
ghost use Rattle.book_model.specs.Entering.{taken, begun};
ghost use Rattle.books.specs.Tabled.{known};

use book_model::Start;

/// A book as it is read: whether it is whole, the number of the data that last touched it since the last loss or restart, and the counts of its levels.
#[derive(Clone, Copy, PartialEq, Eq, Debug)]
pub struct Book {
    // Kept as a flag, and 0 where no data touched: it is printed and compared as it stands, and a row of a lent table is no larger than this.
    pub whole: bool,
    pub touched: u32,
    pub buys: u16,
    pub sells: u16,
}

/// A row of a lent table of books. What it holds is read through a keeper, or through the tables that a keeper gives back:
/// the row itself may still hold a book of which nothing is known any more.
#[derive(Clone, Copy)]
pub struct BookRow {
    pub(crate) book: Book,
}

impl BookRow {
    /// A row of which nothing is known, to make tables of.
    // Kept as a constant, with no `Default` beside it: that would be a second name for it, and say less.
    pub const UNKNOWN: BookRow = BookRow {
        book: Book::UNKNOWN,
    };
}

impl Book {
    /// A book of which nothing is known.
    pub const UNKNOWN: Book = Book {
        whole: false,
        touched: 0,
        buys: 0,
        sells: 0,
    };

    // A book with no level.
    pub(crate) fn empty(whole: bool, touched: u32) -> Book
        ensures { result ≡ record { whole = whole; touched = touched; buys = 0; sells = 0 } }
    {
        Book {
            whole,
            touched,
            ..Book::UNKNOWN
        }
    }

    // The book once a level more than its side has room for is told.
    pub(crate) fn overflown(self) -> Book
        ensures { result ≡ record { whole = false; touched = self.touched; buys = 0; sells = 0 } }
    {
        Book::empty(false, self.touched)
    }

    // The book as a message begins it, or `None` where the message is not taken.
    pub(crate) fn begun(self, start: Start) -> Option<Book>
        ensures { (xs ys : List Level) → MatchOption result (taken start (known self xs ys) ≡ false) (λ b. (taken start (known self xs ys) ≡ true) × (known b xs ys ≡ begun start (known self xs ys))) }
    {
        match start {
            Start::Full(number) => Some(Book::empty(true, number)),
            Start::Delta(number) => Some(Book {
                touched: number,
                ..self
            }),
            Start::Refresh(number) => (self.touched <= number).then_some(Book::empty(
                true,
                self.touched,
            )),
        }
    }
}
