//! How a message begins its book.

/// How a message with points begins its book, and the message's number.
#[derive(Clone, Copy, PartialEq, Eq, Debug)]
pub enum Start {
    /// The book is emptied, whole, and touched at the number.
    Full(u32),
    /// The book stays as it is, and is touched at the number.
    Delta(u32),
    /// The book is emptied and whole, unless it was touched after the number.
    Refresh(u32),
}
