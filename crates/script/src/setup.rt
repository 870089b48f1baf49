//! What a setup asks for.

/// The shelf that keeps early packets.
#[derive(Clone, Copy, PartialEq, Eq, Debug)]
pub enum ShelfKind {
    /// Sixteen slots.
    Slots,
    /// A chain of that many records.
    Chain { records: u32 },
}

/// The shelf and the sizes of a channel that is set up.
#[derive(Clone, Copy, PartialEq, Eq, Debug)]
pub struct Setup {
    pub shelf: ShelfKind,
    /// The least limit of the quotas on the shelf; the largest number where there is none.
    // Kept as a number, not an Option: a quota of the largest number is the shelf itself.
    pub limit: u32,
    pub books: u32,
    /// The levels of a side of a book.
    pub depth: u32,
    /// The rows of the tally.
    pub rows: u32,
}
