//! The levels of a book.
use wire::Side;

/// A level: a price in billionths, the volume at it and its count of orders.
#[derive(Clone, Copy, PartialEq, Eq, Debug, Default)]
pub struct Level {
    pub price: u64,
    pub volume: u32,
    pub orders: u16,
}

/// A level that a message names, and its side.
#[derive(Clone, Copy, PartialEq, Eq, Debug)]
pub struct Point {
    pub side: Side,
    pub level: Level,
}
