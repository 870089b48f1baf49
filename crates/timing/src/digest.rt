//! Digests of books and of a tally, to hold two programs' results against each other.
use books::{Level, Tables};
use tally::Tally;
use wire::Side;

const BASIS: u64 = 0xcbf2_9ce4_8422_2325;

const PRIME: u64 = 0x0000_0100_0000_01b3;

// FNV-1a with 64 bits.
#[derive(Clone, Copy)]
struct Digest(u64);

impl Digest {
    fn add(&mut self, bytes: &[u8]) {
        for byte in bytes {
            self.0 = (self.0 ^ u64::from(*byte)).wrapping_mul(PRIME);
        }
    }

    fn add_side(&mut self, count: u16, levels: &[Level]) {
        self.add(&count.to_be_bytes());
        for level in levels {
            self.add(&level.price.to_be_bytes());
            self.add(&level.volume.to_be_bytes());
            self.add(&level.orders.to_be_bytes());
        }
    }
}

/// Of each book: whether it is whole, and the levels of buys and sells with their count in front.
pub fn of_books(tables: &Tables<'_, '_, '_>, count: u16) -> u64 {
    let mut digest = Digest(BASIS);
    for index in 1..=count {
        if let Some(book) = tables.book(index) {
            digest.add(&[u8::from(book.whole)]);
            digest.add_side(book.buys, tables.levels(index, Side::Buy));
            digest.add_side(book.sells, tables.levels(index, Side::Sell));
        }
    }
    digest.0
}

/// Of each row: its index and volume; then the two counts.
pub fn of_tally(tally: &Tally<'_>) -> u64 {
    let mut digest = Digest(BASIS);
    for index in 0..=u16::MAX {
        if let Some(executed) = tally.executed(index) {
            digest.add(&index.to_be_bytes());
            digest.add(&executed.to_be_bytes());
        }
    }
    let counters = tally.counters();
    digest.add(&counters.missed.to_be_bytes());
    digest.add(&counters.losses.to_be_bytes());
    digest.0
}
