//! A shelf in a given region of memory: records of 64 bytes, linked in chains.
//!
//! A packet takes as many records as its bytes need, and goes by its first one. Numbers have the low byte first, and a link of 0 ends a chain.
//!
//! | Record | Bytes |
//! |---|---|
//! | record 0 | 0-1 the first free record, 2-3 the first packet, 4-5 the last packet, 6-7 how many records are in use |
//! | a packet's first | 0-1 its next record, 2-3 the next packet, 4-7 its number, 8-9 its length, 10-63 up to 54 of its bytes |
//! | a packet's later | 0-1 its next record, 2-63 up to 62 of its bytes |
//! | a free one | 0-1 the next free record |
//!
//! Numbers rise from packet to packet. So the least number held is at the front, and a number above the last packet's is known to be absent.
//! Any other is looked for from the place of the last walk, or from the front where that place is above it.
// Kept as records of bytes that name one another by number, not as boxes: a shelf takes no memory but the region that it is given.
// Kept as a number, not an Option, where a link is moved to another record, or is known to lead on: it is written as it was read, the mark of the end too.
#![tactic(auto)]

mod chain_shelf;
mod packets;
mod records;
mod region;

pub use chain_shelf::ChainShelf;
pub use packets::price_of;
pub use region::{MOST_RECORDS, RECORD, Region, RegionFault, region_sizes};
