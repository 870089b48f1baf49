//! The orders of a book's two sides.
ghost use Rattle.std.specs.Prelude.{nat_lt};
ghost use Rattle.rank.proofs.Numbers.{rising_one, rising_transitive};

use crate::level::Level;
use rank::{Backwards, Rank};

/// The rank of levels by price: the lower price comes first.
// Kept beside the tally's rank of rows by index: it reads another field of another row, as another kind of number.
#[derive(Drop)]
pub struct ByPrice;

/// The rank of sell levels: the lower price comes first.
pub type Sells = ByPrice;

/// The rank of buy levels: the higher price comes first.
pub type Buys = Backwards<ByPrice>;

impl Rank for ByPrice {
    type Row = Level;

    type Key = u64;

    ghost keyed = { λ l. l.price };

    ghost before = { λ a b. nat_lt a b };

    ghost exactly_one = { rising_one };

    ghost transitive = { rising_transitive };

    fn key(row: &Level) -> u64 {
        row.price
    }

    fn precedes(a: u64, b: u64) -> bool {
        a < b
    }
}
