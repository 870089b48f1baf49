//! Ranks: what rows of a kind are keyed by, and which of two keys comes first; and what holds of rows in that order.
#![tactic(auto)]

ghost use Rattle.std.specs.Prelude.{◌≡◌, Bool, true};
ghost use Rattle.rank.specs.Keys.{ExactlyOne, turned};
ghost use Rattle.rank.specs.Laws.{RowLaws};

use std::marker::PhantomData;

/// A kind of rows in an order: what its rows are, the key of each row, and which of two keys comes first.
/// Of two keys exactly one of these holds: the first is before the second, they are equal, the second is before the first.
// Kept as a trait beside `Ord`: the laws of `Ord` leave keys equal that are not the same key, and by `Reverse` the two sides of a book would have keys of two types.
pub trait Rank {
    type Row: Copy;

    type Key: Copy;

    /// The key of a row.
    ghost keyed: { Self.Row → Self.Key };

    /// Whether the first of two keys comes before the second.
    ghost before: { Self.Key → Self.Key → Bool };

    fn key(row: &Self::Row) -> Self::Key
        ensures { result ≡ keyed row.now };

    fn precedes(a: Self::Key, b: Self::Key) -> bool
        ensures { result ≡ before a b };

    ghost exactly_one: { (a b : Self.Key) → ExactlyOne (before a b ≡ true) (a ≡ b) (before b a ≡ true) };

    ghost transitive: { (a b c : Self.Key) → before a b ≡ true → before b c ≡ true → before a c ≡ true };
}

/// A rank turned round: of two keys the one comes first that `R` puts second.
#[derive(Drop)]
pub struct Backwards<R> {
    rank: PhantomData<R>,
}

impl<R: Rank> Rank for Backwards<R> {
    type Row = R::Row;

    type Key = R::Key;

    ghost keyed = { R.keyed };

    ghost before = { λ a b. R.before b a };

    ghost exactly_one = { λ a b. turned (R.exactly_one a b) };

    ghost transitive = { λ a b c p q. R.transitive c b a q p };

    fn key(row: &R::Row) -> R::Key {
        R::key(row)
    }

    fn precedes(a: R::Key, b: R::Key) -> bool {
        R::precedes(b, a)
    }
}

/// What holds of rows in the order of any rank: a theorem.
pub fn ordered<R: Rank>()
    ensures { RowLaws R.keyed R.before }
{}
