//! Points laid down in the rows of a side that has none, one behind the other, while they come in the order of their side.
//! A full update's points mostly do, and then no place is looked for.
ghost use Rattle.std.specs.Prelude.{◌≡◌, ◌≤◌, true, [], length, take};
ghost use Rattle.rank.specs.Rows.{Sorted};
ghost use Rattle.book_model.specs.Levels.{price_of, before};
ghost use Rattle.book_model.specs.Entering.{Known, levels, with_levels, filled, points_of};
ghost use Rattle.books.specs.Laying.{behind, pending};

use crate::level::named;
use book_model::{Buys, Level, Sells};
use rank::Rank;
use wire::{Points, Side};

// Whether a price comes before another on a side.
fn precedes(side: Side, a: u64, b: u64) -> bool
    ensures { result ≡ before side a b }
{
    match side {
        Side::Buy => Buys::precedes(a, b),
        Side::Sell => Sells::precedes(a, b),
    }
}

// Whether a level goes behind all levels of a side: it has a volume, and the last of them comes before it.
fn follows(rows: &[Level], side: Side, level: Level) -> bool
    ensures { result ≡ behind side level rows.now }
{
    if level.volume == 0 {
        return false;
    }
    match rows.last() {
        Some(last) => precedes(side, last.price, level.price),
        None => true,
    }
}

// Lays points down in the rows of a side from the first row on: how many, and the first point that is left.
// Kept inline: with a side that is known there is no branch on it.
#[inline(always)]
pub(crate) fn lay<P: wire::Point>(
    rows: &mut [Level],
    side: Side,
    scale: u8,
    first: Option<P>,
    points: &mut Points<'_, P>,
) -> (usize, Option<P>)
    ensures within { result.0 ≤ length rows.new }
    ensures ordered { Sorted price_of (before side) (take result.0 rows.new) }
    ensures told { (k : Known) → k.whole ≡ true → levels side k ≡ [] → filled (length rows.old) (points_of P.named scale (pending first points.old)) k ≡ filled (length rows.old) (points_of P.named scale (pending result.1 points.new)) (with_levels side (take result.0 rows.new) k) }
{
    let mut used = 0;
    let mut next = first;
    loop {
        let Some(point) = next else {
            return (used, None);
        };
        let told = named(point.level(), scale);
        if told.side != side || used == rows.len() || !follows(&rows[..used], side, told.level) {
            return (used, Some(point));
        }
        rows[used] = told.level;
        used += 1;
        next = points.next();
    }
}
