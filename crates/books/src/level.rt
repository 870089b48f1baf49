//! The levels of one side of a book, as a ladder.
ghost use Rattle.std.specs.Prelude.{◌≡◌, ◌<◌, length, take, MatchOption};
ghost use Rattle.rank.specs.Rows.{Sorted};
ghost use Rattle.ladder.specs.Tables.{Holds};
ghost use Rattle.book_model.specs.Levels.{changed, named as named_at};

use book_model::{Level, Point};
use rank::Rank;
use wire::PricePoint;

// The level of a packet's point, its price in billionths.
// Kept as a function of two values: a `From` takes one, and the scale is the message's.
pub(crate) fn named(point: PricePoint, scale: u8) -> Point
    ensures { result ≡ named_at scale point }
{
    let level = Level {
        price: point.price(scale),
        volume: point.volume,
        orders: point.orders,
    };
    Point {
        side: point.side,
        level,
    }
}

// One level told to a side, of whose rows `used` are used: a level of volume 0 is removed, and another is entered.
// Gives how many are used then, or `None` where none is free.
// Kept with the rows and their count as two parameters, as the ladder takes them.
// Kept inline, as `enter` is.
#[inline(always)]
pub(crate) fn change<R: Rank<Row = Level, Key = u64>>(
    rows: &mut [Level],
    used: u16,
    level: Level,
) -> Option<u16>
    requires room { length rows.old < 65536 }
    requires ordered { Sorted R.Rank.keyed R.Rank.before (take used rows.old) }
    ensures { MatchOption result (length rows.old < length (changed R.Rank.keyed R.Rank.before level (take used rows.old))) (λ n. Holds rows.new n (changed R.Rank.keyed R.Rank.before level (take used rows.old))) }
{
    let used = usize::from(used);
    let count = if level.volume == 0 {
        ladder::remove::<R>(rows, used, R::key(&level))
    } else {
        ladder::enter::<R>(rows, used, level)?
    };
    Some(count as u16)
}
