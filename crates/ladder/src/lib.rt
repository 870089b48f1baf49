//! Ladders: rows of any kind that are kept in the order of their keys, in the first places of a lent table.
//!
//! Each function takes the table and how many of its rows are used. Kept as two parameters: memory is fixed, so the table is lent and its owner keeps the count;
//! a struct of a `&mut` slice and a count, made for one call, leaves the checker without the tie between its fields and what was lent.
#![tactic(auto)]

ghost use Rattle.std.specs.Prelude.{◌≡◌, ◌<◌, ◌≤◌, true, false, ◌++◌, length, take, drop, MatchResult};
ghost use Rattle.rank.specs.Rows.{Sorted, inserted, without};
ghost use Rattle.ladder.specs.Ladders.{place as place_of, far_place, halved_place, hits, flags, entered, removed, Found};
ghost use Rattle.ladder.specs.Tables.{Holds, Settled, There, Missing};
ghost use Rattle.ladder.specs.Laws.{Laws};

use rank::Rank;

// The place of a key among the rows, looked for by halves.
// Kept as a loop: `partition_point` says where the key belongs only in rows that are in order, and every lent table has its answer here.
// The proof with it stops at `result ≡ place_of ..`, and in rows out of order it does look at other rows.
#[tactic(auto, using(crate::proofs::Halves::halved_end, crate::proofs::Halves::look_up, crate::proofs::Halves::look_down, crate::proofs::Places::flag_at))]
fn halve<R: Rank>(rows: &[R::Row], key: R::Key) -> usize
    ensures within { result ≤ length rows.now }
    ensures is { result ≡ halved_place R.keyed R.before key rows.now }
{
    let mut low = 0;
    let mut high = rows.len();
    while low < high {
        let mid = low + (high - low) / 2;
        if R::precedes(R::key(&rows[mid]), key) {
            low = mid + 1;
        } else {
            high = mid;
        }
    }
    low
}

// How many rows come before a key.
// Kept as a sum over all: it has no branch. Where a change is among the best levels cannot be foretold, and a walk up to it would be guessed wrong once in each search.
fn ahead<R: Rank>(rows: &[R::Row], key: R::Key) -> usize
    ensures within { result ≤ length rows.now }
    ensures is { result ≡ hits (flags R.keyed R.before key rows.now) }
{
    let mut count = 0;
    for row in rows {
        count += usize::from(R::precedes(R::key(row), key));
    }
    count
}

// The place of a key among many rows: behind the last, where rows come in their order, or else by halves.
#[tactic(auto, using(crate::proofs::Places::last_place, crate::proofs::Places::inner_place, crate::proofs::Places::empty_place))]
fn far<R: Rank>(rows: &[R::Row], key: R::Key) -> usize
    ensures within { result ≤ length rows.now }
    ensures is { result ≡ far_place R.keyed R.before key rows.now }
{
    let count = rows.len();
    if count > 0 && R::precedes(R::key(&rows[count - 1]), key) {
        return count;
    }
    halve::<R>(rows, key)
}

// The place of a key among the rows: among the first eight, where most changes of a book are, or else far.
// Kept in this order: the last row lies in another line of memory, and is not looked at for a change near the best.
fn place<R: Rank>(rows: &[R::Row], key: R::Key) -> usize
    ensures within { result ≤ length rows.now }
    ensures is { result ≡ place_of R.keyed R.before key rows.now }
{
    if rows.len() >= 8 && !R::precedes(R::key(&rows[7]), key) {
        return ahead::<R>(&rows[..8], key);
    }
    far::<R>(rows, key)
}

// How many rows are used: no more than there are.
fn counted<T>(rows: &[T], used: usize) -> usize
    ensures within { result ≤ length rows.now }
    ensures same { take result rows.now ≡ take used rows.now }
{
    used.min(rows.len())
}

// Where the row with a key is among the rows, or else where one would be added.
#[inline(always)]
fn look<R: Rank>(rows: &[R::Row], key: R::Key) -> Result<usize, usize>
    ensures { MatchResult result (λ at. Found R.keyed R.before key rows.now true at) (λ at. Found R.keyed R.before key rows.now false at) }
{
    let at = place::<R>(rows, key);
    match rows.get(at) {
        Some(row) if !R::precedes(key, R::key(row)) => Ok(at),
        _ => Err(at),
    }
}

/// Where the row with a key is among the first `used` rows, or else where one would be added.
pub fn find<R: Rank>(rows: &[R::Row], used: usize, key: R::Key) -> Result<usize, usize>
    ensures any { MatchResult result (λ at. Found R.keyed R.before key (take used rows.now) true at) (λ at. Found R.keyed R.before key (take used rows.now) false at) }
    ensures ordered { Sorted R.keyed R.before (take used rows.now) → MatchResult result (There R.keyed R.before key (take used rows.now)) (Missing R.keyed R.before key (take used rows.now)) }
{
    look::<R>(&rows[..counted(rows, used)], key)
}

// Puts a row in the place of another.
fn replace<R: Rank>(rows: &mut [R::Row], used: usize, at: usize, row: R::Row) -> usize
    requires { Found R.keyed R.before (R.keyed row) (take used rows.old) true at }
    ensures { Holds rows.new result (entered R.keyed R.before row (take used rows.old)) }
{
    let count = counted(rows, used);
    rows[at] = row;
    count
}

// How many rows are moved where some have to be: whole eights, as far as there are so many.
// What lies behind the used rows does not matter. With the count as it is, a copy ends in a loop over the rows that are left, and how many there are cannot be foretold.
fn eights(rows: usize, most: usize) -> usize
    requires { rows ≤ most }
    ensures { (rows ≤ result) × (result ≤ most) }
{
    let whole = rows / 8 * 8;
    if most - whole < 8 { most } else { whole + 8 }
}

// Adds a row at a place, and moves those from there on one place up.
fn insert<R: Rank>(rows: &mut [R::Row], used: usize, at: usize, row: R::Row) -> Option<usize>
    requires { Found R.keyed R.before (R.keyed row) (take used rows.old) false at }
    ensures { Settled rows.old rows.new (entered R.keyed R.before row (take used rows.old)) result }
{
    let count = counted(rows, used);
    if count == rows.len() {
        return None;
    }
    let moved = eights(count - at, rows.len() - 1 - at);
    rows.copy_within(at..at + moved, at + 1);
    rows[at] = row;
    Some(count + 1)
}

/// Puts a row in the place of the one with its key among the first `used` rows, or else adds it.
/// Gives how many rows are used then, or `None`, with all as it was, where no place is free. What lies behind the used rows may change.
// Kept inline: a call would write the row into memory field by field and read it back in one, which waits for the writes.
#[inline(always)]
pub fn enter<R: Rank>(rows: &mut [R::Row], used: usize, row: R::Row) -> Option<usize>
    ensures any { Settled rows.old rows.new (entered R.keyed R.before row (take used rows.old)) result }
    ensures ordered { Sorted R.keyed R.before (take used rows.old) → Settled rows.old rows.new (inserted R.keyed R.before row (take used rows.old)) result }
{
    match find::<R>(rows, used, R::key(&row)) {
        Ok(at) => Some(replace::<R>(rows, used, at, row)),
        Err(at) => insert::<R>(rows, used, at, row),
    }
}

// Takes a row out, and moves those behind it one place down.
fn take_out<R: Rank>(rows: &mut [R::Row], used: usize, at: usize) -> usize
    requires { at < length (take used rows.old) }
    ensures { Holds rows.new result (take at (take used rows.old) ++ drop 1 (drop at (take used rows.old))) }
{
    let count = counted(rows, used);
    let moved = eights(count - (at + 1), rows.len() - (at + 1));
    rows.copy_within(at + 1..at + 1 + moved, at);
    count - 1
}

/// Takes the row with a key out of the first `used` rows, if there is one. Gives how many rows are used then. What lies behind them may change.
pub fn remove<R: Rank>(rows: &mut [R::Row], used: usize, key: R::Key) -> usize
    ensures any { Holds rows.new result (removed R.keyed R.before key (take used rows.old)) }
    ensures ordered { Sorted R.keyed R.before (take used rows.old) → Holds rows.new result (without R.keyed R.before key (take used rows.old)) }
{
    match find::<R>(rows, used, key) {
        Ok(at) => take_out::<R>(rows, used, at),
        Err(_) => counted(rows, used),
    }
}

/// What holds of a ladder in order, for any rank: a theorem.
pub fn ordered<R: Rank>()
    ensures { Laws R.keyed R.before }
{}
