//! Packets in the chains: laid in, taken out.
ghost use Rattle.std.specs.Prelude.{◌≡◌, ℕ, ◌+◌, ◌-◌, ◌/◌, ◌%◌, ◌<◌, ◌≤◌, ◌⊎◌, [], length, if◌then◌else◌};
ghost use Rattle.common.specs.declared.TheConstants.{LONGEST};
ghost use Rattle.chain_shelf.specs.declared.region.TheConstants.{RECORD};
ghost use Rattle.chain_shelf.specs.declared.records.TheConstants.{NEXT, BODY};
ghost use Rattle.chain_shelf.specs.Records.{mem, records, link, next, number as number_of, size as size_of, tail, in_use, span, walk, cnt, Apart, Inside};
ghost use Rattle.common.specs.Lengths.{right};
ghost use Rattle.chain_shelf.specs.Chain.{held, end, PriceLaw, PricesWorked, Whole, Kept, Before, LaidIn, TakenOut};

use crate::records::{
    BODY, END, HEAD, LAST, LINK, MORE, NEXT, NUMBER, SIZE, USED, fill, lay_in, link_at, read, write,
};
use crate::region::RECORD;
use shelf::is_length;

/// The bytes of a packet in its first record.
const FIRST_ROOM: usize = RECORD - BODY;

/// The bytes of a packet in each later record.
const ROOM: usize = RECORD - MORE;

/// Writes what a packet's first record has before its bytes, but for the link.
fn head(bytes: &mut [u8], index: u16, after: u16, number: u32, size: u16)
    requires { index < records bytes.old }
    ensures after { next (mem bytes.new) index ≡ after }
    ensures number { number_of (mem bytes.new) index ≡ number }
    ensures size { size_of (mem bytes.new) index ≡ size }
    ensures others { (s q : ℕ) → q < RECORD → (s ≡ index → (q < NEXT) ⊎ (BODY ≤ q)) → mem bytes.new s q ≡ mem bytes.old s q }
{
    write(bytes, index, NEXT, after);
    lay_in(bytes, index, NUMBER, &number.to_le_bytes());
    write(bytes, index, SIZE, size);
}

/// Writes what record 0 has, but for the link to the first packet.
fn lead(bytes: &mut [u8], free: u16, last: u16, used: u16)
    requires { 0 < records bytes.old }
    ensures free { link (mem bytes.new) 0 ≡ free }
    ensures last { tail (mem bytes.new) ≡ last }
    ensures used { in_use (mem bytes.new) ≡ used }
    ensures others { (s q : ℕ) → q < RECORD → (s ≡ 0 → (NEXT ≤ q) × (q < NEXT + 2)) → mem bytes.new s q ≡ mem bytes.old s q }
{
    write(bytes, HEAD, LINK, free);
    write(bytes, HEAD, LAST, last);
    write(bytes, HEAD, USED, used);
}

/// The last packet's first record, once what is behind the packet at `at` is behind the one at `first`: that is `first` where nothing is.
fn end_of(bytes: &[u8], at: u16, first: u16) -> u16
    requires { at < records bytes.now }
    ensures { result ≡ end (next (mem bytes.now) at) first (tail (mem bytes.now)) }
{
    match link_at(bytes, at, NEXT) {
        None => first,
        Some(_) => read(bytes, HEAD, LAST),
    }
}

// Kept as numbers, here and below: each link is written on as it was read, or is known to lead on.
/// Lays a packet into the first free records, behind the packet whose first record is `prev`.
pub(crate) fn lay_packet(bytes: &mut [u8], prev: u16, number: u32, packet: &[u8])
    requires prev { prev < records bytes.old }
    requires size { length packet.now ≤ LONGEST }
    requires few { in_use (mem bytes.old) + span BODY (length packet.now) < 65536 }
    requires apart { Apart (walk (link (mem bytes.old)) (span BODY (length packet.now)) (link (mem bytes.old) 0)) }
    requires inside { Inside (records bytes.old) (walk (link (mem bytes.old)) (span BODY (length packet.now)) (link (mem bytes.old) 0)) }
    requires out { cnt prev (walk (link (mem bytes.old)) (span BODY (length packet.now)) (link (mem bytes.old) 0)) ≡ 0 }
    ensures { LaidIn (mem bytes.old) (mem bytes.new) prev number packet.now }
{
    let first = read(bytes, HEAD, LINK);
    let after = read(bytes, prev, NEXT);
    let last = end_of(bytes, prev, first);
    let used = read(bytes, HEAD, USED) + span_of(packet.len());
    head(bytes, first, after, number, packet.len() as u16);
    let stop = fill(bytes, first, BODY, packet);
    let free = read(bytes, stop, LINK);
    write(bytes, stop, LINK, END);
    lead(bytes, free, last, used);
    write(bytes, prev, NEXT, first);
}

/// Takes the packet at `first` out of the chain, behind the one at `prev`, and frees its records, up to the one at `stop`.
pub(crate) fn unlink(bytes: &mut [u8], prev: u16, first: u16, stop: u16)
    requires prev { prev < records bytes.old }
    requires first { first < records bytes.old }
    requires stop { stop < records bytes.old }
    requires some { 0 < stop }
    requires size { size_of (mem bytes.old) first ≤ LONGEST }
    requires used { span BODY (size_of (mem bytes.old) first) ≤ in_use (mem bytes.old) }
    ensures { TakenOut (mem bytes.old) (mem bytes.new) prev first stop }
{
    let after = read(bytes, first, NEXT);
    let last = end_of(bytes, first, prev);
    let used = read(bytes, HEAD, USED) - span_of(usize::from(read(bytes, first, SIZE)));
    let free = read(bytes, HEAD, LINK);
    write(bytes, prev, NEXT, after);
    write(bytes, stop, LINK, free);
    lead(bytes, first, last, used);
}

/// The records that a packet of a length takes.
fn span_of(length: usize) -> u16
    requires { length ≤ LONGEST }
    ensures { result ≡ span BODY length }
{
    if length <= FIRST_ROOM {
        return 1;
    }
    1 + (length - FIRST_ROOM).div_ceil(ROOM) as u16
}

/// The price of a length: the records that such a packet takes, or 0 where there is no such packet.
// Kept as a number, not an Option: it is the price as the trait has it.
pub fn price_of(length: usize) -> u32
    ensures is { result ≡ (if right length then span BODY length else 0) }
    ensures least { PriceLaw }
    ensures worked { PricesWorked }
{
    if !is_length(length) {
        return 0;
    }
    u32::from(span_of(length))
}

/// Frees every record, in order.
pub(crate) fn free_all(bytes: &mut [u8])
    requires { Whole bytes.old }
    ensures kept { Kept bytes.new }
    ensures held { held bytes.new ≡ [] }
    ensures start { Before bytes.new 0 0 }
{
    let count = (bytes.len() / RECORD) as u16;
    for r in 1..count - 1 {
        write(bytes, r, LINK, r + 1);
    }
    write(bytes, count - 1, LINK, END);
    write(bytes, HEAD, NEXT, END);
    lead(bytes, 1, END, 0);
}
