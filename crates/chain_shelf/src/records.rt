//! Records and chains of records.
ghost use Rattle.std.specs.Prelude.{◌≡◌, ℕ, ◌+◌, ◌-◌, ◌*◌, ◌/◌, ◌%◌, ◌<◌, ◌≤◌, ◌⊎◌, ◌≢◌, length, MatchOption};
ghost use Rattle.chain_shelf.specs.declared.region.TheConstants.{RECORD};
ghost use Rattle.chain_shelf.specs.Records.{mem, records, word, link, number, cut, span, walk, gather, cnt, Apart, Inside, last};

use crate::region::RECORD;

// Kept as a number: that an index is one of the region's records is asked of each call, and not a fact of a type: an index is a number that was read from these very bytes, and they change beneath it.

/// The record that heads the chains.
pub(crate) const HEAD: u16 = 0;

/// The link that ends a chain. It is the head's number, so no chain leads back there.
pub(crate) const END: u16 = 0;

/// Where a record has the link to the next one of its chain; record 0, to the first free record.
pub(crate) const LINK: usize = 0;

/// Where a packet's first record has the link to the next packet's; record 0, to the first packet's.
pub(crate) const NEXT: usize = 2;

/// Where a packet's first record has the packet's number, in four bytes.
pub(crate) const NUMBER: usize = 4;

/// Where a packet's first record has the packet's length.
pub(crate) const SIZE: usize = 8;

/// Where a packet's first record has its part of the packet.
pub(crate) const BODY: usize = 10;

/// Where a later record has its part of the packet.
pub(crate) const MORE: usize = 2;

/// Where record 0 has the last packet's first record.
pub(crate) const LAST: usize = 4;

/// Where record 0 has the count of records in use.
pub(crate) const USED: usize = 6;

// Kept as an index and an offset, not as one value of both: each call names a record and one of the fields above, and no value of both would live longer than the call.
// Kept with the bound of an offset asked of a call: it is a constant wherever it is written, so the check finds its bound by itself.

/// The number in two bytes of a record, the low one first.
pub(crate) fn read(bytes: &[u8], index: u16, offset: usize) -> u16
    requires { (offset + 2 ≤ RECORD) × (index < records bytes.now) }
    ensures { result ≡ word (mem bytes.now) index offset }
{
    let at = RECORD * usize::from(index) + offset;
    u16::from_le_bytes([bytes[at], bytes[at + 1]])
}

/// The record that a link leads to, or `None` where the link is 0, which ends a chain.
pub(crate) fn link_at(bytes: &[u8], index: u16, offset: usize) -> Option<u16>
    requires { (offset + 2 ≤ RECORD) × (index < records bytes.now) }
    ensures { MatchOption result (word (mem bytes.now) index offset ≡ 0) (λ at. (at ≡ word (mem bytes.now) index offset) × (at ≢ 0)) }
{
    match read(bytes, index, offset) {
        END => None,
        at => Some(at),
    }
}

/// Writes two bytes of a record, the low one first.
pub(crate) fn write(bytes: &mut [u8], index: u16, offset: usize, value: u16)
    requires { (offset + 2 ≤ RECORD) × (index < records bytes.old) }
    ensures there { word (mem bytes.new) index offset ≡ value }
    ensures others { (s q : ℕ) → q < RECORD → (s ≡ index → offset ≤ q → q ≤ offset + 1 → ⊥) → mem bytes.new s q ≡ mem bytes.old s q }
{
    lay_in(bytes, index, offset, &value.to_le_bytes());
}

/// Writes bytes into a record.
pub(crate) fn lay_in(bytes: &mut [u8], index: u16, offset: usize, part: &[u8])
    requires { (offset + length part.now ≤ RECORD) × (index < records bytes.old) }
    ensures there { cut (mem bytes.new) index offset (length part.now) ≡ part.now }
    ensures others { (s q : ℕ) → q < RECORD → (s ≡ index → offset ≤ q → q < offset + length part.now → ⊥) → mem bytes.new s q ≡ mem bytes.old s q }
{
    let at = RECORD * usize::from(index) + offset;
    bytes[at..at + part.len()].copy_from_slice(part);
}

/// Writes bytes through a chain of records, and says which record is the last.
pub(crate) fn fill(bytes: &mut [u8], index: u16, offset: usize, part: &[u8]) -> u16
    requires low { MORE ≤ offset }
    requires high { offset < RECORD }
    requires at { index < records bytes.old }
    requires apart { Apart (walk (link (mem bytes.old)) (span offset (length part.now)) index) }
    requires inside { Inside (records bytes.old) (walk (link (mem bytes.old)) (span offset (length part.now)) index) }
    ensures laid { gather (mem bytes.new) (span offset (length part.now)) index offset (length part.now) ≡ part.now }
    ensures last { result ≡ last index (walk (link (mem bytes.old)) (span offset (length part.now)) index) }
    ensures within { result < records bytes.old }
    ensures others { (s q : ℕ) → q < RECORD → (0 < cnt s (walk (link (mem bytes.old)) (span offset (length part.now)) index) → (q < MORE) ⊎ ((s ≡ index) × (q < offset))) → mem bytes.new s q ≡ mem bytes.old s q }
{
    let room = RECORD - offset;
    if part.len() <= room {
        lay_in(bytes, index, offset, part);
        return index;
    }
    lay_in(bytes, index, offset, &part[..room]);
    // Kept as a number, not an Option, here and in `copy`: the chain leads on.
    let after = read(bytes, index, LINK);
    fill(bytes, after, MORE, &part[room..])
}

/// Reads a packet through its chain of records, and says which record is the last.
pub(crate) fn copy(bytes: &[u8], index: u16, offset: usize, buffer: &mut [u8]) -> u16
    requires low { MORE ≤ offset }
    requires high { offset < RECORD }
    requires at { index < records bytes.now }
    requires inside { Inside (records bytes.now) (walk (link (mem bytes.now)) (span offset (length buffer.old)) index) }
    ensures laid { buffer.new ≡ gather (mem bytes.now) (span offset (length buffer.old)) index offset (length buffer.old) }
    ensures last { result ≡ last index (walk (link (mem bytes.now)) (span offset (length buffer.old)) index) }
{
    let room = RECORD - offset;
    let from = RECORD * usize::from(index) + offset;
    if buffer.len() <= room {
        buffer.copy_from_slice(&bytes[from..from + buffer.len()]);
        return index;
    }
    buffer[..room].copy_from_slice(&bytes[from..from + room]);
    let after = read(bytes, index, LINK);
    copy(bytes, after, MORE, &mut buffer[room..])
}

/// The number of the packet whose first record is given.
// Kept beside `read`: `from_le_bytes` is a function of each number's own type, and one of both would need a trait of numbers.
pub(crate) fn number_at(bytes: &[u8], index: u16) -> u32
    requires { index < records bytes.now }
    ensures { result ≡ number (mem bytes.now) index }
{
    let at = RECORD * usize::from(index) + NUMBER;
    u32::from_le_bytes([bytes[at], bytes[at + 1], bytes[at + 2], bytes[at + 3]])
}
