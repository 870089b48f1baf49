//! The shelf.
ghost use Rattle.std.specs.Prelude.{◌≡◌, ◌+◌, ◌-◌, ◌*◌, ◌/◌, ◌≤◌, true, false, length, vec_len, Some, None, Ok, OnErr};
ghost use Rattle.shelf.specs.Store.{has, insert, remove, lookup, above, length_of, written, put_answer, put_after, take_answer, take_buffer, take_after};
ghost use Rattle.common.specs.Lengths.{right};
ghost use Rattle.chain_shelf.specs.declared.region.TheConstants.{RECORD};
ghost use Rattle.chain_shelf.specs.Records.{records, span};
ghost use Rattle.chain_shelf.specs.Chain.{Kept, Before, held, spent, store, fresh};
ghost use Rattle.chain_shelf.specs.Sounds.{store_lawful};

use crate::packets::{free_all, lay_packet, price_of, unlink};
use crate::records::{BODY, HEAD, LAST, NEXT, SIZE, USED, copy, link_at, number_at, read};
use crate::region::{RECORD, Region};
use shelf::{LONGEST, PutFault, Shelf, TakeFault, is_length};

// The place of a number: the first record of the last packet whose number is below it, or the head.
#[derive(Clone, Copy)]
struct Near {
    number: u64,
    prev: u16,
}

// No number is below 0.
const START: Near = Near {
    number: 0,
    prev: HEAD,
};

/// A shelf in a region: the records of each packet and the free records are chains.
// Kept with `held` in the contracts: they speak of records beside the packets that they hold, and the trait of shelves names the meaning.
#[derive(Drop)]
pub struct ChainShelf {
    region: Vec<u8>,
    // The place of the last walk, and of nothing in the region's bytes: what a shelf means does not speak of it.
    near: Near,
    ghost kept: { Kept region.items },
    ghost placed: { Before region.items near.number near.prev },
}

impl ChainShelf {
    /// An empty shelf in a region.
    // Kept as a constructor, not a `From`: what lay in the region is lost.
    pub fn new(region: Region) -> ChainShelf
        ensures { store result.region.items ≡ fresh (vec_len region.bytes) }
    {
        let mut region = Vec::from(region);
        free_all(&mut region[..]);
        ChainShelf {
            region,
            near: START,
        }
    }

    // The first record of the last packet whose number is below the given one, or the head: a walk from the place of a number that is not above it.
    // Kept as a loop: tried with `successors` and `take_while`, the proof stops at what `last` requires, that each step finds a record of the region and that the chain ends.
    fn walk_from(&self, near: Near, number: u64) -> u16
        requires placed { Before self.now.region.items near.number near.prev }
        requires low { near.number ≤ number }
        ensures { Before self.now.region.items number result }
    {
        let bytes = &self.region[..];
        let mut prev = near.prev;
        while let Some(at) = link_at(bytes, prev, NEXT) {
            if u64::from(number_at(bytes, at)) >= number {
                break;
            }
            prev = at;
        }
        prev
    }

    // The same, with no walk where the number is above every number held, and else from the place of the last walk, or the head.
    fn seek(&self, number: u64) -> u16
        ensures { Before self.now.region.items number result }
    {
        let bytes = &self.region[..];
        match link_at(bytes, HEAD, LAST) {
            Some(last) if u64::from(number_at(bytes, last)) < number => last,
            _ if self.near.number <= number => self.walk_from(self.near, number),
            _ => self.walk_from(START, number),
        }
    }

    // The same, noted as the place of the last walk. The end of the chain is found without a walk, and is noted only where what was noted is above the number.
    fn seek_and_note(&mut self, number: u64) -> u16
        ensures place { Before self.old.region.items number result }
        ensures region { self.new.region ≡ self.old.region }
        ensures low { self.new.near.number ≤ number }
    {
        let prev = self.seek(number);
        let walked = link_at(&self.region[..], prev, NEXT).is_some();
        if walked || self.near.number > number {
            self.near = Near { number, prev };
        }
        prev
    }

    // Kept as a number: that `prev` comes before a number is asked of the four functions below, and not a fact of a type: such a value would hold the bytes lent, and put and take write them.

    // Whether the packet behind the one at `prev` has the number.
    fn stands_behind(&self, prev: u16, number: u32) -> bool
        requires { Before self.now.region.items number prev }
        ensures { result ≡ has (held self.now.region.items) number }
    {
        let bytes = &self.region[..];
        match link_at(bytes, prev, NEXT) {
            Some(at) => number_at(bytes, at) == number,
            None => false,
        }
    }

    // The number of the packet behind the one at `prev`: the least above the given number.
    fn number_behind(&self, prev: u16, number: u32) -> Option<u32>
        requires { Before self.now.region.items (number + 1) prev }
        ensures { result ≡ above (held self.now.region.items) number }
    {
        let bytes = &self.region[..];
        let at = link_at(bytes, prev, NEXT)?;
        Some(number_at(bytes, at))
    }

    // Keeps a packet behind the one at `prev`.
    fn put_behind(&mut self, prev: u16, number: u32, packet: &[u8])
        requires prev { Before self.old.region.items number prev }
        requires proper { right (length packet.now) ≡ true }
        requires absent { has (held self.old.region.items) number ≡ false }
        requires room { spent self.old.region.items + span BODY (length packet.now) ≤ records self.old.region.items - 1 }
        requires low { self.old.near.number ≤ number }
        ensures held { held self.new.region.items ≡ insert number packet.now (held self.old.region.items) }
        ensures size { length self.new.region.items ≡ length self.old.region.items }
    {
        lay_packet(&mut self.region[..], prev, number, packet);
    }

    // Moves the packet behind the one at `prev` to the front of the buffer, and answers its length.
    fn take_behind(&mut self, prev: u16, number: u32, buffer: &mut [u8]) -> usize
        requires prev { Before self.old.region.items number prev }
        requires long { LONGEST ≤ length buffer.old }
        requires present { has (held self.old.region.items) number ≡ true }
        requires low { self.old.near.number ≤ number }
        ensures held { held self.new.region.items ≡ remove number (held self.old.region.items) }
        ensures count { length self.new.region.items ≡ length self.old.region.items }
        ensures size { Some result ≡ length_of (lookup (held self.old.region.items) number) }
        ensures buffer { buffer.new ≡ written (lookup (held self.old.region.items) number) buffer.old }
    {
        let bytes = &mut self.region[..];
        let first = read(bytes, prev, NEXT);
        let size = usize::from(read(bytes, first, SIZE));
        let stop = copy(bytes, first, BODY, &mut buffer[..size]);
        unlink(bytes, prev, first, stop);
        size
    }
}

/// The memory, given back.
impl From<ChainShelf> for Vec<u8> {
    ghost from_gives = { λ shelf bytes. (bytes ≡ shelf.region) × (vec_len bytes ≡ RECORD * ((store shelf.region.items).total + 1)) };

    fn from(shelf: ChainShelf) -> Vec<u8> {
        let ChainShelf { region, .. } = shelf;
        region
    }
}

impl Shelf for ChainShelf {
    ghost means = { λ s. store s.region.items };

    ghost lawful = { λ s. store_lawful s.region.items s.kept };

    // Beside what the trait says, here and at `take`: what is not put or taken leaves the region as it was. Only the place may move.
    fn put(&mut self, number: u32, packet: &[u8]) -> Result<(), PutFault>
        ensures answer { result ≡ put_answer (store self.old.region.items) number packet.now }
        ensures after { store self.new.region.items ≡ put_after (store self.old.region.items) number packet.now }
        ensures refused { OnErr result (self.new.region ≡ self.old.region) }
    {
        if !is_length(packet.len()) {
            return Err(PutFault::Length);
        }
        let prev = self.seek_and_note(u64::from(number));
        if self.stands_behind(prev, number) {
            return Err(PutFault::Held);
        }
        let cost = price_of(packet.len());
        if self.used() as usize + cost as usize > self.region.len() / RECORD - 1 {
            return Err(PutFault::Full);
        }
        self.put_behind(prev, number, packet);
        Ok(())
    }

    fn take(&mut self, number: u32, buffer: &mut [u8]) -> Result<Option<usize>, TakeFault>
        ensures answer { result ≡ take_answer (store self.old.region.items) number buffer.old }
        ensures buffer { buffer.new ≡ take_buffer (store self.old.region.items) number buffer.old }
        ensures after { store self.new.region.items ≡ take_after (store self.old.region.items) number buffer.old }
        ensures refused { OnErr result (self.new.region ≡ self.old.region) }
        ensures absent { result ≡ Ok None → self.new.region ≡ self.old.region }
    {
        if buffer.len() < LONGEST {
            return Err(TakeFault::Short);
        }
        let prev = self.seek_and_note(u64::from(number));
        if !self.stands_behind(prev, number) {
            return Ok(None);
        }
        Ok(Some(self.take_behind(prev, number, buffer)))
    }

    fn holds(&self, number: u32) -> bool {
        let prev = self.seek(u64::from(number));
        self.stands_behind(prev, number)
    }

    fn least_above(&self, number: u32) -> Option<u32> {
        let prev = self.seek(u64::from(number) + 1);
        self.number_behind(prev, number)
    }

    fn price(&self, length: usize) -> u32 {
        price_of(length)
    }

    fn used(&self) -> u32 {
        u32::from(read(&self.region[..], HEAD, USED))
    }

    fn clear(&mut self) {
        self.near = START;
        free_all(&mut self.region[..]);
    }
}
