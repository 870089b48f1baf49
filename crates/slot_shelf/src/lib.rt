//! A shelf of sixteen slots, each with room for one packet.
#![tactic(auto)]

ghost use Rattle.std.specs.Prelude.{◌≡◌, ◌<◌, ◌≤◌, true, false, [], length, filter, is_some, is_none, IfSome, OnErr, nat_lt, slice_index_or};
ghost use Rattle.std.specs.Borrow.{sem};
ghost use Rattle.shelf.specs.Store.{has, insert, remove, lookup, used, with_held, length_of, written, put_answer, put_after, take_answer, take_buffer, take_after};
ghost use Rattle.common.specs.Lengths.{right};
ghost use Rattle.slot_shelf.specs.declared.table.TheConstants.{SLOTS};
ghost use Rattle.slot_shelf.specs.Slots.{slots_held, slots_sound, slot_store, empty_store, fronted, roomed, no_slot, lesser, FreeAt, HeldAt};
ghost use Rattle.slot_shelf.specs.Shelved.{slots_lawful};

use shelf::{LONGEST, PutFault, Shelf, TakeFault, is_length};

mod slot;
mod table;

use slot::{Held, Room, Slot};
use table::{Place, SLOTS, Table};

/// A shelf of sixteen slots. Each packet costs one unit, the slot that it lies in.
// Kept with `slots_held` in the contracts: they speak of single slots beside what all of them hold, and the trait of shelves names the meaning.
#[derive(Drop)]
pub struct SlotShelf {
    slots: Table<Slot>,
    ghost sixteen: { length slots.items ≡ SLOTS },
    ghost sound: { slots_sound slots.items ≡ true },
}

// The lesser of two numbers, of which each may be absent.
fn lesser_of(a: Option<u32>, b: Option<u32>) -> Option<u32>
    ensures { result ≡ lesser a b }
{
    match (a, b) {
        (Some(x), Some(y)) => Some(x.min(y)),
        (Some(x), None) => Some(x),
        (None, _) => b,
    }
}

impl SlotShelf {
    ghost use Rattle.slot_shelf.specs.Lending.{LendsRoom};

    /// An empty shelf.
    pub fn new() -> SlotShelf
        ensures empty { slot_store result.slots.items ≡ empty_store }
        ensures units { (slot_store result.slots.items).total ≡ 16 }
    {
        let slot = Slot {
            room: Room {
                bytes: [0; LONGEST],
            },
            held: None,
        };
        SlotShelf {
            slots: Table {
                items: [slot; SLOTS],
            },
        }
    }

    // The first slot with no packet.
    fn free(&self) -> Option<Place>
        ensures room { is_some result ≡ nat_lt (used (slot_store self.now.slots.items)) SLOTS }
        ensures found { IfSome result (FreeAt self.now.slots.items) }
    {
        let index = self
            .slots
            .items
            .iter()
            .position(|slot| slot.held.is_none())?;
        Some(Place { index })
    }

    // The slot with the packet of a number.
    fn place(&self, number: u32) -> Option<Place>
        ensures held { is_some result ≡ has (slots_held self.now.slots.items) number }
        ensures found { IfSome result (HeldAt self.now.slots.items number) }
    {
        let index = self.slots.items.iter().position(|slot| slot.holds(number))?;
        Some(Place { index })
    }

    // How many slots hold a packet.
    fn taken(&self) -> u32
        ensures { result ≡ length (filter (λ s. is_some s.held) self.now.slots.items) }
    {
        let slots = self.slots.items.iter();
        slots.filter(|slot| slot.held.is_some()).count() as u32
    }

    // Whether a slot has no packet.
    fn is_free(&self, place: Place) -> bool
        ensures { result ≡ is_none (slice_index_or self.now.slots.items place.index no_slot).held }
    {
        self.slots.items[place.index].held.is_none()
    }

    // Lends the bytes of a free slot, to be filled, or `None` where the slot holds a packet. What the shelf holds does not depend on what is left in them.
    fn lend(&mut self, place: Place) -> Option<&mut Room>
        ensures* back { sem 𝓛 (LendsRoom self.entry place result) }
        ensures free { is_some result ≡ is_none (slice_index_or self.old.slots.items place.index no_slot).held }
        ensures value { IfSome result (λ room. room.now ≡ (slice_index_or self.old.slots.items place.index no_slot).room) }
    {
        if !self.is_free(place) {
            return None;
        }
        let slot = self.slots.lend(place.index);
        Some(&mut slot.room)
    }

    // Writes a packet into a free slot, which stays free.
    fn fill(&mut self, place: Place, packet: &[u8])
        requires free { FreeAt self.old.slots.items place }
        requires fits { length packet.now ≤ LONGEST }
        ensures after { self.new.slots.items ≡ roomed self.old.slots.items place.index (fronted (slice_index_or self.old.slots.items place.index no_slot).room packet.now) }
        ensures held { slots_held self.new.slots.items ≡ slots_held self.old.slots.items }
    {
        if let Some(room) = self.lend(place) {
            room.fill(packet);
        }
    }

    // Puts a packet into a free slot.
    #[tactic(auto, using(crate::proofs::Shelved::held_filled))]
    fn keep(&mut self, place: Place, number: u32, packet: &[u8])
        requires free { FreeAt self.old.slots.items place }
        requires absent { has (slots_held self.old.slots.items) number ≡ false }
        requires sized { right (length packet.now) ≡ true }
        ensures { slots_held self.new.slots.items ≡ insert number packet.now (slots_held self.old.slots.items) }
    {
        self.fill(place, packet);
        let len = packet.len();
        self.slots.mark_at(place, Held { number, len });
    }

    // Moves the packet of a number to the front of the buffer, and answers its length.
    #[tactic(auto, using(crate::proofs::Shelved::fits_at, crate::proofs::Shelved::lookup_at, crate::proofs::Shelved::held_emptied))]
    fn withdraw(&mut self, number: u32, buffer: &mut [u8]) -> Option<usize>
        requires { LONGEST ≤ length buffer.old }
        ensures answer { result ≡ length_of (lookup (slots_held self.old.slots.items) number) }
        ensures buffer { buffer.new ≡ written (lookup (slots_held self.old.slots.items) number) buffer.old }
        ensures after { slots_held self.new.slots.items ≡ remove number (slots_held self.old.slots.items) }
        ensures absent { result ≡ None → self.new.slots.items ≡ self.old.slots.items }
    {
        let place = self.place(number)?;
        self.slots.empty_at(place, buffer)
    }
}

impl Shelf for SlotShelf {
    ghost means = { λ s. slot_store s.slots.items };

    ghost lawful = { λ s. slots_lawful s.slots.items s.sixteen s.sound };

    // Beside what the trait says, here and at `take`: what is not put or taken leaves the slots as they were.
    fn put(&mut self, number: u32, packet: &[u8]) -> Result<(), PutFault>
        ensures answer { result ≡ put_answer (slot_store self.old.slots.items) number packet.now }
        ensures after { slot_store self.new.slots.items ≡ put_after (slot_store self.old.slots.items) number packet.now }
        ensures refused { OnErr result (self.new.slots.items ≡ self.old.slots.items) }
    {
        if !is_length(packet.len()) {
            return Err(PutFault::Length);
        }
        if self.holds(number) {
            return Err(PutFault::Held);
        }
        let Some(place) = self.free() else {
            return Err(PutFault::Full);
        };
        self.keep(place, number, packet);
        Ok(())
    }

    fn take(&mut self, number: u32, buffer: &mut [u8]) -> Result<Option<usize>, TakeFault>
        ensures answer { result ≡ take_answer (slot_store self.old.slots.items) number buffer.old }
        ensures buffer { buffer.new ≡ take_buffer (slot_store self.old.slots.items) number buffer.old }
        ensures after { slot_store self.new.slots.items ≡ take_after (slot_store self.old.slots.items) number buffer.old }
        ensures refused { OnErr result (self.new.slots.items ≡ self.old.slots.items) }
        ensures absent { result ≡ Ok None → self.new.slots.items ≡ self.old.slots.items }
    {
        if buffer.len() < LONGEST {
            return Err(TakeFault::Short);
        }
        Ok(self.withdraw(number, buffer))
    }

    fn holds(&self, number: u32) -> bool {
        self.place(number).is_some()
    }

    // Kept as a loop: `min` over the numbers of an iterator, and a `fold`, take half as long again.
    fn least_above(&self, number: u32) -> Option<u32> {
        let mut least = None;
        for slot in &self.slots.items {
            least = lesser_of(least, slot.above(number));
        }
        least
    }

    fn price(&self, length: usize) -> u32 {
        u32::from(is_length(length))
    }

    #[tactic(auto, using(crate::proofs::Shelved::units_count))]
    fn used(&self) -> u32 {
        self.taken()
    }

    #[tactic(auto, using(crate::proofs::Shelved::held_none, crate::proofs::Shelved::sound_all))]
    fn clear(&mut self) {
        for slot in &mut self.slots.items {
            slot.held = None;
        }
    }
}
