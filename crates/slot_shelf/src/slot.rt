//! A slot: room for one packet. And the slots of a table, marked and emptied by place.
ghost use Rattle.std.specs.Prelude.{◌≡◌, ◌≤◌, length, slice_index_or, slice_set};
ghost use Rattle.shelf.specs.Store.{length_of, written};
ghost use Rattle.slot_shelf.specs.Slots.{fronted, marked, emptied, kept, fits, holds_number, number_above, no_slot};

use crate::table::{Place, Table};
use shelf::LONGEST;

/// The bytes of a slot. Where the slot has no packet they mean nothing.
#[derive(Clone, Copy)]
pub struct Room {
    pub bytes: [u8; LONGEST],
}

impl Room {
    /// Writes a packet to the front.
    pub(crate) fn fill(&mut self, packet: &[u8])
        requires { length packet.now ≤ LONGEST }
        ensures { self.new ≡ fronted self.old packet.now }
    {
        self.bytes[..packet.len()].copy_from_slice(packet);
    }
}

/// What is told of the packet in a slot: its number and its length. Its bytes are the slot's first ones.
#[derive(Clone, Copy)]
pub struct Held {
    pub number: u32,
    pub len: usize,
}

/// Room for one packet, and what is told of the packet in it, if there is one.
// Kept as an array and a length, not a vector of fixed capacity: such a vector writes a blank over each byte that it lets go of, and here a packet's bytes stay as they are.
#[derive(Clone, Copy)]
pub struct Slot {
    pub room: Room,
    pub held: Option<Held>,
}

impl Slot {
    /// Moves the packet to the front of the buffer, and answers its length, if there is one.
    // Kept as a slice with room for a packet, not an array of 1,500 bytes: the clause is of the whole buffer, which would have to be put together again.
    pub(crate) fn empty_into(&mut self, buffer: &mut [u8]) -> Option<usize>
        requires buffer { LONGEST ≤ length buffer.old }
        requires packet { fits self.old }
        ensures answer { result ≡ length_of (kept self.old) }
        ensures buffer { buffer.new ≡ written (kept self.old) buffer.old }
        ensures after { self.new ≡ emptied self.old }
    {
        let held = self.held.take()?;
        buffer[..held.len].copy_from_slice(&self.room.bytes[..held.len]);
        Some(held.len)
    }

    /// Whether it holds the packet of a number.
    pub(crate) fn holds(&self, number: u32) -> bool
        ensures { result ≡ holds_number self.now number }
    {
        self.held.is_some_and(|held| held.number == number)
    }

    /// The number of its packet, where that is above the given one.
    pub(crate) fn above(&self, number: u32) -> Option<u32>
        ensures { result ≡ number_above self.now number }
    {
        self.held
            .map(|held| held.number)
            .filter(|held| *held > number)
    }
}

impl Table<Slot> {
    /// Marks the first bytes of one slot as a packet.
    pub(crate) fn mark_at(&mut self, place: Place, held: Held)
        ensures { self.new.items ≡ slice_set self.old.items place.index (marked (slice_index_or self.old.items place.index no_slot) held) }
    {
        self.lend(place.index).held = Some(held);
    }

    /// Moves the packet of one slot to the front of the buffer, and answers its length, if there is one.
    pub(crate) fn empty_at(&mut self, place: Place, buffer: &mut [u8]) -> Option<usize>
        requires buffer { LONGEST ≤ length buffer.old }
        requires packet { fits (slice_index_or self.old.items place.index no_slot) }
        ensures answer { result ≡ length_of (kept (slice_index_or self.old.items place.index no_slot)) }
        ensures buffer { buffer.new ≡ written (kept (slice_index_or self.old.items place.index no_slot)) buffer.old }
        ensures after { self.new.items ≡ slice_set self.old.items place.index (emptied (slice_index_or self.old.items place.index no_slot)) }
    {
        self.lend(place.index).empty_into(buffer)
    }
}
