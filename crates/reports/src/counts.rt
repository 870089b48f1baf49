//! The counts of a day.
ghost use Rattle.std.specs.Prelude.{◌≡◌};
ghost use Rattle.wire.specs.Reading.{packet_model, reading};
ghost use Rattle.reports.specs.Counts.{packet_kind, kind_in, one_more, kind_noted, refusal_noted, reset_noted, claim_noted, settlement_noted, skip_noted, offered, duplicates};

use operator::Asked;
use wire::{Class, Message, Packet, read};

/// What a packet is to a day's counts.
#[derive(Clone, Copy, PartialEq, Eq, Debug)]
pub enum Kind {
    /// A full update in the channel's own run of numbers.
    Full,
    Delta,
    Mapping,
    /// A full update out of a refresh.
    Refresh,
    Unavailable,
    Reset,
    /// What the reader refuses.
    Unreadable,
}

/// Why a record of a capture was not offered.
#[derive(Clone, Copy, PartialEq, Eq, Debug)]
pub enum Skipped {
    /// The record has not all bytes of its packet.
    Truncated,
    /// A part of a datagram that was sent in fragments.
    Fragment,
    /// Another protocol.
    Other,
    /// Another group or port.
    Filtered,
}

/// A day's counts. Each stops at the largest number of 64 bits.
#[derive(Clone, Copy, PartialEq, Eq, Debug, Default)]
pub struct Counts {
    /// Packets that were offered, by their kind.
    pub full: u64,
    pub delta: u64,
    pub mapping: u64,
    pub refresh: u64,
    pub unavailable: u64,
    pub reset: u64,
    pub unreadable: u64,
    /// Refusals, by their number from 0 to 23.
    pub refused: [u64; 24],
    /// Resets that came again.
    pub repeated_resets: u64,
    /// Claims made, the numbers that they asked for, and those still missing when they were settled.
    pub claims: u64,
    pub asked: u64,
    pub missing: u64,
    /// Records that were not offered, by why.
    pub truncated: u64,
    pub fragments: u64,
    pub others: u64,
    pub filtered: u64,
}

fn packet_kind(packet: &Packet<'_>) -> Kind
    ensures { result ≡ packet_kind (packet_model packet.now) }
{
    match packet.message {
        Message::Reset { .. } => Kind::Reset,
        Message::Unavailable { .. } => Kind::Unavailable,
        Message::Mapping => Kind::Mapping,
        Message::Full { .. } if packet.class() == Class::Refresh => Kind::Refresh,
        Message::Full { .. } => Kind::Full,
        Message::Delta { .. } => Kind::Delta,
    }
}

/// The kind of a packet.
pub fn kind_of(packet: &[u8]) -> Kind
    ensures { result ≡ kind_in (reading packet.now) }
{
    match read(packet) {
        Ok(packet) => packet_kind(&packet),
        Err(_) => Kind::Unreadable,
    }
}

impl Counts {
    /// Counts a packet that was offered.
    #[tactic(auto, using(crate::proofs::Sums::sum_noted))]
    pub fn note_kind(&mut self, kind: Kind)
        ensures noted { self.new ≡ kind_noted kind self.old }
        ensures sum { offered self.new ≡ one_more (offered self.old) }
    {
        match kind {
            Kind::Full => self.full = self.full.saturating_add(1),
            Kind::Delta => self.delta = self.delta.saturating_add(1),
            Kind::Mapping => self.mapping = self.mapping.saturating_add(1),
            Kind::Refresh => self.refresh = self.refresh.saturating_add(1),
            Kind::Unavailable => self.unavailable = self.unavailable.saturating_add(1),
            Kind::Reset => self.reset = self.reset.saturating_add(1),
            Kind::Unreadable => self.unreadable = self.unreadable.saturating_add(1),
        }
    }

    // Kept with an index: after `get_mut` nothing is known of the elements.
    /// Counts a refusal. A number above 23, which no refusal has, changes nothing.
    pub fn note_refusal(&mut self, number: u8)
        ensures { self.new ≡ refusal_noted number self.old }
    {
        let number = usize::from(number);
        if number < self.refused.len() {
            self.refused[number] = self.refused[number].saturating_add(1);
        }
    }

    /// Counts a reset that came again.
    pub fn note_repeated_reset(&mut self)
        ensures { self.new ≡ reset_noted self.old }
    {
        self.repeated_resets = self.repeated_resets.saturating_add(1);
    }

    /// Counts a claim and the numbers that it asks for.
    pub fn note_claim(&mut self, asked: Asked)
        ensures { self.new ≡ claim_noted asked self.old }
    {
        let numbers = (u64::from(asked.end) + 1).saturating_sub(u64::from(asked.begin));
        self.claims = self.claims.saturating_add(1);
        self.asked = self.asked.saturating_add(numbers);
    }

    /// Counts the numbers that a settled claim left missing.
    pub fn note_settlement(&mut self, missing: u32)
        ensures { self.new ≡ settlement_noted missing self.old }
    {
        self.missing = self.missing.saturating_add(u64::from(missing));
    }

    /// Counts a record that was not offered.
    pub fn note_skip(&mut self, skipped: Skipped)
        ensures { self.new ≡ skip_noted skipped self.old }
    {
        match skipped {
            Skipped::Truncated => self.truncated = self.truncated.saturating_add(1),
            Skipped::Fragment => self.fragments = self.fragments.saturating_add(1),
            Skipped::Other => self.others = self.others.saturating_add(1),
            Skipped::Filtered => self.filtered = self.filtered.saturating_add(1),
        }
    }

    /// How many packets were offered.
    pub fn offered(&self) -> u64
        ensures { result ≡ offered self.now }
    {
        self.full
            .saturating_add(self.delta)
            .saturating_add(self.mapping)
            .saturating_add(self.refresh)
            .saturating_add(self.unavailable)
            .saturating_add(self.reset)
            .saturating_add(self.unreadable)
    }

    /// How many packets were turned away since they had come before.
    pub fn duplicates(&self) -> u64
        ensures { result ≡ duplicates self.now }
    {
        self.refused[11]
    }
}
