//! Handing over: the next number, what is held, a range, and a packet that is offered.
ghost use Rattle.std.specs.Prelude.{◌≡◌, ℕ, ◌+◌, ◌-◌, ◌^◌, ◌<◌, ◌≤◌, true, false, cond, List, [], length, Some};
ghost use Rattle.order.specs.Machine.{turn};
ghost use Rattle.order.specs.Machine.{carries, brought};
ghost use Rattle.shelf.specs.Store.{has};
ghost use Rattle.wire.specs.Reading.{model, packet_model};
ghost use Rattle.handover.specs.Words.{on_ok, unless};
ghost use Rattle.handover.specs.declared.fault.ChannelFault.TheVariants.{Behind};
ghost use Rattle.handover.specs.declared.fault.OfferFault.TheVariants.{Channel};
ghost use Rattle.handover.specs.Flows.{message_of, hand, hands_to, handed_on, takes, begins_at};
ghost use Rattle.handover.specs.Offers.{against_data, against_range, against_refresh, against, flow_answer, flow_after};
ghost use Rattle.handover.specs.Handovers.{flow};

use crate::fault::{ChannelFault, OfferFault};
use crate::handover::{Handover, Taken};
use shelf::{LONGEST, Shelf};
use sink::Sink;
use wire::{Class, Message, Packet, read};

/// How far above last a number may be.
const WINDOW: u64 = 75_000;

/// How many numbers a range may have.
const WIDEST: u64 = 1_000;

/// The flag of a refresh, and the link flag of one that is whole in its packet.
// Kept as numbers: a packet has them as numbers, since an enum would ask more of those who build one.
const WHOLE_REFRESH: u8 = 6;

const ONE_PACKET: u8 = 1;

// Hands over a packet off the shelf: its message as data, or a loss where it is no data.
fn hand_packet<S: Sink>(sink: &mut S, number: u32, packet: &[u8])
    ensures { S.Sink.means sink.new ≡ S.Sink.step (turn number (message_of (Some packet.now))) (S.Sink.means sink.old) }
{
    match read(packet) {
        Ok(packet) => match packet.class() {
            Class::Data => sink.data(number, packet.message),
            _ => sink.loss(number),
        },
        Err(_) => sink.loss(number),
    }
}

// Whether a refresh is taken where last is the given number.
fn check_refresh(last: u32, packet: &Packet<'_>) -> Result<(), OfferFault>
    ensures { result ≡ unless (against_refresh last packet.now.number (packet_model packet.now)) tt }
{
    if packet.flag != WHOLE_REFRESH || packet.link != ONE_PACKET {
        return Err(ChannelFault::Parts.into());
    }
    if packet.number > last {
        return Err(ChannelFault::Ahead.into());
    }
    Ok(())
}

// Kept with the scratch buffer as a parameter: a struct that holds it and the handover by `&mut` isn't covered, since a place would be written through one field
// while what lies behind another is lent. Kept as a slice of at least 1,500 bytes: an array would be only the front of it, with the rest beside it.
impl<S: Sink, H: Shelf> Handover<S, H> {
    // Hands over the next number: the packet that is held of it, or its loss.
    fn hand(&mut self, scratch: &mut [u8])
        requires room { LONGEST ≤ length scratch.old }
        requires next { self.old.last + 1 < 2 ^ 32 }
        ensures { flow (S.Sink) (H.Shelf) self.new scratch.new ≡ hand S.Sink.step (flow (S.Sink) (H.Shelf) self.old scratch.old) }
    {
        let next = self.last + 1;
        self.last = next;
        match self.shelf.take(next, scratch) {
            Ok(Some(len)) => hand_packet(&mut self.sink, next, &scratch[0..len]),
            _ => self.sink.loss(next),
        }
    }

    // Whether the next number is held.
    #[tactic(auto, using(crate::proofs::Flows::past_largest))]
    pub(crate) fn holds_next(&self) -> bool
        ensures held { result ≡ has (H.Shelf.means self.now.shelf).held (self.now.last + 1) }
        ensures small { result ≡ true → self.now.last + 1 < 2 ^ 32 }
    {
        self.last
            .checked_add(1)
            .is_some_and(|next| self.shelf.holds(next))
    }

    // Hands over what is held, while the next number is.
    #[tactic(auto, using(crate::proofs::Flows::handed_on_more, crate::proofs::Flows::handed_on_rest))]
    fn drain(&mut self, scratch: &mut [u8])
        requires { LONGEST ≤ length scratch.old }
        ensures { flow (S.Sink) (H.Shelf) self.new scratch.new ≡ handed_on S.Sink.step (flow (S.Sink) (H.Shelf) self.old scratch.old) }
    {
        while self.holds_next() {
            self.hand(scratch);
        }
    }

    // The end of the run of numbers from the next one on that are not held, at most the given one.
    #[tactic(auto, using(crate::proofs::Flows::above_positive, crate::proofs::Flows::above_between, crate::proofs::Flows::above_met, crate::proofs::Flows::above_none))]
    fn absent_to(&self, end: u32) -> u32
        ensures within { result ≤ end }
        ensures absent { (n : ℕ) → self.now.last < n → n ≤ result → has (H.Shelf.means self.now.shelf).held n ≡ false }
        ensures met { result < end → has (H.Shelf.means self.now.shelf).held (result + 1) ≡ true }
    {
        match self.shelf.least_above(self.last) {
            Some(held) => end.min(held - 1),
            None => end,
        }
    }

    // Hands over the next numbers as lost, up to the given one: none of them is held.
    #[tactic(auto, using(crate::proofs::Flows::lost_more))]
    fn lose_to(&mut self, until: u32)
        requires { (n : ℕ) → self.old.last < n → n ≤ until → has (H.Shelf.means self.old.shelf).held n ≡ false }
        ensures last { self.old.last ≤ self.new.last }
        ensures after { (scratch : List ℕ) → flow (S.Sink) (H.Shelf) self.new scratch ≡ hands_to S.Sink.step until (flow (S.Sink) (H.Shelf) self.old scratch) }
    {
        while self.last < until {
            self.last += 1;
            self.sink.loss(self.last);
        }
    }

    // Hands over every number up to the given one. For a run of numbers that are not held the shelf is asked once.
    // Kept as a while: handing over moves last on, so the number of a range would stand beside it unused.
    #[tactic(auto, using(crate::proofs::Flows::run_more, crate::proofs::Flows::run_rest))]
    fn hand_to(&mut self, end: u32, scratch: &mut [u8])
        requires { LONGEST ≤ length scratch.old }
        ensures { flow (S.Sink) (H.Shelf) self.new scratch.new ≡ hands_to S.Sink.step end (flow (S.Sink) (H.Shelf) self.old scratch.old) }
    {
        while self.last < end {
            let absent = self.absent_to(end);
            self.lose_to(absent);
            if self.last < end {
                self.hand(scratch);
            }
        }
    }

    // What a number is refused with: that it is behind, where it is held, and else the fault.
    fn unless_held(&self, number: u32, fault: OfferFault) -> OfferFault
        ensures { result ≡ cond (has (H.Shelf.means self.now.shelf).held number) (Channel Behind) fault }
    {
        if !self.shelf.holds(number) {
            return fault;
        }
        ChannelFault::Behind.into()
    }

    // Offers a data packet. The next number is handed over and what is held behind it; an early one goes to the shelf, which is asked whether it is held only where it refuses it.
    fn offer_data(
        &mut self,
        number: u32,
        message: Message<'_>,
        packet: &[u8],
        scratch: &mut [u8],
    ) -> Result<(), OfferFault>
        requires { LONGEST ≤ length scratch.old }
        ensures answer { result ≡ unless (against_data self.old.last (H.Shelf.means self.old.shelf) number packet.now) tt }
        ensures after { flow (S.Sink) (H.Shelf) self.new scratch.new ≡ on_ok result (λ _. takes S.Sink.step (carries number (model message.entry)) packet.now (flow (S.Sink) (H.Shelf) self.old scratch.old)) (flow (S.Sink) (H.Shelf) self.old scratch.old) }
    {
        if number <= self.last {
            return Err(ChannelFault::Behind.into());
        }
        if number as u64 > self.last as u64 + WINDOW {
            return Err(self.unless_held(number, ChannelFault::Far.into()));
        }
        if number - self.last > 1 {
            return self
                .shelf
                .put(number, packet)
                .map_err(|fault| self.unless_held(number, fault.into()));
        }
        if self.shelf.holds(number) {
            return Err(ChannelFault::Behind.into());
        }
        self.sink.data(number, message);
        self.last = number;
        self.drain(scratch);
        Ok(())
    }

    // Offers a range that is declared unavailable. Each of its numbers is handed over, and what is held behind it.
    fn offer_range(&mut self, begin: u32, end: u32, scratch: &mut [u8]) -> Result<(), OfferFault>
        requires { LONGEST ≤ length scratch.old }
        ensures answer { result ≡ unless (against_range self.old.last begin end) tt }
        ensures after { flow (S.Sink) (H.Shelf) self.new scratch.new ≡ on_ok result (λ _. handed_on S.Sink.step (hands_to S.Sink.step end (flow (S.Sink) (H.Shelf) self.old scratch.old))) (flow (S.Sink) (H.Shelf) self.old scratch.old) }
    {
        if end <= self.last {
            return Err(ChannelFault::Behind.into());
        }
        if begin as u64 > self.last as u64 + 1 {
            return Err(ChannelFault::Ahead.into());
        }
        if end as u64 + 1 - begin as u64 > WIDEST {
            return Err(ChannelFault::Wide.into());
        }
        self.hand_to(end, scratch);
        self.drain(scratch);
        Ok(())
    }

    // Offers a packet that is read, beside its bytes.
    fn offer_read(
        &mut self,
        packet: &Packet<'_>,
        bytes: &[u8],
        scratch: &mut [u8],
    ) -> Result<(), OfferFault>
        requires { LONGEST ≤ length scratch.old }
        ensures answer { result ≡ unless (against self.old.last (H.Shelf.means self.old.shelf) bytes.now (packet_model packet.now)) tt }
        ensures after { flow (S.Sink) (H.Shelf) self.new scratch.new ≡ on_ok result (λ _. takes S.Sink.step (brought (packet_model packet.now)) bytes.now (flow (S.Sink) (H.Shelf) self.old scratch.old)) (flow (S.Sink) (H.Shelf) self.old scratch.old) }
    {
        match packet.message {
            Message::Reset { next } => Err(ChannelFault::Reset { next }.into()),
            Message::Unavailable { begin, end } => self.offer_range(begin, end, scratch),
            Message::Full { .. } if packet.class() == Class::Refresh => {
                check_refresh(self.last, packet)?;
                self.sink.refresh(packet.number, packet.message);
                Ok(())
            }
            message => self.offer_data(packet.number, message, bytes, scratch),
        }
    }

    /// Begins at a number: the shelf is cleared, the sink told, and last is the number less one.
    pub fn begin(&mut self, number: u32)
        ensures { flow (S.Sink) (H.Shelf) self.new [] ≡ begins_at S.Sink.step number (flow (S.Sink) (H.Shelf) self.old []) }
    {
        self.shelf.clear();
        self.sink.restart(number);
        self.last = number.saturating_sub(1);
    }

    /// Offers a packet: it is handed over, with what is held behind it, or kept on the shelf, or refused. A refused one changes nothing, and leaves the scratch
    /// buffer as it was, which has at least 1,500 bytes.
    #[tactic(auto, using(crate::proofs::Grows::takes_grow))]
    pub fn offer(&mut self, packet: &[u8], scratch: &mut [u8]) -> Result<Taken, OfferFault>
        ensures answer { result ≡ flow_answer S.Sink.step (flow (S.Sink) (H.Shelf) self.old scratch.old) packet.now }
        ensures after { flow (S.Sink) (H.Shelf) self.new scratch.new ≡ flow_after S.Sink.step (flow (S.Sink) (H.Shelf) self.old scratch.old) packet.now }
    {
        if scratch.len() < LONGEST {
            return Err(ChannelFault::Short.into());
        }
        let before = self.last;
        let read = read(packet)?;
        self.offer_read(&read, packet, scratch)?;
        Ok(Taken {
            last: self.last,
            handed: self.last - before,
        })
    }
}
