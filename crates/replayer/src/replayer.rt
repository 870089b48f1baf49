//! Following a capture, packet by packet.
ghost use Rattle.std.specs.Prelude.{◌≡◌, ℕ, List, ◌∷◌, ◌++◌, is_ok, None, Err};
ghost use Rattle.order.specs.Machine.{restarted};
ghost use Rattle.channel.specs.Channels.{state};
ghost use Rattle.channel.specs.Follows.{restart};
ghost use Rattle.channel.specs.Calls.{restart_answer};
ghost use Rattle.operator.specs.Desks.{desk, asked_after, settle_reply, desk_after, settling, GoesBy};
ghost use Rattle.operator.specs.declared.action.Action.TheVariants.{Settle};
ghost use Rattle.replayer.specs.Replays.{next_of, is_due, settled_if, settled_desk, wants, claimed_if, claimed_desk, by_taken, taken_desk, by_reset, reset_after, emptied, replay, followed, replay_after};
ghost use Rattle.replayer.specs.Histories.{claiming, calls_behind, calls_of};

use crate::announced::Announced;
use crate::followed::Followed;
use channel::{ChannelFault, OfferFault, Taken};
use operator::{Asked, Desk};
use shelf::Shelf;
use sink::Sink;

// The next number of a refusal that is a reset.
fn next_of(fault: OfferFault) -> Option<u32>
    ensures { result ≡ next_of fault }
{
    match fault {
        OfferFault::Channel(fault) => fault.next(),
        OfferFault::Reader(_) | OfferFault::Shelf(_) => None,
    }
}

/// A desk at which the packets of a capture are offered, and the reset that was followed last.
pub struct Replayer<S, H> {
    desk: Desk<S, H>,
    reset: Option<Announced>,
}

impl<S: Sink, H: Shelf> Replayer<S, H> {
    /// A replay at a desk, which followed no reset yet.
    pub fn new(desk: Desk<S, H>) -> Replayer<S, H>
        ensures { result ≡ record { desk = desk; reset = None } }
    {
        Replayer { desk, reset: None }
    }

    /// The desk, to be read.
    pub fn desk(&self) -> &Desk<S, H>
        ensures { result.now ≡ self.now.desk }
    {
        &self.desk
    }

    /// The desk back.
    pub fn into_desk(self) -> Desk<S, H>
        ensures { result ≡ self.desk }
    {
        let Replayer { desk, reset: _ } = self;
        desk
    }

    /// Settles the claim in hand, if one is, as at the end of a capture.
    pub fn settle(&mut self) -> Option<u32>
        ensures reply { (b : List ℕ) → result ≡ settle_reply (desk (S.Sink) (H.Shelf) self.old.desk b) }
        ensures after { (b : List ℕ) → desk (S.Sink) (H.Shelf) self.new.desk b ≡ desk_after S.Sink.step Settle (desk (S.Sink) (H.Shelf) self.old.desk b) }
        ensures reset { self.new.reset ≡ self.old.reset }
        ensures stands { GoesBy S.Sink.step (settling result) (state (S.Sink) (H.Shelf) self.old.desk.channel) (state (S.Sink) (H.Shelf) self.new.desk.channel) }
    {
        self.desk.settle()
    }

    // Settles the claim in hand where its range is at or below last.
    #[tactic(auto, using(operator::proofs::Calls::goes_nowhere))]
    fn settle_due(&mut self, last: u32) -> Option<u32>
        ensures reply { (b : List ℕ) → result ≡ settled_if (is_due last self.old.desk.hand) (desk (S.Sink) (H.Shelf) self.old.desk b) }
        ensures after { (b : List ℕ) → desk (S.Sink) (H.Shelf) self.new.desk b ≡ settled_desk S.Sink.step (is_due last self.old.desk.hand) (desk (S.Sink) (H.Shelf) self.old.desk b) }
        ensures reset { self.new.reset ≡ self.old.reset }
        ensures stands { GoesBy S.Sink.step (settling result) (state (S.Sink) (H.Shelf) self.old.desk.channel) (state (S.Sink) (H.Shelf) self.new.desk.channel) }
    {
        let asked = self.desk.hand()?;
        if asked.end > last {
            return None;
        }
        self.settle()
    }

    // Claims the gap above last where no claim is in hand.
    #[tactic(auto, using(operator::proofs::Calls::goes_nowhere))]
    fn claim_due(
        &mut self,
        last: u32,
        time: u32,
        buffer: &mut [u8],
    ) -> Option<Result<Asked, ChannelFault>>
        ensures reply { result ≡ claimed_if (wants last (desk (S.Sink) (H.Shelf) self.old.desk buffer.old)) (desk (S.Sink) (H.Shelf) self.old.desk buffer.old) }
        ensures after { desk (S.Sink) (H.Shelf) self.new.desk buffer.new ≡ claimed_desk S.Sink.step time (wants last (desk (S.Sink) (H.Shelf) self.old.desk buffer.old)) (desk (S.Sink) (H.Shelf) self.old.desk buffer.old) }
        ensures reset { self.new.reset ≡ self.old.reset }
        ensures stands { GoesBy S.Sink.step (claiming result) (state (S.Sink) (H.Shelf) self.old.desk.channel) (state (S.Sink) (H.Shelf) self.new.desk.channel) }
    {
        if self.desk.hand().is_some() || self.desk.channel().shelf().least_above(last).is_none() {
            return None;
        }
        Some(self.desk.claim(time, buffer))
    }

    // What follows an offer that was taken.
    #[tactic(auto, using(operator::proofs::Calls::goes_then))]
    fn follow_taken(&mut self, taken: Taken, time: u32, buffer: &mut [u8]) -> Followed
        ensures answer { result ≡ by_taken S.Sink.step taken (desk (S.Sink) (H.Shelf) self.old.desk buffer.old) }
        ensures after { desk (S.Sink) (H.Shelf) self.new.desk buffer.new ≡ taken_desk S.Sink.step taken time (desk (S.Sink) (H.Shelf) self.old.desk buffer.old) }
        ensures reset { self.new.reset ≡ self.old.reset }
        ensures stands { GoesBy S.Sink.step (calls_behind result) (state (S.Sink) (H.Shelf) self.old.desk.channel) (state (S.Sink) (H.Shelf) self.new.desk.channel) }
    {
        let settled = self.settle_due(taken.last);
        let claimed = self.claim_due(taken.last, time, buffer);
        Followed {
            offered: Ok(taken),
            settled,
            claimed,
            restarted: None,
            repeated: false,
        }
    }

    // Settles the claim in hand and begins again at a number.
    #[tactic(auto, using(operator::proofs::Calls::goes_then))]
    fn begin_again(&mut self, next: u32) -> (Option<u32>, Result<(), ChannelFault>)
        ensures settled { (b : List ℕ) → result.0 ≡ settle_reply (desk (S.Sink) (H.Shelf) self.old.desk b) }
        ensures restarted { (b : List ℕ) → result.1 ≡ restart_answer (emptied S.Sink.step (desk (S.Sink) (H.Shelf) self.old.desk b)).channel next }
        ensures after { (b : List ℕ) → desk (S.Sink) (H.Shelf) self.new.desk b ≡ asked_after S.Sink.step (restart next) (emptied S.Sink.step (desk (S.Sink) (H.Shelf) self.old.desk b)) }
        ensures reset { self.new.reset ≡ self.old.reset }
        ensures stands { GoesBy S.Sink.step (restarted next (is_ok result.1) ∷ settling result.0) (state (S.Sink) (H.Shelf) self.old.desk.channel) (state (S.Sink) (H.Shelf) self.new.desk.channel) }
    {
        let settled = self.settle();
        (settled, self.desk.restart(next))
    }

    // What follows a reset: the channel begins again at its next number, the claim in hand settled first, unless the reset was followed before.
    #[tactic(auto, using(operator::proofs::Calls::goes_nowhere))]
    fn follow_reset(&mut self, fault: OfferFault, next: u32, packet: &[u8]) -> Followed
        ensures offered { result.offered ≡ Err fault }
        ensures answer { (b : List ℕ) → result ≡ by_reset S.Sink.step fault next packet.now (replay (S.Sink) (H.Shelf) self.old b) }
        ensures after { (b : List ℕ) → replay (S.Sink) (H.Shelf) self.new b ≡ reset_after S.Sink.step next packet.now (replay (S.Sink) (H.Shelf) self.old b) }
        ensures stands { GoesBy S.Sink.step (calls_behind result) (state (S.Sink) (H.Shelf) self.old.desk.channel) (state (S.Sink) (H.Shelf) self.new.desk.channel) }
    {
        let announced = Announced::read(packet);
        if Announced::is_same(announced, self.reset) {
            return Followed {
                repeated: true,
                ..Followed::refused(fault)
            };
        }
        let (settled, restarted) = self.begin_again(next);
        self.reset = announced;
        Followed {
            settled,
            restarted: Some((next, restarted)),
            ..Followed::refused(fault)
        }
    }

    /// Offers a packet that came at a time, and does what follows of it. The history goes on by the calls that were made, and keeps its promise.
    #[tactic(auto, using(operator::proofs::Calls::goes_then))]
    pub fn offer(&mut self, packet: &[u8], time: u32, buffer: &mut [u8]) -> Followed
        ensures answer { result ≡ followed S.Sink.step packet.now (replay (S.Sink) (H.Shelf) self.old buffer.old) }
        ensures after { replay (S.Sink) (H.Shelf) self.new buffer.new ≡ replay_after S.Sink.step packet.now time (replay (S.Sink) (H.Shelf) self.old buffer.old) }
        ensures stands { GoesBy S.Sink.step (calls_of packet.now result) (state (S.Sink) (H.Shelf) self.old.desk.channel) (state (S.Sink) (H.Shelf) self.new.desk.channel) }
    {
        match self.desk.offer(packet, buffer) {
            Ok(taken) => self.follow_taken(taken, time, buffer),
            Err(fault) => match next_of(fault) {
                Some(next) => self.follow_reset(fault, next, packet),
                None => Followed::refused(fault),
            },
        }
    }
}
