//! An operator's desk, and running a list of actions at it.
ghost use Rattle.std.proofs.Props.{props};
ghost use Rattle.channel.specs.Channels.{opened_of};
ghost use Rattle.operator.specs.Hands.{IsOut};

use crate::action::{Action, Asked, Reply};
use crate::place::{hold, place};
use channel::{Channel, ChannelFault, Claim, OfferFault, Taken};
use shelf::Shelf;
use sink::Sink;

// Kept apart from the buffer: a struct of both, lent for one call, leaves the checker without the tie between its fields and what was lent.
// Kept without a Model, as a channel is: what a desk has takes the meanings of the sink and the shelf, which would bound the type's parameters, and so narrow it.
/// A channel and the claim in hand, which is the one that is out of the channel. A claim can't be let go, so neither can a desk: it is closed.
pub struct Desk<S, H> {
    channel: Channel<S, H>,
    hand: Option<Claim>,
    pub ghost own: { IsOut (opened_of channel) hand } by { Prim.hlevel props },
}

impl<S: Sink, H: Shelf> Desk<S, H> {
    ghost use Rattle.std.specs.Prelude.{◌≡◌, ℕ, List, [], ◌∷◌, is_ok, is_some, IsSome, IsErr, None};
    ghost use Rattle.std.specs.Option.{option_map};
    ghost use Rattle.order.specs.Machine.{made, offered, claimed, restarted};
    ghost use Rattle.channel.specs.Channels.{state};
    ghost use Rattle.channel.specs.Follows.{make, offer, claim, restart};
    ghost use Rattle.channel.specs.Offers.{offer_answer};
    ghost use Rattle.channel.specs.Calls.{make_answer, restart_answer};
    ghost use Rattle.operator.specs.declared.action.Action.TheVariants.{Settle};
    ghost use Rattle.operator.specs.Desks.{desk, asked_of, asked_after, desk_after, reply_to, claim_reply, settle_reply, settling, call_of, calls_of, desks_after, replies_to, placed, GoesBy};

    /// A desk with a channel and no claim in hand. A claim that is out of the channel stays with its holder: here it can't be settled, and no other is given.
    pub fn new(channel: Channel<S, H>) -> Desk<S, H>
        ensures channel { result.channel ≡ channel }
        ensures hand { result.hand ≡ None }
    {
        Desk {
            channel,
            hand: None,
        }
    }

    /// The channel, to be read.
    pub fn channel(&self) -> &Channel<S, H>
        ensures { result.now ≡ self.now.channel }
    {
        &self.channel
    }

    /// What the claim in hand asks for, if one is in hand.
    pub fn hand(&self) -> Option<Asked>
        ensures { result ≡ option_map asked_of self.now.hand }
    {
        self.hand.as_ref().map(Asked::from)
    }

    /// Opens the channel at a first number, with its number and the source id of its requests. The claim in hand stays.
    pub fn make(&mut self, number: u8, source: &[u8], first: u32) -> Result<(), ChannelFault>
        ensures answer { result ≡ make_answer (state (S.Sink) (H.Shelf) self.old.channel) source.now first }
        ensures after { (b : List ℕ) → desk (S.Sink) (H.Shelf) self.new b ≡ asked_after S.Sink.step (make number source.now first) (desk (S.Sink) (H.Shelf) self.old b) }
        ensures stands { GoesBy S.Sink.step (made first (is_ok result) ∷ []) (state (S.Sink) (H.Shelf) self.old.channel) (state (S.Sink) (H.Shelf) self.new.channel) }
    {
        self.channel.make(number, source, first)
    }

    /// Offers a packet. The claim in hand stays.
    pub fn offer(&mut self, packet: &[u8], buffer: &mut [u8]) -> Result<Taken, OfferFault>
        ensures answer { result ≡ offer_answer S.Sink.step (state (S.Sink) (H.Shelf) self.old.channel) packet.now buffer.old }
        ensures after { desk (S.Sink) (H.Shelf) self.new buffer.new ≡ asked_after S.Sink.step (offer packet.now buffer.old) (desk (S.Sink) (H.Shelf) self.old buffer.old) }
        ensures stands { GoesBy S.Sink.step (offered packet.now (is_ok result) ∷ []) (state (S.Sink) (H.Shelf) self.old.channel) (state (S.Sink) (H.Shelf) self.new.channel) }
    {
        self.channel.offer(packet, buffer)
    }

    /// Claims the gap, and takes the claim into the hand. While one is in hand no other is given.
    pub fn claim(&mut self, time: u32, buffer: &mut [u8]) -> Result<Asked, ChannelFault>
        ensures reply { result ≡ claim_reply (desk (S.Sink) (H.Shelf) self.old buffer.old) }
        ensures after { desk (S.Sink) (H.Shelf) self.new buffer.new ≡ asked_after S.Sink.step (claim time buffer.old) (desk (S.Sink) (H.Shelf) self.old buffer.old) }
        ensures full { IsSome self.old.hand → IsErr result }
        ensures stands { GoesBy S.Sink.step (claimed (is_ok result) ∷ []) (state (S.Sink) (H.Shelf) self.old.channel) (state (S.Sink) (H.Shelf) self.new.channel) }
    {
        let claim = self.channel.claim(time, buffer)?;
        let asked = Asked::from(&claim);
        hold(&mut self.hand, claim);
        Ok(asked)
    }

    /// Settles the claim in hand, if one is: how many numbers of its range are still missing.
    #[tactic(auto, using(crate::proofs::Calls::goes_nowhere))]
    pub fn settle(&mut self) -> Option<u32>
        ensures reply { (b : List ℕ) → result ≡ settle_reply (desk (S.Sink) (H.Shelf) self.old b) }
        ensures settled { is_some result ≡ is_some self.old.hand }
        ensures after { (b : List ℕ) → desk (S.Sink) (H.Shelf) self.new b ≡ desk_after S.Sink.step Settle (desk (S.Sink) (H.Shelf) self.old b) }
        ensures stands { GoesBy S.Sink.step (settling result) (state (S.Sink) (H.Shelf) self.old.channel) (state (S.Sink) (H.Shelf) self.new.channel) }
    {
        let claim = self.hand.take()?;
        match self.channel.settle(claim) {
            Ok(missing) => Some(missing),
            Err(_refused) => unreachable!(),
        }
    }

    /// Begins again at a number. The claim in hand stays.
    pub fn restart(&mut self, number: u32) -> Result<(), ChannelFault>
        ensures answer { result ≡ restart_answer (state (S.Sink) (H.Shelf) self.old.channel) number }
        ensures after { (b : List ℕ) → desk (S.Sink) (H.Shelf) self.new b ≡ asked_after S.Sink.step (restart number) (desk (S.Sink) (H.Shelf) self.old b) }
        ensures stands { GoesBy S.Sink.step (restarted number (is_ok result) ∷ []) (state (S.Sink) (H.Shelf) self.old.channel) (state (S.Sink) (H.Shelf) self.new.channel) }
    {
        self.channel.restart(number)
    }

    /// Does one action.
    #[tactic(auto, using(crate::proofs::Calls::goes_action))]
    pub fn act(&mut self, action: &Action, buffer: &mut [u8]) -> Reply
        ensures reply { result ≡ reply_to S.Sink.step action.now (desk (S.Sink) (H.Shelf) self.old buffer.old) }
        ensures after { desk (S.Sink) (H.Shelf) self.new buffer.new ≡ desk_after S.Sink.step action.now (desk (S.Sink) (H.Shelf) self.old buffer.old) }
        ensures stands { GoesBy S.Sink.step (call_of S.Sink.step action.now (desk (S.Sink) (H.Shelf) self.old buffer.old)) (state (S.Sink) (H.Shelf) self.old.channel) (state (S.Sink) (H.Shelf) self.new.channel) }
    {
        match action {
            Action::Make {
                number,
                source,
                first,
            } => Reply::Made(self.make(*number, source.as_slice(), *first)),
            Action::Offer(packet) => Reply::Offered(self.offer(packet.as_slice(), buffer)),
            Action::Claim { time } => Reply::Claimed(self.claim(*time, buffer)),
            Action::Settle => self.settle().map_or(Reply::NoClaim, Reply::Settled),
            Action::Restart { number } => Reply::Restarted(self.restart(*number)),
        }
    }

    /// Does a list of actions, the first one first. The replies go into the first places of a table, as many as it has. Whatever history the channel followed,
    /// it then follows that history with the calls of the list, and keeps the promise of it; a list that opens the channel begins a history.
    #[tactic(auto, using(crate::proofs::Lists::desks_more, crate::proofs::Lists::replies_more, crate::proofs::Calls::goes_list, std::proofs::lemmas::List::take_all))]
    pub fn run(&mut self, actions: &[Action], buffer: &mut [u8], replies: &mut [Reply])
        ensures after { desk (S.Sink) (H.Shelf) self.new buffer.new ≡ desks_after S.Sink.step actions.now (desk (S.Sink) (H.Shelf) self.old buffer.old) }
        ensures replies { replies.new ≡ placed (replies_to S.Sink.step actions.now (desk (S.Sink) (H.Shelf) self.old buffer.old)) replies.old }
        ensures stands { GoesBy S.Sink.step (calls_of S.Sink.step actions.now (desk (S.Sink) (H.Shelf) self.old buffer.old)) (state (S.Sink) (H.Shelf) self.old.channel) (state (S.Sink) (H.Shelf) self.new.channel) }
    {
        for (i, action) in actions.iter().enumerate() {
            let reply = self.act(action, buffer);
            place(replies, i, reply);
        }
    }

    /// Settles the claim in hand, if one is, and gives the channel back.
    #[tactic(auto, using(crate::proofs::Calls::goes_nowhere))]
    pub fn close(self) -> Channel<S, H>
        ensures after { state (S.Sink) (H.Shelf) result ≡ (desk_after S.Sink.step Settle (desk (S.Sink) (H.Shelf) self [])).channel }
        ensures settled { is_some (settle_reply (desk (S.Sink) (H.Shelf) self [])) ≡ is_some self.hand }
        ensures stands { GoesBy S.Sink.step (settling (settle_reply (desk (S.Sink) (H.Shelf) self []))) (state (S.Sink) (H.Shelf) self.channel) (state (S.Sink) (H.Shelf) result) }
    {
        let Desk { mut channel, hand } = self;
        if let Some(claim) = hand {
            match channel.settle(claim) {
                Ok(_missing) => {}
                Err(_refused) => unreachable!(),
            }
        }
        channel
    }
}
