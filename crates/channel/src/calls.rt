//! The five calls of a channel, and its reads.
ghost use Rattle.std.specs.Prelude.{◌≡◌, is_ok, None};
ghost use Rattle.order.specs.Machine.{made, offered, claimed, settled, restarted};
ghost use Rattle.channel.specs.States.{last_of};
ghost use Rattle.channel.specs.Channels.{state};
ghost use Rattle.channel.specs.Offers.{offer_answer, offer_after, offer_scratch};
ghost use Rattle.channel.specs.Calls.{make_answer, make_after, claim_answer, claim_after, claim_buffer, settle_answer, settle_after, restart_answer, restart_after};
ghost use Rattle.channel.specs.Laws.{GivenAsks};
ghost use Rattle.channel.specs.Kept.{GoesOn, Begins};

use crate::channel::Channel;
use crate::claim::Claim;
use handover::{ChannelFault, Handover, OfferFault, Taken};
use shelf::Shelf;
use sink::Sink;

impl<S: Sink, H: Shelf> Channel<S, H> {
    /// A closed channel over a sink and a shelf.
    pub fn new(sink: S, shelf: H) -> Channel<S, H>
        ensures { state (S.Sink) (H.Shelf) result ≡ record { opened = None; shelf = H.Shelf.means shelf; sink = S.Sink.means sink } }
    {
        Channel {
            open: None,
            handover: Handover::new(sink, shelf),
        }
    }

    /// Opens the channel at a first number, with its number and the source id of its requests: the shelf is cleared, and the sink told of a restart.
    /// Refused, with nothing changed, where the channel is open, for a first number of zero, and for a source id that has not 1 to 20 nonzero bytes.
    ///
    /// Channels in use at once are to have different numbers. A claim is known by its channel's number and its serial: only then is the range that
    /// a settlement counts the range of the claim that it is given. A channel that is let go or taken apart while its claim is out is still in use in
    /// this sense, until that claim is settled: no later channel of its number is to be made while a claim of the first lives.
    pub fn make(&mut self, number: u8, source: &[u8], first: u32) -> Result<(), ChannelFault>
        ensures answer { result ≡ make_answer (state (S.Sink) (H.Shelf) self.old) source.now first }
        ensures after { state (S.Sink) (H.Shelf) self.new ≡ make_after S.Sink.step (state (S.Sink) (H.Shelf) self.old) number source.now first }
        ensures stands { GoesOn S.Sink.step (made first (is_ok result)) (state (S.Sink) (H.Shelf) self.old) (state (S.Sink) (H.Shelf) self.new) }
        ensures begins { Begins S.Sink.step first (is_ok result) (state (S.Sink) (H.Shelf) self.old) (state (S.Sink) (H.Shelf) self.new) }
    {
        self.make_step(number, source, first)
    }

    /// Offers a packet: it is handed over, with what is held behind it, or kept on the shelf, or refused. Packets off the shelf go through the scratch buffer,
    /// which has at least 1,500 bytes. A refused offer changes nothing, and leaves the scratch buffer as it was.
    pub fn offer(&mut self, packet: &[u8], scratch: &mut [u8]) -> Result<Taken, OfferFault>
        ensures answer { result ≡ offer_answer S.Sink.step (state (S.Sink) (H.Shelf) self.old) packet.now scratch.old }
        ensures after { state (S.Sink) (H.Shelf) self.new ≡ offer_after S.Sink.step (state (S.Sink) (H.Shelf) self.old) packet.now scratch.old }
        ensures scratch { scratch.new ≡ offer_scratch S.Sink.step (state (S.Sink) (H.Shelf) self.old) packet.now scratch.old }
        ensures stands { GoesOn S.Sink.step (offered packet.now (is_ok result)) (state (S.Sink) (H.Shelf) self.old) (state (S.Sink) (H.Shelf) self.new) }
    {
        self.offer_step(packet, scratch)
    }

    /// Claims the gap above last: the right to ask for its numbers, with the request for them in the first 44 bytes of the buffer. The time is that of the
    /// request, in milliseconds since midnight. Refused, with nothing changed, where the channel is closed, for a shorter buffer, where a claim is out, where there
    /// is no gap, and after 500 claims since the making.
    pub fn claim(&mut self, time: u32, buffer: &mut [u8]) -> Result<Claim, ChannelFault>
        ensures answer { result ≡ claim_answer (state (S.Sink) (H.Shelf) self.old) buffer.old }
        ensures after { state (S.Sink) (H.Shelf) self.new ≡ claim_after (state (S.Sink) (H.Shelf) self.old) buffer.old }
        ensures buffer { buffer.new ≡ claim_buffer (state (S.Sink) (H.Shelf) self.old) time buffer.old }
        ensures asks { GivenAsks (state (S.Sink) (H.Shelf) self.old) time buffer.old result }
        ensures stands { GoesOn S.Sink.step (claimed (is_ok result)) (state (S.Sink) (H.Shelf) self.old) (state (S.Sink) (H.Shelf) self.new) }
    {
        self.claim_step(time, buffer)
    }

    /// Settles the claim that is out: how many numbers of its range are still missing. Where the channel is closed, or another claim or none is out, nothing
    /// changes, and the claim is given back.
    pub fn settle(&mut self, claim: Claim) -> Result<u32, (ChannelFault, Claim)>
        ensures answer { result ≡ settle_answer (state (S.Sink) (H.Shelf) self.old) claim }
        ensures after { state (S.Sink) (H.Shelf) self.new ≡ settle_after (state (S.Sink) (H.Shelf) self.old) claim }
        ensures stands { GoesOn S.Sink.step (settled (is_ok result)) (state (S.Sink) (H.Shelf) self.old) (state (S.Sink) (H.Shelf) self.new) }
    {
        self.settle_step(claim)
    }

    /// Begins again at a number: the shelf is cleared, and the sink told of a restart. Refused, with nothing changed, where the channel is closed, where a claim
    /// is out, and for zero.
    pub fn restart(&mut self, number: u32) -> Result<(), ChannelFault>
        ensures answer { result ≡ restart_answer (state (S.Sink) (H.Shelf) self.old) number }
        ensures after { state (S.Sink) (H.Shelf) self.new ≡ restart_after S.Sink.step (state (S.Sink) (H.Shelf) self.old) number }
        ensures stands { GoesOn S.Sink.step (restarted number (is_ok result)) (state (S.Sink) (H.Shelf) self.old) (state (S.Sink) (H.Shelf) self.new) }
    {
        self.restart_step(number)
    }

    /// The sink and the shelf back, from a channel that is open or closed. A claim that is out stays with whom it was given to.
    pub fn into_parts(self) -> (S, H)
        ensures { result ≡ (self.handover.sink, self.handover.shelf) }
    {
        let Channel { open: _, handover } = self;
        handover.into_parts()
    }

    /// The last number that was handed over, of a channel that is open.
    pub fn last(&self) -> Option<u32>
        ensures { result ≡ last_of (state (S.Sink) (H.Shelf) self.now).opened }
    {
        self.open.map(|_| self.handover.last())
    }

    /// The sink, to be read.
    pub fn sink(&self) -> &S
        ensures { result.now ≡ self.now.handover.sink }
    {
        self.handover.sink()
    }

    /// The shelf, to be read.
    pub fn shelf(&self) -> &H
        ensures { result.now ≡ self.now.handover.shelf }
    {
        self.handover.shelf()
    }
}
