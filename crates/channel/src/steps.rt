//! What a making, a restart and an offer do.
ghost use Rattle.std.specs.Prelude.{◌≡◌};
ghost use Rattle.channel.specs.Channels.{state};
ghost use Rattle.channel.specs.Offers.{offer_answer, offer_after, offer_scratch};
ghost use Rattle.channel.specs.Calls.{make_answer, make_after, restart_answer, restart_after};

use crate::channel::{Channel, Open};
use handover::{ChannelFault, OfferFault, Taken};
use shelf::Shelf;
use sink::Sink;
use wire::SourceId;

// Kept as steps beside the calls: what a call `stands` for follows from its answer and from where it leads, in one way for all of its returns.
impl<S: Sink, H: Shelf> Channel<S, H> {
    pub(crate) fn make_step(
        &mut self,
        number: u8,
        source: &[u8],
        first: u32,
    ) -> Result<(), ChannelFault>
        ensures answer { result ≡ make_answer (state (S.Sink) (H.Shelf) self.old) source.now first }
        ensures after { state (S.Sink) (H.Shelf) self.new ≡ make_after S.Sink.step (state (S.Sink) (H.Shelf) self.old) number source.now first }
    {
        if self.open.is_some() {
            return Err(ChannelFault::Phase);
        }
        if first == 0 {
            return Err(ChannelFault::Zero);
        }
        let source = SourceId::try_from(source)?;
        self.handover.begin(first);
        self.open = Some(Open {
            number,
            source,
            out: None,
            claims: 0,
        });
        Ok(())
    }

    pub(crate) fn restart_step(&mut self, number: u32) -> Result<(), ChannelFault>
        ensures answer { result ≡ restart_answer (state (S.Sink) (H.Shelf) self.old) number }
        ensures after { state (S.Sink) (H.Shelf) self.new ≡ restart_after S.Sink.step (state (S.Sink) (H.Shelf) self.old) number }
    {
        let open = self.open.ok_or(ChannelFault::Phase)?;
        if open.out.is_some() {
            return Err(ChannelFault::Owed);
        }
        if number == 0 {
            return Err(ChannelFault::Zero);
        }
        self.handover.begin(number);
        Ok(())
    }

    pub(crate) fn offer_step(
        &mut self,
        packet: &[u8],
        scratch: &mut [u8],
    ) -> Result<Taken, OfferFault>
        ensures answer { result ≡ offer_answer S.Sink.step (state (S.Sink) (H.Shelf) self.old) packet.now scratch.old }
        ensures after { state (S.Sink) (H.Shelf) self.new ≡ offer_after S.Sink.step (state (S.Sink) (H.Shelf) self.old) packet.now scratch.old }
        ensures scratch { scratch.new ≡ offer_scratch S.Sink.step (state (S.Sink) (H.Shelf) self.old) packet.now scratch.old }
    {
        self.open.ok_or(ChannelFault::Phase)?;
        self.handover.offer(packet, scratch)
    }
}
