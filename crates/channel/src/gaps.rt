//! What a claim and its settlement do.
ghost use Rattle.std.specs.Prelude.{◌≡◌, ◌<◌, ◌≤◌, length, IfOk};
ghost use Rattle.channel.specs.Channels.{claim_out, opened_with, state, told_claim};
ghost use Rattle.channel.specs.Calls.{claim_of, claim_verdict, claim_answer, claim_after, claim_buffer, settle_answer, settle_after};

use crate::channel::{Channel, MOST_CLAIMS, Open, Owed};
use crate::claim::Claim;
use handover::ChannelFault;
use shelf::Shelf;
use sink::Sink;
use wire::REQUEST;

/// How many numbers a claim asks for at most.
const MOST_ASKED: u32 = 1_000;

impl Open {
    // The claim of the gap between last and the least number held above it.
    fn owed(&self, last: u32, least: u32) -> Owed
        requires few { self.now.claims < MOST_CLAIMS }
        requires gap { last < least }
        ensures { claim_out self.now.number result ≡ claim_of (opened_with last self.now) least }
    {
        Owed {
            serial: self.claims + 1,
            begin: last + 1,
            end: last + MOST_ASKED.min(least - last - 1),
        }
    }
}

// Kept as steps beside the calls, as a making and a restart are.
impl<S: Sink, H: Shelf> Channel<S, H> {
    // The claim that is given, if one is, and of which open channel.
    fn next_claim(&self, buffer: &[u8]) -> Result<(Open, Owed), ChannelFault>
        ensures verdict { told_claim self.now.handover.last result ≡ claim_verdict (state (S.Sink) (H.Shelf) self.now) buffer.now }
        ensures room { IfOk result (λ given. REQUEST ≤ length buffer.now) }
        ensures few { IfOk result (λ given. given.1.serial ≤ MOST_CLAIMS) }
    {
        let open = self.open.ok_or(ChannelFault::Phase)?;
        if buffer.len() < REQUEST {
            return Err(ChannelFault::Short);
        }
        if open.out.is_some() {
            return Err(ChannelFault::Owed);
        }
        let least = self.handover.gap().ok_or(ChannelFault::Whole)?;
        if open.claims >= MOST_CLAIMS {
            return Err(ChannelFault::Spent);
        }
        Ok((open, open.owed(self.handover.last(), least)))
    }

    pub(crate) fn claim_step(&mut self, time: u32, buffer: &mut [u8]) -> Result<Claim, ChannelFault>
        ensures answer { result ≡ claim_answer (state (S.Sink) (H.Shelf) self.old) buffer.old }
        ensures after { state (S.Sink) (H.Shelf) self.new ≡ claim_after (state (S.Sink) (H.Shelf) self.old) buffer.old }
        ensures buffer { buffer.new ≡ claim_buffer (state (S.Sink) (H.Shelf) self.old) time buffer.old }
    {
        let (mut open, owed) = self.next_claim(buffer)?;
        let request = open.source.request(time, owed.begin, owed.end);
        buffer[0..REQUEST].copy_from_slice(&request);
        open.out = Some(owed);
        open.claims = owed.serial;
        self.open = Some(open);
        Ok(owed.claim(open.number))
    }

    pub(crate) fn settle_step(&mut self, claim: Claim) -> Result<u32, (ChannelFault, Claim)>
        ensures answer { result ≡ settle_answer (state (S.Sink) (H.Shelf) self.old) claim }
        ensures after { state (S.Sink) (H.Shelf) self.new ≡ settle_after (state (S.Sink) (H.Shelf) self.old) claim }
    {
        let Some(mut open) = self.open else {
            return Err((ChannelFault::Phase, claim));
        };
        let Some(owed) = open.out else {
            return Err((ChannelFault::Other, claim));
        };
        if claim.channel != open.number || claim.serial != owed.serial {
            return Err((ChannelFault::Other, claim));
        }
        let Claim {
            channel: _,
            serial: _,
            begin: _,
            end: _,
        } = claim;
        open.out = None;
        self.open = Some(open);
        Ok(self.handover.missing(owed.begin, owed.end))
    }
}
