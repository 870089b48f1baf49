//! A channel: closed, or open with its number, its source id and the claim that is out.
ghost use Rattle.std.specs.Prelude.{◌≡◌, ◌≤◌};
ghost use Rattle.channel.specs.declared.channel.TheConstants.{MOST_CLAIMS};

use crate::claim::Claim;
use handover::Handover;
use wire::SourceId;

/// How many claims are given from one making.
pub(crate) const MOST_CLAIMS: u16 = 500;

/// What a channel keeps of the claim that is out.
// Kept with begin and end as two numbers: a range of the library can't be copied, and each is shown, written and counted alone.
#[derive(Clone, Copy)]
pub struct Owed {
    pub(crate) serial: u16,
    pub(crate) begin: u32,
    pub(crate) end: u32,
}

impl Owed {
    ghost use Rattle.channel.specs.Channels.{claim_out};

    // The claim itself, of a channel with this number.
    pub(crate) fn claim(self, channel: u8) -> Claim
        ensures { result ≡ claim_out channel self }
    {
        Claim {
            channel,
            serial: self.serial,
            begin: self.begin,
            end: self.end,
        }
    }
}

/// What an open channel has beside what it hands over.
#[derive(Clone, Copy)]
pub struct Open {
    pub(crate) number: u8,
    pub(crate) source: SourceId,
    pub(crate) out: Option<Owed>,
    pub(crate) claims: u16,
    ghost few: { claims ≤ MOST_CLAIMS },
}

// Kept without a Model: the state takes the meanings of the sink and the shelf, which would bound the type's parameters, and so narrow it.
/// A channel hands the packets of one stream to a sink, in order and each number once. What comes early waits on a shelf.
#[derive(Drop)]
pub struct Channel<S, H> {
    pub(crate) open: Option<Open>,
    pub(crate) handover: Handover<S, H>,
}
