//! What an operator does, and the reply to it.
ghost use Rattle.std.specs.Prelude.{◌≡◌};
ghost use Rattle.operator.specs.Desks.{asked_of};

use channel::{ChannelFault, Claim, OfferFault, Taken};

/// One action of an operator: a call, with what it is given. A settlement gives the claim in hand.
// Kept with number, source and first one by one: a channel's public `make` takes them so.
#[derive(PartialEq, Eq, Debug, Drop)]
pub enum Action {
    Make {
        number: u8,
        source: Vec<u8>,
        first: u32,
    },
    Offer(Vec<u8>),
    Claim {
        time: u32,
    },
    Settle,
    Restart {
        number: u32,
    },
}

// Kept beside `Claim`, which can't be copied.
/// What a claim in hand asks for. Its request stands in front of the buffer until the next action.
#[derive(Clone, Copy, PartialEq, Eq, Debug)]
pub struct Asked {
    pub channel: u8,
    pub serial: u16,
    pub begin: u32,
    pub end: u32,
}

impl From<&Claim> for Asked {
    ghost from_gives = { λ k r. r ≡ asked_of k.now };

    fn from(claim: &Claim) -> Asked {
        Asked {
            channel: claim.channel(),
            serial: claim.serial(),
            begin: claim.begin(),
            end: claim.end(),
        }
    }
}

/// The reply to an action.
#[derive(Clone, Copy, PartialEq, Eq, Debug)]
pub enum Reply {
    Made(Result<(), ChannelFault>),
    Offered(Result<Taken, OfferFault>),
    Claimed(Result<Asked, ChannelFault>),
    /// How many numbers of the claim that was in hand are missing.
    Settled(u32),
    Restarted(Result<(), ChannelFault>),
    /// No claim is in hand, so none was settled.
    // Kept as a reply of its own: no call was made, so it is no settlement.
    NoClaim,
}
