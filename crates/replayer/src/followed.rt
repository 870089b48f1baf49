//! What came of a packet.
ghost use Rattle.std.specs.Prelude.{◌≡◌, false, None, Err};

use channel::{ChannelFault, OfferFault, Taken};
use operator::Asked;

/// What came of a packet: the answer to its offer, and to each further call, in the order of the calls, where one was made.
#[derive(Clone, Copy, PartialEq, Eq, Debug)]
pub struct Followed {
    pub offered: Result<Taken, OfferFault>,
    /// How many numbers of the claim that was settled are still missing.
    pub settled: Option<u32>,
    /// What the claim that was made asks for; its request stands in front of the buffer.
    pub claimed: Option<Result<Asked, ChannelFault>>,
    /// The number at which the channel began again.
    pub restarted: Option<(u32, Result<(), ChannelFault>)>,
    /// The packet is a reset that was followed before.
    pub repeated: bool,
}

impl Followed {
    // A refusal that nothing follows.
    pub(crate) fn refused(fault: OfferFault) -> Followed
        ensures { result ≡ record { offered = Err fault; settled = None; claimed = None; restarted = None; repeated = false } }
    {
        Followed {
            offered: Err(fault),
            settled: None,
            claimed: None,
            restarted: None,
            repeated: false,
        }
    }
}
