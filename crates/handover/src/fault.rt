//! Why a call of a channel is refused.
ghost use Rattle.std.specs.Prelude.{◌≡◌, Some};
ghost use Rattle.handover.specs.declared.fault.OfferFault.TheVariants.{Reader, Shelf, Channel};
ghost use Rattle.handover.specs.Faults.{call_fault_text, channel_fault, offer_fault_number, offer_fault_text, request_refused};

use common::Refusal;
use shelf::PutFault;
use std::error::Error;
use std::fmt;
use wire::{ReadFault, RequestFault};

/// Why the channel itself refuses a call.
#[derive(Clone, Copy, PartialEq, Eq, Debug)]
pub enum ChannelFault {
    /// The scratch buffer is below 1,500 bytes, or the buffer of a claim below 44.
    Short,
    /// A reset, which names the next number that will be sent: the channel is to be restarted.
    Reset { next: u32 },
    /// A refresh that is not whole in one packet: its flag is not 6, or its link flag not 1.
    Parts,
    /// A refresh as of a number above last, or a range that begins above last + 1.
    Ahead,
    /// A number that is at most last or held, or a range that ends at most at last.
    Behind,
    /// A number above last + 75,000.
    Far,
    /// A range of over 1,000 numbers.
    Wide,
    /// A claim is out.
    Owed,
    /// There is no gap: the next number is held, or nothing above last is.
    Whole,
    /// 500 claims were made since the making.
    Spent,
    /// The claim is not the one that is out.
    Other,
    /// A first number of zero.
    Zero,
    /// The source id has not 1 to 20 nonzero bytes.
    Source,
    /// A making of a channel that is open, or another call of one that is closed.
    Phase,
}

impl ChannelFault {
    /// The refusal's number.
    pub fn number(self) -> u8
        ensures { result ≡ (channel_fault self).0 }
    {
        match self {
            ChannelFault::Short => 1,
            ChannelFault::Reset { .. } => 8,
            ChannelFault::Parts => 9,
            ChannelFault::Ahead => 10,
            ChannelFault::Behind => 11,
            ChannelFault::Far => 12,
            ChannelFault::Wide => 14,
            ChannelFault::Owed => 15,
            ChannelFault::Whole => 16,
            ChannelFault::Spent => 17,
            ChannelFault::Other => 18,
            ChannelFault::Zero => 19,
            ChannelFault::Source => 20,
            ChannelFault::Phase => 23,
        }
    }

    /// The next number that stands beside the number of a reset.
    pub fn next(self) -> Option<u32>
        ensures { result ≡ (channel_fault self).1 }
    {
        match self {
            ChannelFault::Reset { next } => Some(next),
            _ => None,
        }
    }
}

impl fmt::Display for ChannelFault {
    ghost output = { λ fault. Some (call_fault_text fault) };

    fn fmt<W: fmt::Write>(&self, f: &mut fmt::Formatter<W>) -> fmt::Result {
        write!(f, "{}", Refusal(self.number()))
    }
}

impl Error for ChannelFault {}

impl From<RequestFault> for ChannelFault {
    ghost from_gives = { λ f r. r ≡ request_refused f };

    fn from(fault: RequestFault) -> ChannelFault {
        match fault {
            RequestFault::Short => Self::Short,
            RequestFault::Source => Self::Source,
        }
    }
}

/// Why an offer is refused: by the reader, the shelf or the channel, with the fault of each whole.
#[derive(Clone, Copy, PartialEq, Eq, Debug)]
pub enum OfferFault {
    Reader(ReadFault),
    Shelf(PutFault),
    Channel(ChannelFault),
}

impl OfferFault {
    /// The refusal's number.
    pub fn number(self) -> u8
        ensures { result ≡ offer_fault_number self }
    {
        match self {
            OfferFault::Reader(f) => f.number(),
            OfferFault::Shelf(f) => f.number(),
            OfferFault::Channel(f) => f.number(),
        }
    }
}

impl From<ReadFault> for OfferFault {
    ghost from_gives = { λ f r. r ≡ Reader f };

    fn from(fault: ReadFault) -> OfferFault {
        Self::Reader(fault)
    }
}

impl From<PutFault> for OfferFault {
    ghost from_gives = { λ f r. r ≡ Shelf f };

    fn from(fault: PutFault) -> OfferFault {
        Self::Shelf(fault)
    }
}

impl From<ChannelFault> for OfferFault {
    ghost from_gives = { λ f r. r ≡ Channel f };

    fn from(fault: ChannelFault) -> OfferFault {
        Self::Channel(fault)
    }
}

impl fmt::Display for OfferFault {
    ghost output = { λ fault. Some (offer_fault_text fault) };

    fn fmt<W: fmt::Write>(&self, f: &mut fmt::Formatter<W>) -> fmt::Result {
        match self {
            OfferFault::Reader(fault) => write!(f, "{fault}"),
            OfferFault::Shelf(fault) => write!(f, "{fault} by shelf"),
            OfferFault::Channel(fault) => match fault.next() {
                Some(next) => write!(f, "{fault} by channel next={next}"),
                None => write!(f, "{fault} by channel"),
            },
        }
    }
}

impl Error for OfferFault {}
