//! What a packet that is read says.
ghost use Rattle.std.specs.Prelude.{◌≡◌};
ghost use Rattle.wire.specs.Reading.{packet_model, class_of};

/// A packet's message. Full and delta hold their points as that part of the packet.
// Kept as bytes: a type of right points alone would ask more of those who build a message.
#[derive(Clone, Copy, PartialEq, Eq, Debug)]
pub enum Message<'a> {
    /// The next number that the channel will send.
    Reset {
        next: u32,
    },
    /// A range of numbers that will not be sent again.
    Unavailable {
        begin: u32,
        end: u32,
    },
    /// A symbol mapping, its body unread.
    Mapping,
    /// The whole book of one index.
    Full {
        index: u16,
        scale: u8,
        points: &'a [u8],
    },
    /// Changes to the book of one index.
    Delta {
        index: u16,
        scale: u8,
        points: &'a [u8],
    },
}

/// A packet: its number, flag and link flag, and its message.
// Kept as numbers: an enum of the flags would ask more of those who build a packet.
#[derive(Clone, Copy, PartialEq, Eq, Debug)]
pub struct Packet<'a> {
    pub number: u32,
    pub flag: u8,
    pub link: u8,
    pub message: Message<'a>,
}

/// What a packet is to a channel.
#[derive(Clone, Copy, PartialEq, Eq, Debug)]
pub enum Class {
    Reset,
    Unavailable,
    /// A symbol mapping, a full update or a delta in the channel's own run of numbers.
    Data,
    /// A full update out of a refresh, as of its number.
    Refresh,
}

impl Packet<'_> {
    /// What the packet is to a channel: a full update with flag 5 or 6 is a refresh.
    pub fn class(&self) -> Class
        ensures { result ≡ class_of (packet_model self.now) }
    {
        match self.message {
            Message::Reset { .. } => Class::Reset,
            Message::Unavailable { .. } => Class::Unavailable,
            Message::Full { .. } if matches!(self.flag, 5 | 6) => Class::Refresh,
            _ => Class::Data,
        }
    }
}
