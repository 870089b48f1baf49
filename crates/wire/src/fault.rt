//! Why a packet is refused, or a request is not written.
ghost use Rattle.std.specs.Prelude.{◌≡◌, Some};
ghost use Rattle.wire.specs.Faults.{fault_number, fault_offset, request_fault_number};
ghost use Rattle.wire.specs.Texts.{fault_text, request_fault_text};

use common::Refusal;
use std::error::Error;
use std::fmt;

/// Why the reader refuses a packet.
#[derive(Clone, Copy, PartialEq, Eq, Debug)]
pub enum ReadFault {
    /// The length is outside 16 to 1,500 bytes.
    Length,
    /// MsgSize and 2 are not the length.
    Size,
    /// ProductID is not that of the feed.
    Product,
    /// MsgType is none of the five that a channel carries.
    Unknown,
    /// RetransFlag is none that the type may have.
    Flag,
    /// The body is at fault, at this offset of the packet; 0 where its length is one that the type can't have.
    Body { offset: usize },
}

impl ReadFault {
    /// The refusal's number.
    pub fn number(self) -> u8
        ensures { result ≡ fault_number self }
    {
        match self {
            ReadFault::Length => 2,
            ReadFault::Size => 3,
            ReadFault::Product => 4,
            ReadFault::Unknown => 5,
            ReadFault::Flag => 6,
            ReadFault::Body { .. } => 7,
        }
    }

    /// The offset that stands beside the number of a body fault.
    pub fn offset(self) -> Option<usize>
        ensures { result ≡ fault_offset self }
    {
        match self {
            ReadFault::Body { offset } => Some(offset),
            _ => None,
        }
    }
}

impl fmt::Display for ReadFault {
    ghost output = { λ fault. Some (fault_text fault) };

    fn fmt<W: fmt::Write>(&self, f: &mut fmt::Formatter<W>) -> fmt::Result {
        let refusal = Refusal(self.number());
        match self.offset() {
            Some(offset) => write!(f, "{refusal} by reader offset={offset}"),
            None => write!(f, "{refusal} by reader"),
        }
    }
}

impl Error for ReadFault {}

/// Why a request is not written.
#[derive(Clone, Copy, PartialEq, Eq, Debug)]
pub enum RequestFault {
    /// The buffer is below 44 bytes.
    Short,
    /// The source id has not 1 to 20 nonzero bytes.
    Source,
}

impl RequestFault {
    /// The refusal's number.
    pub fn number(self) -> u8
        ensures { result ≡ request_fault_number self }
    {
        match self {
            RequestFault::Short => 1,
            RequestFault::Source => 20,
        }
    }
}

impl fmt::Display for RequestFault {
    ghost output = { λ fault. Some (request_fault_text fault) };

    fn fmt<W: fmt::Write>(&self, f: &mut fmt::Formatter<W>) -> fmt::Result {
        write!(f, "{}", Refusal(self.number()))
    }
}

impl Error for RequestFault {}
