//! The UDP datagram inside a record's frame.
ghost use Rattle.std.specs.Prelude.{◌≡◌};
ghost use Rattle.capture.specs.Internet.{told_datagram};
ghost use Rattle.capture.specs.Datagrams.{datagram_in};
ghost use Rattle.capture.specs.Frames.{Delivers};

use crate::format::Format;
use crate::internet;
use crate::records::Record;

/// A UDP datagram: the address and port that it was sent to, and its payload.
#[derive(Clone, Copy, PartialEq, Eq, Debug)]
pub struct Datagram<'a> {
    pub group: [u8; 4],
    pub port: u16,
    pub payload: &'a [u8],
}

/// Why a record has no datagram.
#[derive(Clone, Copy, PartialEq, Eq, Debug)]
pub enum Skip {
    /// The frame was captured in part, or ends before its headers or lengths say.
    Truncated,
    /// A part of a larger datagram.
    Fragment,
    /// No IPv4, or no UDP.
    Other,
}

impl Format {
    /// The UDP datagram in a record's frame, or why it has none.
    pub fn datagram<'a>(self, record: &Record<'a>) -> Result<Datagram<'a>, Skip>
        ensures reads { told_datagram result ≡ datagram_in self.link «record».now.original «record».now.frame.now }
        ensures delivers { Delivers self.link «record».now.original «record».now.frame.now (told_datagram result) }
    {
        if record.frame.len() < record.original as usize {
            return Err(Skip::Truncated);
        }
        let packet = self.link.packet(record.frame)?;
        internet::carried_by(packet)?.datagram()
    }
}
