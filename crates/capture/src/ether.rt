//! The link's header of a frame: the IPv4 packet behind it.
ghost use Rattle.std.specs.Prelude.{◌≡◌, List, Ok};
ghost use Rattle.capture.specs.Ether.{told_bytes, behind, typed_in, tagged, untagged, ethernet_in, cooked_in, cooked_two_in, packet_in};

use crate::datagram::Skip;
use crate::format::Link;

// The two addresses before the type of Ethernet, and a tag with its own type.
const ADDRESSES: usize = 12;

const TAG: usize = 4;

// The bytes before the type in the first kind of cooked header, and all of the second kind, whose type stands first.
const COOKED_TYPE: usize = 14;

const COOKED_TWO: usize = 20;

// The bytes after so many.
fn after<'a>(bytes: &'a [u8], count: usize) -> Result<&'a [u8], Skip>
    ensures { told_bytes result ≡ behind count bytes.now Ok }
{
    bytes.get(count..).ok_or(Skip::Truncated)
}

// The packet behind a type, where the type is that of IPv4.
fn typed<'a>(bytes: &'a [u8]) -> Result<&'a [u8], Skip>
    ensures { told_bytes result ≡ typed_in bytes.now }
{
    match bytes {
        [0x08, 0x00, packet @ ..] => Ok(packet),
        [_, _, ..] => Err(Skip::Other),
        _ => Err(Skip::Truncated),
    }
}

// Whether the type is that of an 802.1Q tag.
fn is_tagged(bytes: &[u8]) -> bool
    ensures { result ≡ tagged bytes.now }
{
    matches!(bytes, [0x81, 0x00, ..] | [0x88, 0xa8, ..])
}

// The packet of an Ethernet frame, behind its type and any 802.1Q tags.
fn ethernet<'a>(frame: &'a [u8]) -> Result<&'a [u8], Skip>
    ensures { told_bytes result ≡ ethernet_in frame.now }
{
    let mut rest = after(frame, ADDRESSES)?;
    while is_tagged(rest) {
        rest = after(rest, TAG)?;
    }
    typed(rest)
}

fn cooked<'a>(frame: &'a [u8]) -> Result<&'a [u8], Skip>
    ensures { told_bytes result ≡ cooked_in frame.now }
{
    typed(after(frame, COOKED_TYPE)?)
}

fn cooked_two<'a>(frame: &'a [u8]) -> Result<&'a [u8], Skip>
    ensures { told_bytes result ≡ cooked_two_in frame.now }
{
    let packet = after(frame, COOKED_TWO)?;
    match frame {
        [0x08, 0x00, ..] => Ok(packet),
        _ => Err(Skip::Other),
    }
}

impl Link {
    // The IPv4 packet in a frame.
    pub(crate) fn packet<'a>(self, frame: &'a [u8]) -> Result<&'a [u8], Skip>
        ensures { told_bytes result ≡ packet_in self frame.now }
    {
        match self {
            Link::Ethernet => ethernet(frame),
            Link::Ipv4 => Ok(frame),
            Link::Cooked => cooked(frame),
            Link::CookedTwo => cooked_two(frame),
        }
    }
}
