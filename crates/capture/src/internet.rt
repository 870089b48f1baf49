//! The headers of IPv4 and UDP.
ghost use Rattle.std.specs.Prelude.{◌≡◌, ◌+◌, ◌≤◌, length};
ghost use Rattle.capture.specs.Numbers.{be16};
ghost use Rattle.capture.specs.Internet.{told_carried, carried_in, told_datagram, udp_in};

use crate::datagram::{Datagram, Skip};

// The bytes of an IPv4 header without options, and of a UDP header.
const IP_HEADER: usize = 20;

const UDP_HEADER: usize = 8;

// The offsets of an IPv4 header, its words of four bytes counted in the first byte's lower half.
const TOTAL: usize = 2;

const FLAGS: usize = 6;

const PROTOCOL: usize = 9;

const VERSION: u8 = 4;

const UDP: u8 = 17;

// The number of the two bytes at an offset.
fn u16_at(bytes: &[u8], at: usize) -> u16
    requires { at + 2 ≤ length bytes.now }
    ensures { result ≡ be16 bytes.now at }
{
    u16::from_be_bytes([bytes[at], bytes[at + 1]])
}

// What a whole IPv4 packet carries, and where to.
#[derive(Clone, Copy)]
pub(crate) struct Carried<'a> {
    pub(crate) group: [u8; 4],
    pub(crate) bytes: &'a [u8],
}

// The bytes that an IPv4 packet carries to UDP, without padding.
pub(crate) fn carried_by<'a>(packet: &'a [u8]) -> Result<Carried<'a>, Skip>
    ensures { told_carried result ≡ carried_in packet.now }
{
    if packet.len() < IP_HEADER {
        return Err(Skip::Truncated);
    }
    let header = (packet[0] % 16) as usize * 4;
    let total = u16_at(packet, TOTAL) as usize;
    if packet[0] / 16 != VERSION || header < IP_HEADER {
        return Err(Skip::Other);
    }
    if total < header || packet.len() < total {
        return Err(Skip::Truncated);
    }
    if packet[PROTOCOL] != UDP {
        return Err(Skip::Other);
    }
    // The lower 14 bits: more fragments, and the offset.
    if u16_at(packet, FLAGS) % 0x4000 != 0 {
        return Err(Skip::Fragment);
    }
    Ok(Carried {
        group: [packet[16], packet[17], packet[18], packet[19]],
        bytes: &packet[header..total],
    })
}

impl<'a> Carried<'a> {
    // The datagram that the bytes are.
    pub(crate) fn datagram(self) -> Result<Datagram<'a>, Skip>
        ensures { told_datagram result ≡ udp_in self.entry.group self.entry.bytes.now }
    {
        let [_, _, p0, p1, l0, l1, _, _, behind @ ..] = self.bytes else {
            return Err(Skip::Truncated);
        };
        let length = u16::from_be_bytes([*l0, *l1]) as usize;
        if length < UDP_HEADER || self.bytes.len() < length {
            return Err(Skip::Truncated);
        }
        Ok(Datagram {
            group: self.group,
            port: u16::from_be_bytes([*p0, *p1]),
            payload: &behind[..length - UDP_HEADER],
        })
    }
}
