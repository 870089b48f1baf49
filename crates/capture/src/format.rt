//! The header of a capture file: the byte order, the unit of fractions of a second, and what a frame begins with.
ghost use Rattle.std.specs.Prelude.{◌≡◌, ◌+◌, ◌≤◌, length, Some};
ghost use Rattle.capture.specs.Numbers.{u32_at};
ghost use Rattle.capture.specs.Formats.{unit_of, magic_in, link_of, format_in};
ghost use Rattle.capture.specs.Texts.{format_fault_text};

use std::error::Error;
use std::fmt;

/// The bytes of a file's header.
pub const FILE_HEADER: usize = 24;

// The offset of the link type; the magic number stands first.
const LINK: usize = 20;

/// The order of a number's bytes in the file's own headers.
#[derive(Clone, Copy, PartialEq, Eq, Debug)]
pub enum Order {
    Big,
    Little,
}

impl Order {
    /// The number of the four bytes at an offset.
    pub(crate) fn number_at(self, bytes: &[u8], at: usize) -> u32
        requires { at + 4 ≤ length bytes.now }
        ensures { result ≡ u32_at self bytes.now at }
    {
        let number = [bytes[at], bytes[at + 1], bytes[at + 2], bytes[at + 3]];
        match self {
            Order::Big => u32::from_be_bytes(number),
            Order::Little => u32::from_le_bytes(number),
        }
    }
}

/// The unit in which a record gives the fraction of its second.
#[derive(Clone, Copy, PartialEq, Eq, Debug)]
pub enum Unit {
    Micros,
    Nanos,
}

impl Unit {
    // The unit that a magic number tells.
    #[tactic(auto, unfolding(crate::specs::Formats::unit_of))]
    fn from_magic(magic: u32) -> Option<Unit>
        ensures { result ≡ unit_of magic }
    {
        match magic {
            0xa1b2_c3d4 => Some(Unit::Micros),
            0xa1b2_3c4d => Some(Unit::Nanos),
            _ => None,
        }
    }
}

/// What each frame of the file begins with.
#[derive(Clone, Copy, PartialEq, Eq, Debug)]
pub enum Link {
    Ethernet,
    Ipv4,
    /// Linux's cooked header of 16 bytes.
    Cooked,
    /// Linux's cooked header of 20 bytes.
    CookedTwo,
}

#[tactic(auto, unfolding(crate::specs::Formats::link_of))]
impl TryFrom<u16> for Link {
    type Error = FormatFault;

    ghost try_from_gives = { λ code r. r ≡ link_of code };

    fn try_from(code: u16) -> Result<Link, FormatFault> {
        match code {
            1 => Ok(Link::Ethernet),
            12 | 14 | 101 | 228 => Ok(Link::Ipv4),
            113 => Ok(Link::Cooked),
            276 => Ok(Link::CookedTwo),
            _ => Err(FormatFault::Link { code: code as u32 }),
        }
    }
}

/// Why a file's header is refused.
#[derive(Clone, Copy, PartialEq, Eq, Debug)]
pub enum FormatFault {
    /// Fewer than 24 bytes.
    Short,
    /// The first four bytes are no magic number in either order.
    Magic,
    /// The type of link is none that is read.
    Link { code: u32 },
}

impl fmt::Display for FormatFault {
    ghost output = { λ fault. Some (format_fault_text fault) };

    fn fmt<W: fmt::Write>(&self, f: &mut fmt::Formatter<W>) -> fmt::Result {
        match self {
            FormatFault::Short => f.write_str("the file ends within its header of 24 bytes"),
            FormatFault::Magic => f.write_str(
                "the file does not begin with the magic number of a pcap capture",
            ),
            FormatFault::Link { code } => write!(f, "frames of link type {code} are not read"),
        }
    }
}

impl Error for FormatFault {}

/// How a file's records are read.
#[derive(Clone, Copy, PartialEq, Eq, Debug)]
pub struct Format {
    pub order: Order,
    pub unit: Unit,
    pub link: Link,
}

// The order and the unit that the first four bytes tell.
#[tactic(auto, unfolding(crate::specs::Formats::magic_of))]
fn read_magic(bytes: &[u8]) -> Option<(Order, Unit)>
    requires { 4 ≤ length bytes.now }
    ensures { result ≡ magic_in bytes.now }
{
    if let Some(unit) = Unit::from_magic(Order::Big.number_at(bytes, 0)) {
        return Some((Order::Big, unit));
    }
    let unit = Unit::from_magic(Order::Little.number_at(bytes, 0))?;
    Some((Order::Little, unit))
}

impl Format {
    /// The format that a file's first 24 bytes tell.
    pub fn read(bytes: &[u8]) -> Result<Format, FormatFault>
        ensures { result ≡ format_in bytes.now }
    {
        if bytes.len() < FILE_HEADER {
            return Err(FormatFault::Short);
        }
        let (order, unit) = read_magic(bytes).ok_or(FormatFault::Magic)?;
        // The upper 16 bits are no part of the type.
        let code = order.number_at(bytes, LINK) & 0xffff;
        let link = Link::try_from(code as u16)?;
        Ok(Format { order, unit, link })
    }
}
