//! The points of a full update and of a delta: what their bytes say, and the letters of sides and reasons.
ghost use Rattle.std.specs.Prelude.{◌≡◌, Some, Ok};
ghost use Rattle.wire.specs.Prices.{price};
ghost use Rattle.wire.specs.Points.{side_of, reason_of, side_in, reason_in, side_letter, reason_letter, full_at, delta_at};
ghost use Rattle.wire.specs.Texts.{side_text, reason_text, unknown_letter_text};

use crate::price::billionths;
use std::error::Error;
use std::fmt;

/// The side of a level.
#[derive(Clone, Copy, PartialEq, Eq, Debug)]
pub enum Side {
    Buy,
    Sell,
}

impl fmt::Display for Side {
    ghost output = { λ side. Some (side_text side) };

    fn fmt<W: fmt::Write>(&self, f: &mut fmt::Formatter<W>) -> fmt::Result {
        f.write_str(match self {
            Side::Buy => "buy",
            Side::Sell => "sell",
        })
    }
}

impl From<Side> for u8 {
    ghost from_gives = { λ side letter. (letter ≡ side_letter side) × (side_of letter ≡ side) × (side_in letter ≡ Ok side) };

    /// The letter by which a packet names the side.
    fn from(side: Side) -> u8 {
        match side {
            Side::Buy => b'B',
            Side::Sell => b'S',
        }
    }
}

impl TryFrom<u8> for Side {
    type Error = UnknownLetter;

    ghost try_from_gives = { λ letter r. r ≡ side_in letter };

    fn try_from(letter: u8) -> Result<Side, UnknownLetter> {
        match letter {
            b'B' => Ok(Side::Buy),
            b'S' => Ok(Side::Sell),
            _ => Err(UnknownLetter(letter)),
        }
    }
}

/// Why a level changed.
#[derive(Clone, Copy, PartialEq, Eq, Debug)]
pub enum Reason {
    Order,
    Cancel,
    Execution,
    /// Several events at once.
    Multiple,
}

impl fmt::Display for Reason {
    ghost output = { λ reason. Some (reason_text reason) };

    fn fmt<W: fmt::Write>(&self, f: &mut fmt::Formatter<W>) -> fmt::Result {
        f.write_str(match self {
            Reason::Order => "O",
            Reason::Cancel => "C",
            Reason::Execution => "E",
            Reason::Multiple => "X",
        })
    }
}

impl From<Reason> for u8 {
    ghost from_gives = { λ reason letter. (letter ≡ reason_letter reason) × (reason_of letter ≡ reason) × (reason_in letter ≡ Ok reason) };

    /// The letter by which a packet names the reason.
    fn from(reason: Reason) -> u8 {
        match reason {
            Reason::Order => b'O',
            Reason::Cancel => b'C',
            Reason::Execution => b'E',
            Reason::Multiple => b'X',
        }
    }
}

impl TryFrom<u8> for Reason {
    type Error = UnknownLetter;

    ghost try_from_gives = { λ letter r. r ≡ reason_in letter };

    fn try_from(letter: u8) -> Result<Reason, UnknownLetter> {
        match letter {
            b'O' => Ok(Reason::Order),
            b'C' => Ok(Reason::Cancel),
            b'E' => Ok(Reason::Execution),
            b'X' => Ok(Reason::Multiple),
            _ => Err(UnknownLetter(letter)),
        }
    }
}

/// A letter that names no side, or no reason.
#[derive(Clone, Copy, PartialEq, Eq, Debug)]
pub struct UnknownLetter(pub u8);

impl fmt::Display for UnknownLetter {
    ghost output = { λ e. Some (unknown_letter_text e) };

    fn fmt<W: fmt::Write>(&self, f: &mut fmt::Formatter<W>) -> fmt::Result {
        write!(f, "unknown letter {}", self.0)
    }
}

impl Error for UnknownLetter {}

/// A level as a packet names it: the numerator of its price, its volume and its count of orders.
#[derive(Clone, Copy, PartialEq, Eq, Debug)]
pub struct PricePoint {
    pub numerator: u32,
    pub volume: u32,
    pub orders: u16,
    pub side: Side,
}

impl PricePoint {
    /// The price in billionths, at the scale of the message.
    pub fn price(self, scale: u8) -> u64
        ensures { result ≡ price self.numerator scale }
    {
        billionths(self.numerator, scale)
    }
}

/// A point of a delta: the level as it is now, and what changed it.
#[derive(Clone, Copy, PartialEq, Eq, Debug)]
pub struct DeltaPoint {
    pub level: PricePoint,
    pub changed: u32,
    pub reason: Reason,
    pub link: u32,
}

// Kept without a refusal: a packet that is read has a letter of a side, and of a reason; any other byte counts as the last of them.
impl From<[u8; 12]> for PricePoint {
    ghost from_gives = { λ bytes point. point ≡ full_at bytes 0 };

    fn from(bytes: [u8; 12]) -> PricePoint {
        let [p0, p1, p2, p3, v0, v1, v2, v3, o0, o1, side, _] = bytes;
        PricePoint {
            numerator: u32::from_be_bytes([p0, p1, p2, p3]),
            volume: u32::from_be_bytes([v0, v1, v2, v3]),
            orders: u16::from_be_bytes([o0, o1]),
            side: Side::try_from(side).unwrap_or(Side::Sell),
        }
    }
}

impl From<[u8; 28]> for DeltaPoint {
    ghost from_gives = { λ bytes point. point ≡ delta_at bytes 0 };

    fn from(bytes: [u8; 28]) -> DeltaPoint {
        let [
            p0,
            p1,
            p2,
            p3,
            v0,
            v1,
            v2,
            v3,
            c0,
            c1,
            c2,
            c3,
            n0,
            n1,
            side,
            reason,
            l0,
            l1,
            l2,
            l3,
            ..
        ] = bytes;
        let level = PricePoint {
            numerator: u32::from_be_bytes([p0, p1, p2, p3]),
            volume: u32::from_be_bytes([v0, v1, v2, v3]),
            orders: u16::from_be_bytes([n0, n1]),
            side: Side::try_from(side).unwrap_or(Side::Sell),
        };
        DeltaPoint {
            level,
            changed: u32::from_be_bytes([c0, c1, c2, c3]),
            reason: Reason::try_from(reason).unwrap_or(Reason::Multiple),
            link: u32::from_be_bytes([l0, l1, l2, l3]),
        }
    }
}
