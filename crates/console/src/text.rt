//! The texts of prices, levels and packets.
ghost use Rattle.std.specs.Prelude.{◌≡◌, length, ◌++◌, Some, codes};
ghost use Rattle.wire.specs.Points.{points as points_in};
ghost use Rattle.wire.specs.Reading.{packet_model};
ghost use Rattle.console.specs.Texts.{price_text, priced_level_text, update_text, heading};

use std::fmt;
use wire::{DeltaPoint, Message, Packet, Point, Points, PricePoint, Side};

/// A price in billionths, printed as dollars with nine decimals.
#[derive(Clone, Copy, PartialEq, Eq, Debug)]
pub struct Dollars(pub u64);

impl fmt::Display for Dollars {
    ghost output = { λ price. Some (price_text price.0) };

    #[tactic(auto, using(crate::proofs::Decimals::nine))]
    fn fmt<W: fmt::Write>(&self, f: &mut fmt::Formatter<W>) -> fmt::Result {
        let whole = self.0 / 1_000_000_000;
        let part = self.0 % 1_000_000_000;
        write!(f, "{whole}.{part:09}")
    }
}

/// A level of a side, as a line has it: its price in billionths, its volume and its count of orders.
#[derive(Clone, Copy, PartialEq, Eq, Debug)]
pub struct PricedLevel {
    pub side: Side,
    pub price: u64,
    pub volume: u32,
    pub orders: u16,
}

impl fmt::Display for PricedLevel {
    ghost output = { λ level. Some (priced_level_text level.side level.price level.volume level.orders) };

    fn fmt<W: fmt::Write>(&self, f: &mut fmt::Formatter<W>) -> fmt::Result {
        let side = self.side;
        let price = Dollars(self.price);
        let volume = self.volume;
        let orders = self.orders;
        write!(f, "  {side} {price} {volume} {orders}")
    }
}

// An update in one line: its kind, number, flag, link flag, index, scale and count of points.
#[derive(Clone, Copy)]
struct Update<'a, 'b> {
    kind: &'static str,
    packet: &'a Packet<'b>,
    index: u16,
    scale: u8,
    points: usize,
}

impl<'a, 'b> fmt::Display for Update<'a, 'b> {
    ghost output = { λ update. Some (update_text update.kind.now (packet_model update.packet.now) update.index update.scale update.points) };

    fn fmt<W: fmt::Write>(&self, f: &mut fmt::Formatter<W>) -> fmt::Result {
        let kind = self.kind;
        let number = self.packet.number;
        let flag = self.packet.flag;
        let link = self.packet.link;
        let index = self.index;
        let scale = self.scale;
        let points = self.points;
        write!(
            f,
            "{kind} number={number} flag={flag} link={link} index={index} scale={scale} points={points}"
        )
    }
}

// An update of a kind, by the bytes of its points.
fn update_of<'a, 'b, P: Point>(
    kind: &'static str,
    packet: &'a Packet<'b>,
    index: u16,
    scale: u8,
    points: &[u8],
) -> Update<'a, 'b>
    ensures { result ≡ record { kind = kind.entry; packet = packet.entry; index = index; scale = scale; points = length (points_in P.BYTES P.at points.now) } }
{
    Update {
        kind,
        packet,
        index,
        scale,
        points: Points::<P>::new(points).len(),
    }
}

/// A packet printed in one line, without its points.
#[derive(Clone, Copy)]
pub struct Heading<'a, 'b>(pub &'a Packet<'b>);

impl<'a, 'b> fmt::Display for Heading<'a, 'b> {
    ghost output = { λ packet. Some (heading (packet_model packet.0.now)) };

    fn fmt<W: fmt::Write>(&self, f: &mut fmt::Formatter<W>) -> fmt::Result {
        let packet = self.0;
        let number = packet.number;
        match packet.message {
            Message::Reset { next } => write!(f, "reset number={number} next={next}"),
            Message::Unavailable { begin, end } => {
                write!(f, "unavailable number={number} begin={begin} end={end}")
            }
            Message::Mapping => write!(f, "mapping number={number}"),
            Message::Full {
                index,
                scale,
                points,
            } => {
                let update = update_of::<PricePoint>("full", packet, index, scale, points);
                write!(f, "{update}")
            }
            Message::Delta {
                index,
                scale,
                points,
            } => {
                let update = update_of::<DeltaPoint>("delta", packet, index, scale, points);
                write!(f, "{update}")
            }
        }
    }
}
