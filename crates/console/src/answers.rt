//! What the reader makes of a packet.
ghost use Rattle.std.specs.Prelude.{◌≡◌, ℕ, List, IfOk, Some, string_bytes};
ghost use Rattle.std.specs.Fmt.{DisplaysOnOk};
ghost use Rattle.wire.specs.Points.{points};
ghost use Rattle.wire.specs.Prices.{price};
ghost use Rattle.wire.specs.Reading.{reading, model};
ghost use Rattle.console.specs.Texts.{level_text, delta_text, point_lines, points_text, reading_text};

use crate::text::{Heading, PricedLevel};
use std::alloc::{AllocError, Global};
use std::fmt;
use std::marker::PhantomData;
use wire::{DeltaPoint, Message, Point, Points, PricePoint, read};

// A point of an update, as a line has it.
trait Line: Point {
    // What is said of the point at a scale.
    ghost said: { ℕ → Self → List ℕ };

    // Writes what is said, and ends no line.
    fn write_line<W: fmt::Write>(&self, scale: u8, f: &mut fmt::Formatter<W>) -> fmt::Result
        ensures { DisplaysOnOk W.Write.write_str_gives f.old result (Some (said scale self.now)) f.new };
}

// Kept beside the like function of `books`, which parts a level from its side: a row of a book has no use for a side, and a line has.
fn priced(point: PricePoint, scale: u8) -> PricedLevel
    ensures { result ≡ record { side = point.side; price = price point.numerator scale; volume = point.volume; orders = point.orders } }
{
    PricedLevel {
        side: point.side,
        price: point.price(scale),
        volume: point.volume,
        orders: point.orders,
    }
}

impl Line for PricePoint {
    ghost said = { level_text };

    fn write_line<W: fmt::Write>(&self, scale: u8, f: &mut fmt::Formatter<W>) -> fmt::Result {
        let level = priced(*self, scale);
        write!(f, "{level}")
    }
}

impl Line for DeltaPoint {
    ghost said = { delta_text };

    fn write_line<W: fmt::Write>(&self, scale: u8, f: &mut fmt::Formatter<W>) -> fmt::Result {
        let level = priced(self.level, scale);
        let reason = self.reason;
        let changed = self.changed;
        let link = self.link;
        write!(f, "{level} {reason} {changed} {link}")
    }
}

// An update's points, printed a line for each.
#[derive(Clone, Copy)]
struct PointLines<'a, P: Line> {
    scale: u8,
    points: &'a [u8],
    of: PhantomData<P>,
}

impl<'a, P: Line> fmt::Display for PointLines<'a, P> {
    ghost output = { λ lines. Some (point_lines (P.said lines.scale) (points P.BYTES P.at lines.points.now)) };

    fn fmt<W: fmt::Write>(&self, f: &mut fmt::Formatter<W>) -> fmt::Result {
        let scale = self.scale;
        for point in Points::<P>::new(self.points) {
            point.write_line(scale, f)?;
            f.write_str("\n")?;
        }
        Ok(())
    }
}

// A message's points, printed a line for each; nothing where it has none.
#[derive(Clone, Copy)]
struct MessageLines<'a>(Message<'a>);

impl<'a> fmt::Display for MessageLines<'a> {
    ghost output = { λ lines. Some (points_text (model lines.0)) };

    fn fmt<W: fmt::Write>(&self, f: &mut fmt::Formatter<W>) -> fmt::Result {
        match self.0 {
            Message::Full { scale, points, .. } => {
                let of = PhantomData::<PricePoint>;
                let lines = PointLines { scale, points, of };
                write!(f, "{lines}")
            }
            Message::Delta { scale, points, .. } => {
                let of = PhantomData::<DeltaPoint>;
                let lines = PointLines { scale, points, of };
                write!(f, "{lines}")
            }
            _ => Ok(()),
        }
    }
}

/// What the reader makes of a packet: a line, and for an update a line for each point.
// Kept as a function: what it writes is a result of the reader, a type of the language's, and each part of it prints itself.
pub fn read_answer(alloc: Global, packet: &[u8]) -> Result<String, AllocError>
    ensures { IfOk result (λ t. string_bytes t ≡ reading_text (reading packet.now)) }
{
    match read(packet) {
        Ok(packet) => {
            let heading = Heading(&packet);
            let points = MessageLines(packet.message);
            format!(in alloc; "{heading}\n{points}")
        }
        Err(fault) => format!(in alloc; "{fault}\n"),
    }
}
