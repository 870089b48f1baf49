//! Random updates, and the bytes of their points.
use crate::plain::Point;
use books::Level;
use random::Random;
use std::alloc::{AllocError, Global};
use wire::{Message, Reason, Side};

/// The books of a trial.
pub const BOOKS: u16 = 4;

const TENTH: u64 = 100_000_000;

#[derive(Clone, Copy, PartialEq, Eq, Debug)]
pub enum Kind {
    Full,
    Delta,
}

/// An update of the book of one index.
#[derive(Drop)]
pub struct Update {
    pub kind: Kind,
    pub index: u16,
    pub scale: u8,
    pub points: Vec<Point>,
}

impl Update {
    /// A random update, also of an index that no book has.
    pub fn any(alloc: Global, random: &mut Random, prices: u32) -> Result<Update, AllocError> {
        let kind = if random.below(8) == 0 {
            Kind::Full
        } else {
            Kind::Delta
        };
        let index = random.below(u32::from(BOOKS) + 2) as u16;
        let scale = random.below(10) as u8;
        let count = random.below(4) + 1;
        let points = (0..count)
            .map(|_| any_point(random, scale, prices))
            .collect(alloc)?;
        Ok(Update {
            kind,
            index,
            scale,
            points,
        })
    }

    /// The bytes of its points.
    pub fn bytes(&self, alloc: Global) -> Result<Vec<u8>, AllocError> {
        let mut bytes = Vec::new(alloc);
        for point in &self.points {
            let level = point.level;
            bytes.extend_from_slice(&numerator(level.price, self.scale).to_be_bytes())?;
            bytes.extend_from_slice(&level.volume.to_be_bytes())?;
            if self.kind == Kind::Delta {
                bytes.extend_from_slice(&point.changed.to_be_bytes())?;
            }
            bytes.extend_from_slice(&level.orders.to_be_bytes())?;
            bytes.push(u8::from(point.side))?;
            match self.kind {
                Kind::Full => bytes.push(0)?,
                Kind::Delta => {
                    bytes.push(u8::from(point.reason))?;
                    bytes.extend_from_slice(&[0, 0, 0, 7, 0, 0, 0, 0, 0, 0, 0, 0])?;
                }
            }
        }
        Ok(bytes)
    }

    /// Its message, over the bytes of its points.
    pub fn message<'a>(&self, points: &'a [u8]) -> Message<'a> {
        let index = self.index;
        let scale = self.scale;
        match self.kind {
            Kind::Full => Message::Full {
                index,
                scale,
                points,
            },
            Kind::Delta => Message::Delta {
                index,
                scale,
                points,
            },
        }
    }
}

// A random point at one of so many prices: whole dollars at scale 0, tenths of a dollar at the others.
fn any_point(random: &mut Random, scale: u8, prices: u32) -> Point {
    let tenths = if scale == 0 {
        (1 + u64::from(random.below(4))) * 10
    } else {
        1 + u64::from(random.below(prices.min(40)))
    };
    let volume = if random.below(3) == 0 {
        0
    } else {
        random.below(900)
    };
    let changed = if random.below(50) == 0 {
        u32::MAX
    } else {
        random.below(500)
    };
    let side = if random.below(2) == 0 {
        Side::Buy
    } else {
        Side::Sell
    };
    let orders = random.below(90) as u16;
    let reason = if random.below(3) == 0 {
        Reason::Execution
    } else {
        Reason::Order
    };
    Point {
        side,
        level: Level {
            price: tenths * TENTH,
            volume,
            orders,
        },
        reason,
        changed,
    }
}

// The numerator of a price at a scale; prices are tenths of a dollar, and at scale 0 whole dollars.
// Kept as a conversion by hand: the reader makes prices of numerators only.
fn numerator(price: u64, scale: u8) -> u32 {
    let tenths = (price / TENTH % 100) as u32;
    match scale.checked_sub(1) {
        None => tenths / 10,
        Some(places) => tenths.saturating_mul(10u32.saturating_pow(u32::from(places))),
    }
}
