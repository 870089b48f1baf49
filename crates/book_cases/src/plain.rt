//! Books and a tally by plain maps, to hold the proved ones against.
use books::Level;
use std::alloc::{AllocError, Global};
use std::collections::BTreeMap;
use tally::Counters;
use wire::{Reason, Side};

/// The levels of a side, by price in billionths.
pub type Levels = BTreeMap<u64, Level>;

/// A point of a message: the level that it names, and what changed it.
#[derive(Clone, Copy, Debug)]
pub struct Point {
    pub side: Side,
    pub level: Level,
    pub reason: Reason,
    pub changed: u32,
}

impl Point {
    /// A level as it stands in a book.
    pub fn standing(side: Side, level: Level) -> Point {
        Point {
            side,
            level,
            reason: Reason::Order,
            changed: 0,
        }
    }
}

/// The two sides of one book.
#[derive(Clone, PartialEq, Drop)]
pub struct Sides {
    pub buys: Levels,
    pub sells: Levels,
}

impl Sides {
    pub fn new(alloc: Global) -> Sides {
        Sides {
            buys: Levels::new(alloc),
            sells: Levels::new(alloc),
        }
    }

    /// Removes or sets one level.
    pub fn enter(&mut self, point: Point) -> Result<(), AllocError> {
        match point.side {
            Side::Buy => enter_level(&mut self.buys, point.level),
            Side::Sell => enter_level(&mut self.sells, point.level),
        }
    }

    pub fn clear(&mut self) {
        self.buys.clear();
        self.sells.clear();
    }

    /// The levels of a side, the best first.
    pub fn best_first(&self, alloc: Global, side: Side) -> Result<Vec<Level>, AllocError> {
        match side {
            Side::Buy => self.buys.values().rev().copied().collect(alloc),
            Side::Sell => self.sells.values().copied().collect(alloc),
        }
    }

    /// The points of a message that names the whole book.
    pub fn points(&self, alloc: Global) -> Result<Vec<Point>, AllocError> {
        let buys = self.buys.values();
        let sells = self.sells.values();
        buys.map(|level| Point::standing(Side::Buy, *level))
            .chain(sells.map(|level| Point::standing(Side::Sell, *level)))
            .collect(alloc)
    }
}

fn enter_level(levels: &mut Levels, level: Level) -> Result<(), AllocError> {
    if level.volume == 0 {
        let _ = levels.remove(&level.price);
    } else {
        levels.insert(level.price, level)?;
    }
    Ok(())
}

/// A book as a keeper should have it.
#[derive(Drop)]
pub struct Book {
    // Kept as a flag: it is held against the keeper's, which has one.
    pub whole: bool,
    pub touched: u32,
    pub sides: Sides,
}

impl Book {
    pub fn new(alloc: Global) -> Book {
        Book {
            whole: false,
            touched: 0,
            sides: Sides::new(alloc),
        }
    }

    pub fn forget(&mut self) {
        self.whole = false;
        self.touched = 0;
        self.sides.clear();
    }

    pub fn begin(&mut self) {
        self.whole = true;
        self.sides.clear();
    }

    /// Enters points while the book is whole; one level too many, and it is empty and not whole.
    pub fn fill(&mut self, points: &[Point], depth: usize) -> Result<(), AllocError> {
        for point in points {
            if !self.whole {
                return Ok(());
            }
            self.sides.enter(*point)?;
            if self.sides.buys.len() > depth || self.sides.sells.len() > depth {
                self.whole = false;
                self.sides.clear();
            }
        }
        Ok(())
    }
}

/// A tally by a plain map.
#[derive(Drop)]
pub struct Volumes {
    pub rows: BTreeMap<u16, u64>,
    pub room: usize,
    pub counters: Counters,
}

impl Volumes {
    pub fn new(alloc: Global, room: usize) -> Volumes {
        Volumes {
            rows: BTreeMap::new(alloc),
            room,
            counters: Counters::default(),
        }
    }

    pub fn lose(&mut self) {
        self.counters.losses = self.counters.losses.saturating_add(1);
    }

    pub fn add(&mut self, index: u16, points: &[Point]) -> Result<(), AllocError> {
        for point in points {
            if point.reason == Reason::Execution {
                self.add_one(index, u64::from(point.changed))?;
            }
        }
        Ok(())
    }

    fn add_one(&mut self, index: u16, quantity: u64) -> Result<(), AllocError> {
        if let Some(row) = self.rows.get_mut(&index) {
            *row = row.saturating_add(quantity);
        } else if self.rows.len() < self.room {
            self.rows.insert(index, quantity)?;
        } else {
            self.counters.missed = self.counters.missed.saturating_add(1);
        }
        Ok(())
    }
}
