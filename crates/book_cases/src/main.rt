//! The proved keeper and tally beside plain maps: the same random events, every book and row compared after each.
#![tactic(auto)]

mod feed;
mod plain;

use anyhow::{anyhow, ensure};
use books::{BookKeeper, BookRow, Level, Tables};
use feed::{BOOKS, Kind, Update};
use plain::{Sides, Volumes};
use random::Random;
use sink::{Sink, Twin};
use std::alloc::{AllocError, Global};
use std::collections::BTreeMap;
use tally::{Row, Tally};
use wire::{Message, Side, read};

const EVENTS: u32 = 10_000;

const MAPPING: [u8; 30] = [
    0, 28, 0, 35, 0, 0, 0, 1, 0, 0, 0, 0, 115, 1, 1, 0, 0, 0, 0, 0, 0, 0, 0, 0, 0, 0, 0, 0, 0, 0,
];

// What the levels of tables held before a keeper had them.
const OLD_LEVEL: Level = Level {
    price: 7,
    volume: 7,
    orders: 7,
};

// A level of each side, as a full update has them: what the books of tables held before.
const OLD_POINTS: [u8; 24] = [
    0, 0, 0, 7, 0, 0, 0, 7, 0, 7, b'B', 0, 0, 0, 0, 8, 0, 0, 0, 7, 0, 7, b'S', 0,
];

// What the rows of a tally held before.
const OLD_ROW: Row = Row {
    index: 7,
    executed: 7,
};

// What stands beside the proved sinks, by index: the books as they should be kept, the books as they are in truth, and as they were some time ago.
#[derive(Drop)]
struct Beside {
    kept: BTreeMap<u16, plain::Book>,
    truth: BTreeMap<u16, Sides>,
    old: BTreeMap<u16, Sides>,
    old_number: u32,
    mark: u32,
    volumes: Volumes,
    depth: usize,
    used_refreshes: u32,
    whole_seen: usize,
    overflows: u32,
}

impl Beside {
    fn new(alloc: Global, depth: usize, room: usize) -> Result<Beside, AllocError> {
        let mut kept = BTreeMap::new(alloc);
        let mut truth = BTreeMap::new(alloc);
        // Kept as a loop: it fills two maps.
        for index in 1..=BOOKS {
            kept.insert(index, plain::Book::new(alloc))?;
            truth.insert(index, Sides::new(alloc))?;
        }
        let old = truth.clone()?;
        Ok(Beside {
            kept,
            truth,
            old,
            old_number: 0,
            mark: 0,
            volumes: Volumes::new(alloc, room),
            depth,
            used_refreshes: 0,
            whole_seen: 0,
            overflows: 0,
        })
    }

    fn forget(&mut self, mark: u32) {
        self.mark = mark;
        for book in self.kept.values_mut() {
            book.forget();
        }
    }

    // The truth moves on, whether the message is seen or not.
    fn happen(&mut self, update: &Update) -> Result<(), AllocError> {
        if let Some(sides) = self.truth.get_mut(&update.index) {
            if update.kind == Kind::Full {
                sides.clear();
            }
            for point in &update.points {
                sides.enter(*point)?;
            }
        }
        Ok(())
    }

    fn hear(&mut self, number: u32, update: &Update) -> Result<(), AllocError> {
        if let Some(book) = self.kept.get_mut(&update.index) {
            book.touched = number;
            if update.kind == Kind::Full {
                book.begin();
            }
            let before = book.whole;
            book.fill(update.points.as_slice(), self.depth)?;
            if before && !book.whole {
                self.overflows = self.overflows.saturating_add(1);
            }
        }
        if update.kind == Kind::Delta {
            self.volumes.add(update.index, update.points.as_slice())?;
        }
        Ok(())
    }

    fn refresh(&mut self, number: u32, update: &Update) -> Result<(), AllocError> {
        if let Some(book) = self.kept.get_mut(&update.index) {
            if book.touched <= number && self.mark <= number {
                book.begin();
                book.fill(update.points.as_slice(), self.depth)?;
                self.used_refreshes = self.used_refreshes.saturating_add(1);
            }
        }
        Ok(())
    }

    fn count_whole(&mut self) {
        let whole = self.kept.values().filter(|book| book.whole).count();
        self.whole_seen = self.whole_seen.saturating_add(whole);
    }

    // Keeps the truth of now, to be told again later.
    fn remember(&mut self, number: u32) -> Result<(), AllocError> {
        self.old = self.truth.clone()?;
        self.old_number = number;
        Ok(())
    }
}

type Sinks<'a, 'b, 'c, 'd> = Twin<BookKeeper<'a, 'b, 'c>, Tally<'d>>;

// The proved sinks, what stands beside them, and what makes their events.
#[derive(Drop)]
struct Trial<'a, 'b, 'c, 'd> {
    alloc: Global,
    sinks: Sinks<'a, 'b, 'c, 'd>,
    beside: Beside,
    random: Random,
    prices: u32,
}

impl Trial<'_, '_, '_, '_> {
    // A message with points in its turn, told to both, or lost.
    fn data(&mut self, number: u32) -> anyhow::Result<()> {
        let update = Update::any(self.alloc, &mut self.random, self.prices)?;
        self.beside.happen(&update)?;
        if self.random.below(20) == 0 {
            self.sinks.loss(number);
            self.beside.forget(number);
            self.beside.volumes.lose();
            return Ok(());
        }
        self.beside.hear(number, &update)?;
        let bytes = update.bytes(self.alloc)?;
        self.sinks.data(number, update.message(bytes.as_slice()));
        Ok(())
    }

    // A symbol mapping, which changes nothing.
    fn mapping(&mut self, number: u32) -> anyhow::Result<()> {
        let packet = read(&MAPPING)?;
        self.sinks.data(number, packet.message);
        Ok(())
    }

    // A true book as of now, or as of some time ago.
    fn refresh(&mut self, number: u32) -> anyhow::Result<()> {
        let index = 1 + self.random.below(u32::from(BOOKS)) as u16;
        let scale = 1 + self.random.below(9) as u8;
        let beside = &self.beside;
        let (number, books) = if self.random.below(3) == 0 {
            (beside.old_number, &beside.old)
        } else {
            (number, &beside.truth)
        };
        let Some(sides) = books.get(&index) else {
            return Err(anyhow!("books"));
        };
        let update = Update {
            kind: Kind::Full,
            index,
            scale,
            points: sides.points(self.alloc)?,
        };
        self.beside.refresh(number, &update)?;
        let bytes = update.bytes(self.alloc)?;
        self.sinks.refresh(number, update.message(bytes.as_slice()));
        Ok(())
    }

    fn event(&mut self, number: u32) -> anyhow::Result<()> {
        let before = number.saturating_sub(1);
        match self.random.below(100) {
            0..=74 => self.data(number)?,
            75..=94 => self.refresh(before)?,
            95 => self.mapping(number)?,
            96 => {
                self.sinks.restart(number);
                self.beside.forget(before);
            }
            _ => self.beside.remember(before)?,
        }
        self.compare()
    }

    // All events, with a comparison after each, in which every case is met.
    fn play(&mut self) -> anyhow::Result<()> {
        self.compare()?;
        for number in 1..=EVENTS {
            self.event(number)?;
        }
        ensure!(
            self.beside.used_refreshes > 100
                && self.beside.whole_seen > 100
                && self.beside.overflows > 0,
            "a case was never met"
        );
        Ok(())
    }

    // Every book and every row, compared.
    fn compare(&mut self) -> anyhow::Result<()> {
        same_books(self.alloc, self.sinks.first(), &self.beside)?;
        same_tally(self.sinks.second(), &self.beside.volumes)?;
        self.beside.count_whole();
        Ok(())
    }
}

// Compares every book.
fn same_books(
    alloc: Global,
    keeper: &BookKeeper<'_, '_, '_>,
    beside: &Beside,
) -> anyhow::Result<()> {
    ensure!(keeper.mark() == beside.mark, "mark");
    ensure!(
        keeper.book(0).is_none() && keeper.book(BOOKS + 1).is_none(),
        "a book too many"
    );
    for (index, owed) in &beside.kept {
        let Some(told) = keeper.book(*index) else {
            return Err(anyhow!("a book is missing"));
        };
        ensure!(
            told.whole == owed.whole && told.touched == owed.touched,
            "whole or touched"
        );
        let buys = owed.sides.best_first(alloc, Side::Buy)?;
        ensure!(
            same_side(keeper, *index, Side::Buy, buys.as_slice()),
            "buys"
        );
        let sells = owed.sides.best_first(alloc, Side::Sell)?;
        ensure!(
            same_side(keeper, *index, Side::Sell, sells.as_slice()),
            "sells"
        );
        ensure!(
            !owed.whole || beside.truth.get(index) == Some(&owed.sides),
            "a whole book is not the true one"
        );
    }
    Ok(())
}

// Whether a keeper's side has these levels, the best first, and no other: read as a whole, and each by its place.
fn same_side(keeper: &BookKeeper<'_, '_, '_>, index: u16, side: Side, owed: &[Level]) -> bool {
    keeper.levels(index, side) == owed
        && (0..owed.len()).all(|place| keeper.level(index, side, place) == owed.get(place).copied())
        && keeper.level(index, side, owed.len()).is_none()
}

fn same_tally(tally: &Tally<'_>, owed: &Volumes) -> anyhow::Result<()> {
    ensure!(
        (0..BOOKS + 2).all(|index| tally.executed(index) == owed.rows.get(&index).copied()),
        "executed"
    );
    ensure!(tally.counters() == owed.counters, "counters");
    Ok(())
}

// Whether nothing is known of any book in tables.
fn all_unknown(tables: &Tables<'_, '_, '_>) -> bool {
    (1..=BOOKS).all(|index| {
        tables.book(index).is_some_and(|book| !book.whole)
            && tables.levels(index, Side::Buy).is_empty()
            && tables.levels(index, Side::Sell).is_empty()
    })
}

// The levels of one side of every book.
fn old_levels(alloc: Global, depth: u16) -> Result<Vec<Level>, AllocError> {
    vec![in alloc; OLD_LEVEL; usize::from(BOOKS) * usize::from(depth)]
}

// Has a keeper know every book: the rows of its tables hold whole books then, with a level on each side.
fn know_all(keeper: &mut BookKeeper<'_, '_, '_>) -> anyhow::Result<()> {
    for index in 1..=BOOKS {
        let message = Message::Full {
            index,
            scale: 0,
            points: &OLD_POINTS,
        };
        keeper.data(9, message);
        ensure!(
            keeper.book(index).is_some_and(|book| book.whole),
            "a full book is not whole"
        );
    }
    Ok(())
}

// The rows of the books hold what an earlier keeper left there: whole books, and so they are left again.
fn run_trial(
    rt: &HostRuntime,
    books: &mut [BookRow],
    depth: u16,
    room: u16,
    prices: u32,
) -> anyhow::Result<()> {
    let alloc = rt.alloc();
    let mut buys = old_levels(alloc, depth)?;
    let mut sells = old_levels(alloc, depth)?;
    let mut rows = vec![in alloc; OLD_ROW; usize::from(room)]?;
    let tables = match Tables::check(books, &mut buys, &mut sells, usize::from(depth)) {
        Ok(tables) => tables,
        Err(refused) => return Err(refused.fault.into()),
    };
    let mut trial = Trial {
        alloc,
        sinks: Twin::new(BookKeeper::new(tables), Tally::new(&mut rows)),
        beside: Beside::new(alloc, usize::from(depth), usize::from(room))?,
        random: Random::new(2_463_534_242),
        prices,
    };
    trial.play()?;
    let Trial { mut sinks, .. } = trial;
    sinks.loss(EVENTS + 1);
    let (keeper, _tally) = sinks.into_parts();
    let tables = keeper.into_tables();
    ensure!(all_unknown(&tables), "a lost book is given back");
    let mut keeper = BookKeeper::new(tables);
    know_all(&mut keeper)?;
    println!(rt; "depth {depth}, rows {room}: {EVENTS} events agree")?;
    Ok(())
}

// Leaves whole books in the rows, before the first trial.
fn use_rows(alloc: Global, books: &mut [BookRow]) -> anyhow::Result<()> {
    let mut buys = old_levels(alloc, 1)?;
    let mut sells = old_levels(alloc, 1)?;
    match Tables::check(books, &mut buys, &mut sells, 1) {
        Ok(tables) => {
            let mut keeper = BookKeeper::new(tables);
            know_all(&mut keeper)
        }
        Err(refused) => Err(refused.fault.into()),
    }
}

fn run(rt: &HostRuntime) -> anyhow::Result<()> {
    let mut books = [BookRow::UNKNOWN; BOOKS as usize];
    use_rows(rt.alloc(), &mut books)?;
    run_trial(rt, &mut books, 1, 2, 3)?;
    run_trial(rt, &mut books, 2, 6, 4)?;
    run_trial(rt, &mut books, 8, 6, 16)
}

fn main(rt: HostRuntime) -> anyhow::Result<()> {
    run(&rt)
}
