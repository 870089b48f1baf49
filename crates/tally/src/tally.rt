//! The tally: executed volume by index.
ghost use Rattle.std.specs.Prelude.{◌≡◌, ◌≤◌, length, take};
ghost use Rattle.rank.specs.Rows.{Sorted, inserted, Sorted-prop};
ghost use Rattle.wire.specs.Points.{points_in_delta};
ghost use Rattle.tally.specs.Rows.{row_key, row_before};

use crate::row::{ByIndex, Row};
use ladder::enter;
use sink::Sink;
use wire::{DeltaPoint, Message, Points, Reason};

/// The two counts of a tally; each stops at the largest number of 32 bits.
#[derive(Clone, Copy, PartialEq, Eq, Debug, Default)]
pub struct Counters {
    /// How many executions found no free row.
    pub missed: u32,
    /// How many numbers were lost.
    pub losses: u32,
}

/// A sink that adds up what is executed, a row for each index, in as many rows as were lent.
// Kept with the count of the used rows beside them: the rows are lent, since memory is fixed.
// Kept with `meant` in the contracts: it is the meaning that the trait of sinks names, and crates above speak of a tally by it; an `impl Model` would be a second one.
#[derive(Drop)]
pub struct Tally<'a> {
    pub(crate) rows: &'a mut [Row],
    pub(crate) used: usize,
    pub(crate) counters: Counters,
    ghost few: { used ≤ length rows.now },
    ghost ordered: { Sorted row_key row_before (take used rows.now) } by { Sorted-prop row_key row_before (take used rows.now) },
}

impl<'a> Tally<'a> {
    ghost use Rattle.sink.specs.Events.{restart_of};
    ghost use Rattle.tally.specs.Tallies.{meant, fresh, lent, step as stepped};
    ghost use Rattle.tally.specs.Laws.{InOrder};

    /// A tally of the lent rows, all free and as they were. A restart leaves a tally as it is, so a new one stands as after a restart at 1.
    pub fn new(rows: &'a mut [Row]) -> Tally<'a>
        ensures free { meant result ≡ fresh (length rows.old) }
        ensures restarted { meant result ≡ stepped (restart_of 1) (fresh (length rows.old)) }
        ensures rows { lent result ≡ rows.old }
        ensures ordered { InOrder (meant result) }
    {
        Tally {
            rows,
            used: 0,
            counters: Counters::default(),
        }
    }
}

impl Tally<'_> {
    ghost use Rattle.tally.specs.Tallies.{meant, become, added, point_added, points_added};

    // Adds a row, or counts a miss where none is free.
    fn add_row(&mut self, row: Row)
        ensures { meant self.new ≡ become (inserted row_key row_before row (meant self.old).rows) (meant self.old) }
    {
        match enter::<ByIndex>(self.rows, self.used, row) {
            Some(used) => self.used = used,
            None => self.counters.missed = self.counters.missed.saturating_add(1),
        }
    }

    // Adds to the row of an index, or counts a miss where no row is free.
    // A row that is there is written where `find` found it, so that it is looked for once.
    fn add(&mut self, index: u16, quantity: u32)
        ensures { meant self.new ≡ added index quantity (meant self.old) }
    {
        match self.place(index) {
            Ok(at) => {
                let executed = self.rows[at].plus(quantity);
                self.rows[at] = Row { index, executed };
            }
            Err(_) => self.add_row(Row {
                index,
                executed: u64::from(quantity),
            }),
        }
    }

    // Adds what a point says was executed.
    fn add_point(&mut self, index: u16, point: DeltaPoint)
        ensures { meant self.new ≡ point_added index point (meant self.old) }
    {
        if point.reason == Reason::Execution {
            self.add(index, point.changed);
        }
    }

    // Adds what the points of a delta say, in their order.
    fn add_points(&mut self, index: u16, points: &[u8])
        ensures { meant self.new ≡ points_added index (points_in_delta points.now) (meant self.old) }
    {
        for point in Points::<DeltaPoint>::new(points) {
            self.add_point(index, point);
        }
    }
}

impl<'a> Sink for Tally<'a> {
    ghost use Rattle.tally.specs.Tallies.{Counts, meant, step as stepped};

    ghost Meaning = { Counts };

    ghost means = { meant };

    ghost step = { stepped };

    fn data(&mut self, _number: u32, message: Message<'_>) {
        if let Message::Delta { index, points, .. } = message {
            self.add_points(index, points);
        }
    }

    fn loss(&mut self, _number: u32) {
        self.counters.losses = self.counters.losses.saturating_add(1);
    }

    fn refresh(&mut self, _number: u32, _message: Message<'_>) {}

    fn restart(&mut self, _number: u32) {}
}
