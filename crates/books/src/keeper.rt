//! The keeper: a sink over checked tables.
ghost use Rattle.std.specs.Prelude.{◌≡◌, false, length};
ghost use Rattle.sink.specs.Events.{restart_of};
ghost use Rattle.sink.specs.Views.{Moves};
ghost use Rattle.book_model.specs.Entering.{points_of};
ghost use Rattle.book_model.specs.Keepers.{Kept, keeper_step, fresh, forgotten, heard};
ghost use Rattle.books.specs.Keepers.{keeper_means, tables_known};

use crate::tables::Tables;
use book_model::Start;
use sink::Sink;
use wire::{DeltaPoint, Message, Point, Points, PricePoint};

/// A keeper: the books of a channel, and the loss mark, which is the last number that may have been missed.
// Kept with `keeper_means` in the contracts: it is the meaning that the trait of sinks names; an `impl Model` would be a second one.
#[derive(Drop)]
pub struct BookKeeper<'a, 'b, 'c> {
    pub(crate) tables: Tables<'a, 'b, 'c>,
    pub(crate) mark: u32,
    // Whether nothing is known of any book, whatever the tables hold: losses come by the thousand, and each would clear them all.
    pub(crate) stale: bool,
}

impl<'a, 'b, 'c> BookKeeper<'a, 'b, 'c> {
    /// A keeper over checked tables that knows of no book, whatever the tables held: as after a restart at 1.
    pub fn new(tables: Tables<'a, 'b, 'c>) -> BookKeeper<'a, 'b, 'c>
        ensures fresh { keeper_means result ≡ fresh tables.entry.depth (length (tables_known tables.entry)) }
        ensures tables { result.tables ≡ tables.entry }
        ensures restarted { (k : Kept) → k.depth ≡ tables.entry.depth → length k.books ≡ length (tables_known tables.entry) → keeper_means result ≡ keeper_step (restart_of 1) k }
    {
        BookKeeper {
            tables,
            mark: 0,
            stale: true,
        }
    }

    /// The tables, which hold each book as it is known then.
    pub fn into_tables(self) -> Tables<'a, 'b, 'c>
        ensures depth { result.depth ≡ (keeper_means self.entry).depth }
        ensures books { tables_known result ≡ (keeper_means self.entry).books }
    {
        let BookKeeper {
            mut tables,
            stale,
            ..
        } = self;
        if stale {
            tables.forget();
        }
        tables
    }
}

impl BookKeeper<'_, '_, '_> {
    // Numbers up to this one may have been missed: nothing is known of any book.
    #[tactic(auto, using(crate::proofs::Stale::forgets))]
    fn forget(&mut self, number: u32)
        ensures { keeper_means self.new ≡ forgotten number (keeper_means self.old) }
    {
        self.mark = number;
        self.stale = true;
    }

    // Has the tables hold what is known.
    fn clear_stale(&mut self)
        ensures same { keeper_means self.new ≡ keeper_means self.old }
        ensures clear { self.new.stale ≡ false }
    {
        if self.stale {
            self.tables.forget();
            self.stale = false;
        }
    }

    // A message with points to the book with a number.
    fn hear<P: Point>(&mut self, number: u16, start: Start, scale: u8, points: Points<'_, P>)
        ensures { keeper_means self.new ≡ heard number start (points_of P.named scale points.entry) (keeper_means self.old) }
    {
        self.clear_stale();
        self.tables.tell(number, start, scale, points);
    }
}

impl<'a, 'b, 'c> Sink for BookKeeper<'a, 'b, 'c> {
    ghost Meaning = { Kept };

    ghost means = { keeper_means };

    ghost step = { keeper_step };

    fn data(&mut self, number: u32, message: Message<'_>) {
        match message {
            Message::Full {
                index,
                scale,
                points,
            } => self.hear(
                index,
                Start::Full(number),
                scale,
                Points::<PricePoint>::new(points),
            ),
            Message::Delta {
                index,
                scale,
                points,
            } => self.hear(
                index,
                Start::Delta(number),
                scale,
                Points::<DeltaPoint>::new(points),
            ),
            _ => {}
        }
    }

    fn loss(&mut self, number: u32) {
        self.forget(number);
    }

    fn refresh(&mut self, number: u32, message: Message<'_>) {
        if let Message::Full {
            index,
            scale,
            points,
        } = message
            && self.mark <= number
        {
            self.hear(
                index,
                Start::Refresh(number),
                scale,
                Points::<PricePoint>::new(points),
            );
        }
    }

    fn restart(&mut self, number: u32) {
        self.forget(number.saturating_sub(1));
    }
}

/// As a sink, a keeper means what `keeper_means` says, and its step is `keeper_step`: a theorem.
pub fn keeper_moves()
    ensures means { (k : BookKeeper) → ⟦<BookKeeper<'static, 'static, 'static> as Sink>⟧.means k ≡ keeper_means k }
    ensures step { Moves ⟦<BookKeeper<'static, 'static, 'static> as Sink>⟧.step keeper_step (λ (k : Kept). k) }
{}
