//! The journal: a sink that writes the rows of events.
ghost use Rattle.std.specs.Prelude.{◌≡◌};
ghost use Rattle.journal.specs.Tails.{Kept, meant, said};
ghost use Rattle.journal.specs.Laws.{RowsStand};

use crate::rows::Rows;
use crate::tail::Tail;
use sink::Sink;
use std::marker::PhantomData;
use wire::Message;

/// A sink that writes the row of each event, in the order in which it is told them.
#[derive(Drop)]
pub struct Journal<'a, R> {
    tail: Tail<'a>,
    of: PhantomData<R>,
}

impl<'a, R> Journal<'a, R> {
    /// A journal that goes on with a text.
    pub fn new(tail: Tail<'a>) -> Journal<'a, R>
        ensures { meant result.tail ≡ meant tail.entry }
    {
        Journal {
            tail,
            of: PhantomData,
        }
    }

    /// The text, to be read.
    pub fn tail(&self) -> &Tail<'a>
        ensures { result.now ≡ self.now.tail }
    {
        &self.tail
    }
}

impl<'a, R: Rows> Sink for Journal<'a, R> {
    ghost Meaning = { Kept };

    ghost means = { λ journal. meant journal.tail };

    ghost step = { λ event kept. said (R.text event) kept };

    fn data(&mut self, number: u32, message: Message<'_>) {
        R::data(&mut self.tail, number, message);
    }

    fn loss(&mut self, number: u32) {
        R::loss(&mut self.tail, number);
    }

    fn refresh(&mut self, number: u32, message: Message<'_>) {
        R::refresh(&mut self.tail, number, message);
    }

    fn restart(&mut self, number: u32) {
        R::restart(&mut self.tail, number);
    }
}

/// The text of a journal is the rows of its events: what was told since a count is exactly the rows of the events behind it. A theorem.
pub fn rows_stand<R: Rows>()
    ensures { RowsStand R.text ⟦<Journal<'static, R> as Sink>⟧.step }
{}
