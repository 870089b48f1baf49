//! The running order of a channel's calls: what a history of calls leads to, and what is promised of its order, its last number and its books.
#![tactic(auto)]

ghost use Rattle.order.specs.Machine.{WaitingRises};
ghost use Rattle.order.specs.Promise.{OrderStands, LastStands, TakenOnce};
ghost use Rattle.order.specs.Books.{BooksStand};
ghost use Rattle.sink.specs.Views.{FirstMoves, SecondMoves};
ghost use Rattle.book_model.specs.Keepers.{keeper_step};

use sink::Sink;

/// The order of every earned history, number by number: a theorem.
#[tactic(auto, using(crate::proofs::Order::in_order))]
pub fn order_stands()
    ensures { OrderStands }
{}

/// The last number of every earned history: a theorem.
#[tactic(auto, using(crate::proofs::Order::reaches))]
pub fn last_stands()
    ensures { LastStands }
{}

/// Since a restart no number is taken as data twice: a theorem.
#[tactic(auto, using(crate::proofs::Order::once))]
pub fn taken_once()
    ensures { TakenOnce }
{}

/// What waits is in order of its numbers, each once: a theorem.
#[tactic(auto, using(crate::proofs::Rises::waiting_rises))]
pub fn waiting_rises()
    ensures { WaitingRises }
{}

/// The whole books of every earned history, in whatever of a sink moves as a keeper: a theorem.
#[tactic(auto, using(crate::proofs::Books::books_right))]
pub fn books_stand<S: Sink>()
    ensures { BooksStand S.Sink.step }
{}

/// What moves as a keeper in one of two sinks moves so in their twin: a theorem, so that the books of a keeper at any depth of twins are promised.
pub fn keepers_move<A: Sink, B: Sink>()
    ensures first { FirstMoves A.Sink.step B.Sink.step keeper_step }
    ensures second { SecondMoves A.Sink.step B.Sink.step keeper_step }
{}
