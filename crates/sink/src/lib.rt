//! Sinks: what takes in the events of a channel.
#![tactic(auto)]

ghost use Rattle.std.specs.Prelude.{◌≡◌};
ghost use Rattle.wire.specs.Reading.{model};
ghost use Rattle.sink.specs.Events.{Event, data_of, loss_of, refresh_of, restart_of};
ghost use Rattle.sink.specs.Views.{both, FirstMoves, SecondMoves};

use wire::Message;

/// What takes events in: a machine whose state is the meaning of the sink. It refuses no event.
pub trait Sink {
    /// What a sink stands for.
    ghost Meaning: { Type 0 };

    ghost means: { Self → Meaning };

    /// What an event makes of the meaning.
    ghost step: { Event → Meaning → Meaning };

    /// The message with a number, in its turn.
    fn data(&mut self, number: u32, message: Message<'_>)
        ensures { means self.new ≡ step (data_of number (model message.entry)) (means self.old) };

    /// This number is lost.
    fn loss(&mut self, number: u32)
        ensures { means self.new ≡ step (loss_of number) (means self.old) };

    /// A message out of a refresh, as of a number.
    fn refresh(&mut self, number: u32, message: Message<'_>)
        ensures { means self.new ≡ step (refresh_of number (model message.entry)) (means self.old) };

    /// The channel begins again at a number.
    fn restart(&mut self, number: u32)
        ensures { means self.new ≡ step (restart_of number) (means self.old) };
}

/// Two sinks that are told the same: each event goes to the first and then to the second.
#[derive(Drop)]
pub struct Twin<A, B> {
    first: A,
    second: B,
}

impl<A, B> Twin<A, B> {
    /// Two sinks as one.
    pub fn new(first: A, second: B) -> Twin<A, B>
        ensures { result ≡ record { first = first; second = second } }
    {
        Twin { first, second }
    }

    /// The first of the two, to be read.
    pub fn first(&self) -> &A
        ensures { result.now ≡ self.now.first }
    {
        &self.first
    }

    /// The second of the two, to be read.
    pub fn second(&self) -> &B
        ensures { result.now ≡ self.now.second }
    {
        &self.second
    }

    /// Both sinks back.
    pub fn into_parts(self) -> (A, B)
        ensures { result ≡ (self.first, self.second) }
    {
        let Twin { first, second } = self;
        (first, second)
    }
}

impl<A: Sink, B: Sink> Sink for Twin<A, B> {
    ghost Meaning = { A.Sink.Meaning × B.Sink.Meaning };

    ghost means = { λ s. (A.Sink.means s.first, B.Sink.means s.second) };

    ghost step = { both A.Sink.step B.Sink.step };

    fn data(&mut self, number: u32, message: Message<'_>) {
        self.first.data(number, message);
        self.second.data(number, message);
    }

    fn loss(&mut self, number: u32) {
        self.first.loss(number);
        self.second.loss(number);
    }

    fn refresh(&mut self, number: u32, message: Message<'_>) {
        self.first.refresh(number, message);
        self.second.refresh(number, message);
    }

    fn restart(&mut self, number: u32) {
        self.first.restart(number);
        self.second.restart(number);
    }
}

/// A view of the first, or the second, of two sinks that moves as a third does moves so in their twin too: a theorem.
pub fn twin_moves<A: Sink, B: Sink, C: Sink>()
    ensures first { FirstMoves A.Sink.step B.Sink.step C.Sink.step }
    ensures second { SecondMoves A.Sink.step B.Sink.step C.Sink.step }
{}
