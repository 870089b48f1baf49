//! Two operators of one channel: the second goes on where the first stopped, and the promise is that of one run.
#![tactic(auto)]

ghost use Rattle.std.specs.Prelude.{◌≡◌, ◌++◌};
ghost use Rattle.channel.specs.Channels.{state};
ghost use Rattle.operator.specs.Desks.{desk, desks_after, replies_to, calls_of, placed, GoesBy};

use channel::Channel;
use operator::{Action, Desk, Reply};
use shelf::{LONGEST, Shelf};
use sink::Sink;
use slot_shelf::SlotShelf;
use std::alloc::{AllocError, Global};
use std::fmt;
use tally::{Row, Tally};

/// Has two operators run their lists at a desk, one after the other, over one buffer. The replies to each list go into a table of its own, as many as it has
/// places; the second operator goes on where the first stopped, and whatever is promised of a list of calls holds of both lists as one.
#[tactic(auto, using(operator::proofs::Lists::desks_join, operator::proofs::Calls::goes_list))]
fn relay<S: Sink, H: Shelf>(
    shared: &mut Desk<S, H>,
    first: &[Action],
    second: &[Action],
    buffer: &mut [u8],
    first_replies: &mut [Reply],
    second_replies: &mut [Reply],
)
    ensures after { desk (S.Sink) (H.Shelf) shared.new buffer.new ≡ desks_after S.Sink.step (first.now ++ second.now) (desk (S.Sink) (H.Shelf) shared.old buffer.old) }
    ensures first { first_replies.new ≡ placed (replies_to S.Sink.step first.now (desk (S.Sink) (H.Shelf) shared.old buffer.old)) first_replies.old }
    ensures second { second_replies.new ≡ placed (replies_to S.Sink.step second.now (desks_after S.Sink.step first.now (desk (S.Sink) (H.Shelf) shared.old buffer.old))) second_replies.old }
    ensures stands { GoesBy S.Sink.step (calls_of S.Sink.step (first.now ++ second.now) (desk (S.Sink) (H.Shelf) shared.old buffer.old)) (state (S.Sink) (H.Shelf) shared.old.channel) (state (S.Sink) (H.Shelf) shared.new.channel) }
{
    shared.run(first, buffer, first_replies);
    shared.run(second, buffer, second_replies);
}

// A symbol mapping, which is data: its number, and a body that nobody reads.
fn mapping(alloc: Global, number: u8) -> Result<Action, AllocError> {
    let head = [0, 28, 0, 35, 0, 0, 0, number, 0, 0, 0, 0, 115, 1, 1, 1];
    let mut packet = head.to_vec(alloc)?;
    packet.resize(30, 0)?;
    Ok(Action::Offer(packet))
}

// What a reply says, in a word and its numbers.
// Kept beside the line of a reply in `replies`: that has the request's bytes too, and a relay stands on no `replies`.
#[derive(Clone, Copy)]
struct Shown(Reply);

impl fmt::Display for Shown {
    fn fmt<W: fmt::Write>(&self, f: &mut fmt::Formatter<W>) -> fmt::Result {
        match self.0 {
            Reply::Offered(Ok(taken)) => {
                write!(f, "taken last={} handed={}", taken.last, taken.handed)
            }
            Reply::Offered(Err(fault)) => write!(f, "refused {}", fault.number()),
            Reply::Claimed(Ok(asked)) => write!(f, "claimed {} to {}", asked.begin, asked.end),
            Reply::Settled(missing) => write!(f, "settled missing={missing}"),
            _ => write!(f, "nothing"),
        }
    }
}

// The first operator opens the channel, sees 1 and 3 and claims the gap; the second gets 2, twice, and settles. What the second is told is printed.
fn show<S: Sink, H: Shelf>(rt: &HostRuntime, desk: &mut Desk<S, H>) -> anyhow::Result<()> {
    let alloc = rt.alloc();
    let opening = Action::Make {
        number: 7,
        source: b"RELAY".to_vec(alloc)?,
        first: 1,
    };
    let first = [
        opening,
        mapping(alloc, 1)?,
        mapping(alloc, 3)?,
        Action::Claim { time: 0 },
    ];
    let second = [mapping(alloc, 2)?, mapping(alloc, 2)?, Action::Settle];
    let mut buffer = [0; LONGEST];
    let mut first_replies = [Reply::NoClaim; 4];
    let mut second_replies = [Reply::NoClaim; 3];
    relay(
        desk,
        &first,
        &second,
        &mut buffer,
        &mut first_replies,
        &mut second_replies,
    );
    for reply in second_replies {
        println!(rt; "{}", Shown(reply))?;
    }
    Ok(())
}

fn main(rt: HostRuntime) -> anyhow::Result<()> {
    let mut rows = [Row::default(); 4];
    let channel = Channel::new(Tally::new(&mut rows), SlotShelf::new());
    let mut desk = Desk::new(channel);
    let end = show(&rt, &mut desk);
    let _closed = desk.close();
    end
}
