//! The text of the answers to a channel's calls.
ghost use Rattle.std.specs.Prelude.{◌≡◌, ◌++◌, take, Some, codes};
ghost use Rattle.replies.specs.Calls.{reply_text, state_text};

use crate::hex::Hex;
use operator::Reply;
use std::fmt;
use tally::Counters;
use wire::REQUEST;

// The request, in front of a buffer.
// Kept as a test of the length: cut at the lesser of its bytes and the length, a wrong length fails in the proof file and not at the clause; and what `get(..REQUEST)` says where it gets nothing tells no proof that fewer are left.
fn request_in(buffer: &[u8]) -> &[u8]
    ensures { result.now ≡ take REQUEST buffer.now }
{
    if buffer.len() < REQUEST {
        buffer
    } else {
        &buffer[..REQUEST]
    }
}

/// The reply to an action, printed in a line that is ended; last and the buffer are as they stand after it.
#[derive(Clone, Copy)]
pub struct ReplyLine<'a> {
    pub reply: Reply,
    pub last: Option<u32>,
    pub buffer: &'a [u8],
}

impl<'a> fmt::Display for ReplyLine<'a> {
    ghost output = { λ line. Some (reply_text line.reply line.last line.buffer.now) };

    fn fmt<W: fmt::Write>(&self, f: &mut fmt::Formatter<W>) -> fmt::Result {
        let last = self.last.unwrap_or(0);
        match self.reply {
            Reply::Made(Ok(())) => writeln!(f, "made last={last}"),
            Reply::Offered(Ok(taken)) => {
                let last = taken.last;
                let handed = taken.handed;
                writeln!(f, "taken last={last} handed={handed}")
            }
            Reply::Claimed(Ok(asked)) => {
                let channel = asked.channel;
                let serial = asked.serial;
                let from = asked.begin;
                let to = asked.end;
                let request = Hex(request_in(self.buffer));
                writeln!(
                    f,
                    "claimed channel={channel} serial={serial} from={from} to={to} request={request}"
                )
            }
            Reply::Settled(missing) => writeln!(f, "settled missing={missing}"),
            Reply::Restarted(Ok(())) => writeln!(f, "restarted last={last}"),
            Reply::Offered(Err(fault)) => writeln!(f, "{fault}"),
            Reply::Made(Err(fault)) | Reply::Claimed(Err(fault)) | Reply::Restarted(Err(fault)) => {
                writeln!(f, "{fault}")
            }
            Reply::NoClaim => writeln!(f, "no claim"),
        }
    }
}

// Kept with 0 for the last of a closed channel, here and above: a line has a number there.
/// Where a channel stands, printed in a line that is ended: last, which a closed one has not, the units in use on its shelf, the loss mark and the counts of the tally.
#[derive(Clone, Copy)]
pub struct StateLine {
    pub last: Option<u32>,
    pub units: u32,
    pub mark: u32,
    pub counts: Counters,
}

impl fmt::Display for StateLine {
    ghost output = { λ line. Some (state_text line.last line.units line.mark line.counts) };

    fn fmt<W: fmt::Write>(&self, f: &mut fmt::Formatter<W>) -> fmt::Result {
        let last = self.last.unwrap_or(0);
        let units = self.units;
        let mark = self.mark;
        let missed = self.counts.missed;
        let losses = self.counts.losses;
        writeln!(
            f,
            "state last={last} units={units} mark={mark} missed={missed} losses={losses}"
        )
    }
}
