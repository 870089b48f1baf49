//! A place for a claim, and for a reply.
ghost use Rattle.std.specs.Prelude.{◌≡◌, length, if◌then◌else◌, nat_lt, slice_set, Some, None};

use crate::action::Reply;
use channel::Claim;

// Takes a claim into an empty hand.
pub(crate) fn hold(hand: &mut Option<Claim>, claim: Claim)
    requires { hand.old ≡ None }
    ensures { hand.new ≡ Some claim }
{
    match hand.replace(claim) {
        None => {}
        Some(_other) => unreachable!(),
    }
}

// Puts a reply in its place of a table, if the table has it.
// Kept with the place's number: there may be more actions than places, so the two aren't zipped; and after `get_mut`, or an `iter_mut` that gives the next place
// by `next`, a proof knows the table's length and not its replies.
pub(crate) fn place(replies: &mut [Reply], i: usize, reply: Reply)
    ensures { replies.new ≡ (if nat_lt i (length replies.old) then slice_set replies.old i reply else replies.old) }
{
    if i < replies.len() {
        replies[i] = reply;
    }
}
