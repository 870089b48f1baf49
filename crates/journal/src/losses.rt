//! The rows of lost numbers: a line for each, and nothing for any other event.
ghost use Rattle.std.specs.Prelude.{◌≡◌};
ghost use Rattle.journal.specs.LossTexts.{loss_row};

use crate::rows::Rows;
use crate::tail::Tail;
use wire::Message;

/// The rows of lost numbers: a line for each, and nothing for any other event.
#[derive(Drop)]
pub struct LossRows;

impl Rows for LossRows {
    ghost text = { loss_row };

    #[tactic(auto, using(crate::proofs::Told::said_nothing))]
    fn data(_tail: &mut Tail<'_>, _number: u32, _message: Message<'_>) {}

    #[tactic(auto, using(crate::proofs::Told::pieces_join, std::proofs::lemmas::List::append_assoc))]
    fn loss(tail: &mut Tail<'_>, number: u32) {
        let number = u64::from(number);
        tail.push(b"loss,,,");
        tail.push_number(number);
        tail.push(b",");
        tail.push_number(number);
        tail.push(b",,,\n");
    }

    #[tactic(auto, using(crate::proofs::Told::said_nothing))]
    fn refresh(_tail: &mut Tail<'_>, _number: u32, _message: Message<'_>) {}

    #[tactic(auto, using(crate::proofs::Told::said_nothing))]
    fn restart(_tail: &mut Tail<'_>, _number: u32) {}
}
