//! The rows of a run: a line for each event.
ghost use Rattle.std.specs.Prelude.{◌≡◌, ℕ, List};
ghost use Rattle.wire.specs.Points.{points};
ghost use Rattle.wire.specs.Reading.{model};
ghost use Rattle.wire.specs.Texts.{side_text, reason_text};
ghost use Rattle.journal.specs.Tails.{meant, said};
ghost use Rattle.journal.specs.Columns.{RunColumns};
ghost use Rattle.journal.specs.RunTexts.{level_text, change_text, joined, update_text, message_text, message_row, run_row};

use crate::rows::Rows;
use crate::tail::Tail;
use wire::{DeltaPoint, Message, Point, Points, PricePoint, Reason, Side};

/// The names of a run's columns.
pub const RUN_HEADER: &str = "number,event,type,index,points\n";

// Kept beside what prints a side: its bytes go into the text with no formatter between.
fn side_name(side: Side) -> &'static [u8]
    ensures { result.now ≡ side_text side }
{
    match side {
        Side::Buy => b"buy",
        Side::Sell => b"sell",
    }
}

// Kept beside what prints a reason, as a side's name is.
fn reason_name(reason: Reason) -> &'static [u8]
    ensures { result.now ≡ reason_text reason }
{
    match reason {
        Reason::Order => b"O",
        Reason::Cancel => b"C",
        Reason::Execution => b"E",
        Reason::Multiple => b"X",
    }
}

// A point of an update, as a row has it.
trait RowPoint: Point {
    // The text of the point at a scale.
    ghost text: { ℕ → Self → List ℕ };

    fn write(self, tail: &mut Tail<'_>, scale: u8)
        ensures { meant tail.new ≡ said (text scale self) (meant tail.old) };
}

impl RowPoint for PricePoint {
    ghost text = { level_text };

    #[tactic(auto, using(crate::proofs::Told::pieces_join, std::proofs::lemmas::List::append_assoc))]
    fn write(self, tail: &mut Tail<'_>, scale: u8) {
        tail.push(side_name(self.side));
        tail.push(b" ");
        tail.push_price(self.price(scale));
        tail.push(b" ");
        tail.push_number(u64::from(self.volume));
        tail.push(b" ");
        tail.push_number(u64::from(self.orders));
    }
}

impl RowPoint for DeltaPoint {
    ghost text = { change_text };

    #[tactic(auto, using(crate::proofs::Told::pieces_join, std::proofs::lemmas::List::append_assoc))]
    fn write(self, tail: &mut Tail<'_>, scale: u8) {
        self.level.write(tail, scale);
        tail.push(b" ");
        tail.push(reason_name(self.reason));
        tail.push(b" ");
        tail.push_number(u64::from(self.changed));
        tail.push(b" ");
        tail.push_number(u64::from(self.link));
    }
}

// Writes the points of an update, parted by semicolons.
#[tactic(auto, using(crate::proofs::Told::pieces_join, crate::proofs::Told::said_nothing, std::proofs::lemmas::List::append_assoc))]
fn write_points<P: RowPoint>(tail: &mut Tail<'_>, scale: u8, bytes: &[u8])
    ensures { meant tail.new ≡ said (joined (P.text scale) (points P.BYTES P.at bytes.now)) (meant tail.old) }
{
    let mut points = Points::<P>::new(bytes);
    let Some(first) = points.next() else {
        return;
    };
    first.write(tail, scale);
    for point in points {
        tail.push(b";");
        point.write(tail, scale);
    }
}

// Writes the type, the index and the points of an update.
#[tactic(auto, using(crate::proofs::Told::pieces_join, std::proofs::lemmas::List::append_assoc))]
fn write_update<P: RowPoint>(tail: &mut Tail<'_>, kind: &[u8], index: u16, scale: u8, bytes: &[u8])
    ensures { meant tail.new ≡ said (update_text kind.now index (joined (P.text scale) (points P.BYTES P.at bytes.now))) (meant tail.old) }
{
    tail.push(kind);
    tail.push(b",");
    tail.push_number(u64::from(index));
    tail.push(b",");
    write_points::<P>(tail, scale, bytes);
}

fn write_message(tail: &mut Tail<'_>, message: Message<'_>)
    ensures { meant tail.new ≡ said (message_text (model message.entry)) (meant tail.old) }
{
    match message {
        Message::Reset { .. } => tail.push(b"reset,,"),
        Message::Unavailable { .. } => tail.push(b"unavailable,,"),
        Message::Mapping => tail.push(b"mapping,,"),
        Message::Full {
            index,
            scale,
            points,
        } => write_update::<PricePoint>(tail, b"full", index, scale, points),
        Message::Delta {
            index,
            scale,
            points,
        } => write_update::<DeltaPoint>(tail, b"delta", index, scale, points),
    }
}

// Writes the row of a message that came as an event of a kind.
#[tactic(auto, using(crate::proofs::Told::pieces_join, std::proofs::lemmas::List::append_assoc))]
fn write_row(tail: &mut Tail<'_>, number: u32, event: &[u8], message: Message<'_>)
    ensures { meant tail.new ≡ said (message_row event.now number (model message.entry)) (meant tail.old) }
{
    tail.push_number(u64::from(number));
    tail.push(event);
    write_message(tail, message);
    tail.push(b"\n");
}

/// The rows of a run: a line for each event.
#[derive(Drop)]
pub struct RunRows;

impl Rows for RunRows {
    ghost text = { run_row };

    fn data(tail: &mut Tail<'_>, number: u32, message: Message<'_>) {
        write_row(tail, number, b",data,", message);
    }

    #[tactic(auto, using(crate::proofs::Told::pieces_join, std::proofs::lemmas::List::append_assoc))]
    fn loss(tail: &mut Tail<'_>, number: u32) {
        tail.push_number(u64::from(number));
        tail.push(b",loss,,,\n");
    }

    fn refresh(tail: &mut Tail<'_>, number: u32, message: Message<'_>) {
        write_row(tail, number, b",refresh,", message);
    }

    #[tactic(auto, using(crate::proofs::Told::pieces_join, std::proofs::lemmas::List::append_assoc))]
    fn restart(tail: &mut Tail<'_>, number: u32) {
        tail.push_number(u64::from(number));
        tail.push(b",restart,,,\n");
    }
}

/// Each row of a run has a number and four more columns, in which no comma and no line end stands. A theorem.
pub fn columns_stand()
    ensures { RunColumns }
{}
