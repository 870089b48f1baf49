//! A capture file's bytes: its header, its records, and the UDP datagram inside a record's frame.
#![tactic(auto)]

ghost use Rattle.capture.specs.Cases.{Cases};

mod datagram;
mod ether;
mod format;
mod internet;
mod records;

pub use datagram::{Datagram, Skip};
pub use format::{FILE_HEADER, Format, FormatFault, Link, Order, Unit};
pub use records::{LONGEST_FRAME, RECORD_HEADER, Record, RecordFault};

/// Worked cases of headers, records, times and frames: a theorem.
#[tactic(auto, using(crate::proofs::Cases::cases))]
pub fn cases_hold()
    ensures { Cases }
{}
