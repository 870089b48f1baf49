//! The records of a capture file: their header, and the captured part of a frame behind it.
ghost use Rattle.std.specs.Prelude.{◌≡◌, ◌+◌, ◌<◌, length, Some};
ghost use Rattle.capture.specs.Records.{told_record, record_in, millis_of_day};
ghost use Rattle.capture.specs.Pieces.{ShortWhereEnds, StandsWithMore, ReadsBack};
ghost use Rattle.capture.specs.Texts.{record_fault_text};

use crate::format::{Format, Order, Unit};
use std::error::Error;
use std::fmt;

/// The bytes of a record's header.
pub const RECORD_HEADER: usize = 16;

/// The longest captured part that a record may have.
pub const LONGEST_FRAME: usize = 262_144;

// The offsets of a record's header.
const SECONDS: usize = 0;

const FRACTION: usize = 4;

const CAPTURED: usize = 8;

const ORIGINAL: usize = 12;

const SECONDS_PER_DAY: u32 = 86_400;

const MILLIS_PER_SECOND: u32 = 1_000;

/// A frame as it was captured: its time since 1970, its length on the network, and the bytes of it that the file has.
#[derive(Clone, Copy, PartialEq, Eq, Debug)]
pub struct Record<'a> {
    pub seconds: u32,
    /// In the file's unit.
    pub fraction: u32,
    pub original: u32,
    pub frame: &'a [u8],
}

/// Why no record is read.
#[derive(Clone, Copy, PartialEq, Eq, Debug)]
pub enum RecordFault {
    /// The bytes end before the record does.
    Short,
    /// The captured length is above LONGEST_FRAME.
    Long { length: u32 },
}

impl fmt::Display for RecordFault {
    ghost output = { λ fault. Some (record_fault_text fault) };

    fn fmt<W: fmt::Write>(&self, f: &mut fmt::Formatter<W>) -> fmt::Result {
        match self {
            RecordFault::Short => f.write_str("the bytes end within a record"),
            RecordFault::Long { length } => write!(
                f,
                "a record claims {length} captured bytes, more than 262144"
            ),
        }
    }
}

impl Error for RecordFault {}

impl Record<'_> {
    /// The bytes of the header and the frame.
    pub fn size(&self) -> usize
        ensures { result ≡ 16 + length self.now.frame.now }
    {
        RECORD_HEADER + self.frame.len()
    }
}

// The record that the bytes begin with, its numbers in an order.
fn record_of<'a>(order: Order, bytes: &'a [u8]) -> Result<Record<'a>, RecordFault>
    ensures { told_record result ≡ record_in order bytes.now }
{
    if bytes.len() < RECORD_HEADER {
        return Err(RecordFault::Short);
    }
    let length = order.number_at(bytes, CAPTURED);
    if length as usize > LONGEST_FRAME {
        return Err(RecordFault::Long { length });
    }
    let end = RECORD_HEADER + length as usize;
    let frame = bytes.get(RECORD_HEADER..end).ok_or(RecordFault::Short)?;
    Ok(Record {
        seconds: order.number_at(bytes, SECONDS),
        fraction: order.number_at(bytes, FRACTION),
        original: order.number_at(bytes, ORIGINAL),
        frame,
    })
}

impl Format {
    /// The record that the bytes begin with; bytes behind it don't matter.
    pub fn read_record<'a>(self, bytes: &'a [u8]) -> Result<Record<'a>, RecordFault>
        ensures reads { told_record result ≡ record_in self.order bytes.now }
        ensures short { ShortWhereEnds self.order bytes.now (told_record result) }
        ensures stands { StandsWithMore self.order bytes.now (told_record result) }
        ensures back { ReadsBack self.order bytes.now (told_record result) }
    {
        record_of(self.order, bytes)
    }

    /// The milliseconds since midnight UTC. A fraction beyond its second counts as the second's last.
    pub fn time_of_day(self, record: &Record<'_>) -> u32
        ensures gives { result ≡ millis_of_day self.unit «record».now.seconds «record».now.fraction }
        ensures within { result < 86400000 }
    {
        let per_milli = match self.unit {
            Unit::Micros => 1_000,
            Unit::Nanos => 1_000_000,
        };
        let millis = (record.fraction / per_milli).min(MILLIS_PER_SECOND - 1);
        record.seconds % SECONDS_PER_DAY * MILLIS_PER_SECOND + millis
    }
}
