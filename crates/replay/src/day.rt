//! A day: the records of a capture, offered one by one.

use crate::log::Log;
use crate::pieces::Pieces;
use crate::progress::Progress;
use crate::sinks::Day;
use capture::{Format, Record, RecordFault};
use replayer::{Filter, Replayer};
use reports::Skipped;
use shelf::{LONGEST, Shelf};
use sink::Sink;

/// How a capture ended: where it should, or where a record is damaged.
#[derive(Clone, Copy, PartialEq, Eq, Debug)]
pub enum End {
    Whole,
    Damaged(RecordFault),
}

/// How the records of a capture are read, and which of them are the channel's.
#[derive(Clone, Copy)]
pub struct Reading<'f, 'g> {
    pub format: Format,
    pub filter: Filter<'f, 'g>,
}

// Offers the datagram of a record, if it has one that is the channel's.
fn offer_record<S: Sink + Day, H: Shelf>(
    replayer: &mut Replayer<S, H>,
    log: &mut Log,
    reading: Reading<'_, '_>,
    record: &Record<'_>,
    scratch: &mut [u8],
) -> anyhow::Result<()> {
    let datagram = match reading.format.datagram(record) {
        Ok(datagram) => datagram,
        Err(skip) => {
            log.note_skip(skip);
            return Ok(());
        }
    };
    let group = u32::from_be_bytes(datagram.group);
    if !reading.filter.admits(group, datagram.port) {
        log.counts.note_skip(Skipped::Filtered);
        return Ok(());
    }
    let time = reading.format.time_of_day(record);
    let followed = replayer.offer(datagram.payload, time, scratch);
    log.copy_rows(replayer.desk().channel().sink())?;
    log.note(datagram.payload, time, &followed, scratch)
}

// Offers the record at hand, or reads on where it is not all there. Gives the end where that is reached.
fn step<S: Sink + Day, H: Shelf>(
    replayer: &mut Replayer<S, H>,
    log: &mut Log,
    reading: Reading<'_, '_>,
    pieces: &mut Pieces,
    scratch: &mut [u8],
) -> anyhow::Result<Option<End>> {
    match reading.format.read_record(pieces.bytes()) {
        Ok(record) => {
            let size = record.size();
            offer_record(replayer, log, reading, &record, scratch)?;
            pieces.advance(size);
            Ok(None)
        }
        Err(RecordFault::Short) => {
            if pieces.fill()? {
                Ok(None)
            } else if pieces.bytes().is_empty() {
                Ok(Some(End::Whole))
            } else {
                Ok(Some(End::Damaged(RecordFault::Short)))
            }
        }
        Err(fault) => Ok(Some(End::Damaged(fault))),
    }
}

/// Offers the records of a capture behind its header, to the end or the first damage.
pub(crate) fn replay<S: Sink + Day, H: Shelf>(
    replayer: &mut Replayer<S, H>,
    log: &mut Log,
    reading: Reading<'_, '_>,
    pieces: &mut Pieces,
    progress: &mut Progress<'_>,
) -> anyhow::Result<End> {
    let mut scratch = [0; LONGEST];
    // Kept with a bound: the records of a file have no end that a proof knows.
    for _ in 0..u64::MAX {
        if let Some(end) = step(replayer, log, reading, pieces, &mut scratch)? {
            return Ok(end);
        }
        progress.tell(pieces.offset())?;
    }
    Ok(End::Whole)
}

/// Settles the claim in hand at the end of a day, and writes what is left.
pub(crate) fn finish<S: Sink + Day, H: Shelf>(
    replayer: &mut Replayer<S, H>,
    log: &mut Log,
) -> anyhow::Result<()> {
    let settled = replayer.settle();
    log.copy_rows(replayer.desk().channel().sink())?;
    if let Some(missing) = settled {
        log.note_settled(missing)?;
    }
    log.flush()
}
