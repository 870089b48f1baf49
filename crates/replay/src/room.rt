//! The memory of a replay, and the replay over it.

use crate::day::{End, Reading, finish, replay};
use crate::log::Log;
use crate::options::Options;
use crate::pieces::Pieces;
use crate::progress::Progress;
use crate::sinks::Day;
use any_shelf::AnyShelf;
use anyhow::anyhow;
use books::{BookKeeper, BookRow, Level, Tables};
use capture::{FILE_HEADER, Format, RecordFault};
use channel::{Channel, ChannelFault};
use journal::{Journal, LossRows, RunRows, Tail};
use operator::Desk;
use replayer::{Filter, Replayer};
use script::ShelfKind;
use session::{open_shelf, table_sizes};
use shelf::{Quota, Shelf};
use sink::{Sink, Twin};
use std::fs::File;
use tally::{Row, Tally};

/// The rows of the losses that come of one packet have room in this many bytes: a packet declares a thousand numbers at most.
const LOSS_ROOM: usize = 1 << 16;

/// The rows that come of one packet and of a record of the shelf have room in this many bytes: a row has three bytes or four for each byte of its packet.
const ROWS_OF_RECORD: usize = 256;

const ROWS_OF_PACKET: usize = 1 << 18;

// The buffer of the run's rows: twice what those of all that waits on the shelf may take, since a tail keeps half of its buffer.
fn rows_buffer(kind: ShelfKind) -> usize {
    match kind {
        ShelfKind::Slots => 2 * ROWS_OF_PACKET,
        ShelfKind::Chain { records } => {
            2 * (ROWS_OF_PACKET + records.min(65_536) as usize * ROWS_OF_RECORD)
        }
    }
}

// A capture that is opened: its bytes, what its header says, and how long it is.
#[derive(Drop)]
struct Opened {
    pieces: Pieces,
    format: Format,
    size: u64,
}

fn open_capture(rt: &HostRuntime, name: &str) -> anyhow::Result<Opened> {
    let alloc = rt.alloc();
    let file = match File::open(rt, name) {
        Ok(file) => file,
        Err(fault) => return Err(anyhow!(format!(in alloc; "{name}: {fault}")?)),
    };
    let size = file.metadata()?.len();
    let mut pieces = Pieces::new(alloc, file)?;
    // Each reading gives a byte at least, where the file has not ended.
    for _ in 0..FILE_HEADER {
        if pieces.bytes().len() >= FILE_HEADER || !pieces.fill()? {
            break;
        }
    }
    match Format::read(pieces.bytes()) {
        Ok(format) => {
            pieces.advance(FILE_HEADER);
            Ok(Opened {
                pieces,
                format,
                size,
            })
        }
        Err(fault) => Err(anyhow!(format!(in alloc; "{name}: at byte 0: {fault}")?)),
    }
}

// A capture that is damaged at a byte.
fn damaged(rt: &HostRuntime, name: &str, offset: u64, fault: RecordFault) -> anyhow::Result<()> {
    Err(anyhow!(format!(in rt.alloc();
        "{name}: damaged at byte {offset}: {fault}; what stands before it was replayed"
    )?))
}

// Replays what is behind the header of a capture, and writes the reports; then tells of a damage.
fn replay_day<S: Sink + Day, H: Shelf>(
    rt: &HostRuntime,
    options: &Options<'_>,
    opened: &mut Opened,
    replayer: &mut Replayer<S, H>,
) -> anyhow::Result<()> {
    let mut log = Log::create(rt, options.out)?;
    let mut progress = Progress::new(rt, opened.size);
    let filter = Filter {
        groups: options.groups.as_slice(),
        ports: options.ports.as_slice(),
    };
    let reading = Reading {
        format: opened.format,
        filter,
    };
    let end = replay(
        replayer,
        &mut log,
        reading,
        &mut opened.pieces,
        &mut progress,
    )?;
    finish(replayer, &mut log)?;
    let channel = replayer.desk().channel();
    channel
        .sink()
        .report(rt, options, log.counts, channel.last())?;
    match end {
        End::Whole => Ok(()),
        End::Damaged(fault) => damaged(rt, options.file, opened.pieces.offset(), fault),
    }
}

// A channel that could not be opened.
fn closed(rt: &HostRuntime, fault: ChannelFault) -> anyhow::Result<()> {
    let message = format!(in rt.alloc();
        "the channel can't be opened: {fault} (19: --first is 0; 20: --source has not 1 to 20 bytes)"
    )?;
    Err(anyhow!(message))
}

// Opens the channel, replays a capture over it and closes it.
fn replay_over<S: Sink + Day + Drop, H: Shelf + Drop>(
    rt: &HostRuntime,
    options: &Options<'_>,
    opened: &mut Opened,
    channel: Channel<S, H>,
) -> anyhow::Result<()> {
    let mut desk = Desk::new(channel);
    let made = desk.make(options.channel, options.source.as_bytes(), options.first);
    let mut replayer = Replayer::new(desk);
    let ended = match made {
        Ok(()) => replay_day(rt, options, opened, &mut replayer),
        Err(fault) => closed(rt, fault),
    };
    let _closed = replayer.into_desk().close();
    ended
}

// Replays a capture over a shelf, with tables of its own.
fn replay_tables(
    rt: &HostRuntime,
    options: &Options<'_>,
    opened: &mut Opened,
    shelf: AnyShelf,
) -> anyhow::Result<()> {
    let alloc = rt.alloc();
    let sizes = table_sizes(options.setup);
    let mut run = vec![in alloc; 0; rows_buffer(options.setup.shelf)]?;
    let mut losses = vec![in alloc; 0; 2 * LOSS_ROOM]?;
    let mut books = vec![in alloc; BookRow::UNKNOWN; sizes.books]?;
    let mut buys = vec![in alloc; Level::default(); sizes.levels]?;
    let mut sells = vec![in alloc; Level::default(); sizes.levels]?;
    let mut rows = vec![in alloc; Row::default(); sizes.rows]?;
    let tables = Tables::check(
        books.as_mut_slice(),
        buys.as_mut_slice(),
        sells.as_mut_slice(),
        sizes.depth,
    );
    match tables {
        Ok(tables) => {
            let run = Journal::<RunRows>::new(Tail::new(run.as_mut_slice()));
            let losses = Journal::<LossRows>::new(Tail::new(losses.as_mut_slice()));
            let board = Twin::new(BookKeeper::new(tables), Tally::new(rows.as_mut_slice()));
            let sinks = Twin::new(Twin::new(run, losses), board);
            let channel = Channel::new(sinks, Quota::new(shelf, options.setup.limit));
            replay_over(rt, options, opened, channel)
        }
        Err(_) => Err(anyhow!("--books is 1 to 1024, and --depth 1 to 4096")),
    }
}

/// Replays a capture.
pub fn replay_file(rt: &HostRuntime, options: &Options<'_>) -> anyhow::Result<()> {
    let mut opened = open_capture(rt, options.file)?;
    match open_shelf(rt.alloc(), options.setup.shelf)? {
        Ok(shelf) => replay_tables(rt, options, &mut opened, shelf),
        Err(_) => Err(anyhow!("--shelf chain=RECORDS wants 26 to 65535 records")),
    }
}
