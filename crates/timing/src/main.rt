//! Offers the packets of a capture to a channel, and prints what came of it and how long it took: bench/README.md.
#![tactic(auto)]

mod digest;

use anyhow::anyhow;
use books::{BookKeeper, BookRow, Level, Tables};
use capture::{FILE_HEADER, Format};
use chain_shelf::{ChainShelf, MOST_RECORDS, RECORD, Region};
use channel::{Channel, ChannelFault, OfferFault};
use digest::{of_books, of_tally};
use shelf::{LONGEST, Shelf};
use sink::{Sink, Twin};
use std::alloc::{AllocError, Global};
use std::mem::size_of;
use std::time::Instant;
use std::{env, fs};
use tally::{Row, Tally};

const HELP: &str = "usage: timing FILE DEPTH\n";

const BOOKS: u16 = 1_024;

const ROWS: usize = 1_024;

// The payloads of a capture's datagrams.
fn payloads(alloc: Global, file: &[u8]) -> anyhow::Result<Vec<&[u8]>> {
    let format = Format::read(file)?;
    let mut found = Vec::new(alloc);
    let mut rest = file.get(FILE_HEADER..).unwrap_or_default();
    // Kept with a bound: no file has more records than bytes.
    for _ in 0..file.len() {
        if rest.is_empty() {
            break;
        }
        let record = format.read_record(rest)?;
        if let Ok(datagram) = format.datagram(&record) {
            found.push(datagram.payload)?;
        }
        rest = rest.get(record.size()..).unwrap_or_default();
    }
    Ok(found)
}

// Offers packets, and restarts at each reset: how many were refused.
fn offer_all<S: Sink, H: Shelf>(
    channel: &mut Channel<S, H>,
    packets: &[&[u8]],
) -> Result<u64, ChannelFault> {
    let mut scratch = [0; LONGEST];
    let mut refused = 0_u64;
    for packet in packets {
        match channel.offer(packet, &mut scratch) {
            Ok(_) => {}
            Err(OfferFault::Channel(ChannelFault::Reset { next })) => {
                refused = refused.saturating_add(1);
                channel.restart(next)?;
            }
            Err(_) => refused = refused.saturating_add(1),
        }
    }
    Ok(refused)
}

fn run(rt: &HostRuntime, name: &str, depth: u16) -> anyhow::Result<()> {
    let alloc = rt.alloc();
    let depth = usize::from(depth);
    let file = fs::read(rt, name)?;
    let packets = payloads(alloc, &file)?;
    let mut books = vec![in alloc; BookRow::UNKNOWN; usize::from(BOOKS)]?;
    let levels = usize::from(BOOKS) * depth;
    let mut buys = vec![in alloc; Level::default(); levels]?;
    let mut sells = vec![in alloc; Level::default(); levels]?;
    let mut rows = vec![in alloc; Row::default(); ROWS]?;
    let region = Region::try_from(vec![in alloc; 0_u8; MOST_RECORDS * RECORD]?)?;
    let tables = match Tables::check(&mut books, &mut buys, &mut sells, depth) {
        Ok(tables) => tables,
        Err(refused) => return Err(refused.fault.into()),
    };
    let board = Twin::new(BookKeeper::new(tables), Tally::new(&mut rows));
    let mut channel = Channel::new(board, ChainShelf::new(region));
    channel.make(1, b"TIMING", 1)?;
    let start = Instant::now(rt)?;
    let refused = offer_all(&mut channel, &packets)?;
    let time = start.elapsed(rt)?;
    let last = channel.last().unwrap_or(0);
    let (board, shelf) = channel.into_parts();
    let (keeper, tally) = board.into_parts();
    let tables = keeper.into_tables();
    let bytes = usize::from(BOOKS) * size_of::<BookRow>()
        + 2 * levels * size_of::<Level>()
        + ROWS * size_of::<Row>()
        + Vec::from(shelf).len();
    println!(rt;
        "last={} losses={} books={:016x} tally={:016x} ns={} packets={} refused={refused} bytes={bytes}",
        last,
        tally.counters().losses,
        of_books(&tables, BOOKS),
        of_tally(&tally),
        time.as_nanos(),
        packets.len(),
    )?;
    Ok(())
}

fn main(rt: HostRuntime) -> anyhow::Result<()> {
    let mut args = env::args(&rt)?.skip(1);
    match (args.next(), args.next()) {
        (Some(name), Some(depth)) => run(&rt, name.as_str(), depth.parse()?),
        _ => {
            rt.print(HELP)?;
            Ok(())
        }
    }
}
