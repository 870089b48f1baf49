//! The reports of a day, written at its end.

use crate::log::create;
use crate::options::{Options, Service};
use crate::sinks::Board;
use books::{BookKeeper, MOST_BOOKS};
use reports::{
    BooksPart, Counts, DAY_BOOK_HEADER, DayBook, Executed, ExecutedPart, GapsPart, PacketsPart,
    RefusalsPart, TALLY_HEADER,
};
use std::fs;
use std::io::Write;
use tally::Tally;

const LINES: [&str; 3] = ["run.csv", "gap-log.csv", "preview.txt"];

const BOOKS: [&str; 4] = ["run.csv", "gap-log.csv", "day-book.csv", "preview.txt"];

const TALLY: [&str; 5] = [
    "run.csv",
    "gap-log.csv",
    "day-book.csv",
    "tally.csv",
    "preview.txt",
];

/// Prints the files of a day, each under its name.
pub fn print_files(rt: &HostRuntime, options: &Options<'_>) -> anyhow::Result<()> {
    let folder = options.out;
    let names: &[&str] = match options.service {
        Service::Lines => &LINES,
        Service::Books => &BOOKS,
        Service::Tally => &TALLY,
    };
    for name in names {
        let path = format!(in rt.alloc(); "{folder}/{name}")?;
        let text = fs::read_to_string(rt, path.as_str())?;
        print!(rt; "== {name}\n{text}")?;
    }
    Ok(())
}

// How many books a day has.
fn book_count(options: &Options<'_>) -> u16 {
    (options.setup.books as usize).min(MOST_BOOKS) as u16
}

fn write_day_book(
    rt: &HostRuntime,
    options: &Options<'_>,
    keeper: &BookKeeper<'_, '_, '_>,
) -> anyhow::Result<()> {
    let mut file = create(rt, options.out, "day-book.csv", DAY_BOOK_HEADER)?;
    let count = book_count(options);
    let day_book = DayBook { keeper, count };
    write!(file, "{day_book}")?;
    file.flush()?;
    Ok(())
}

fn write_tally(rt: &HostRuntime, options: &Options<'_>, tally: &Tally<'_>) -> anyhow::Result<()> {
    let mut file = create(rt, options.out, "tally.csv", TALLY_HEADER)?;
    let executed = Executed { tally };
    write!(file, "{executed}")?;
    file.flush()?;
    Ok(())
}

// The page that a person reads.
fn write_preview(
    rt: &HostRuntime,
    options: &Options<'_>,
    board: &Board<'_>,
    counts: Counts,
    last: Option<u32>,
) -> anyhow::Result<()> {
    let mut file = create(rt, options.out, "preview.txt", "")?;
    let channel = options.channel;
    let name = options.file;
    let losses = board.second().counters().losses;
    let packets = PacketsPart { counts };
    let refusals = RefusalsPart { counts };
    let gaps = GapsPart {
        counts,
        last,
        losses,
    };
    write!(
        file,
        "Channel {channel}, replayed from {name}\n\n{packets}{refusals}{gaps}"
    )?;
    if options.service != Service::Lines {
        let count = book_count(options);
        let books = BooksPart {
            keeper: board.first(),
            count,
        };
        write!(file, "{books}")?;
    }
    if options.service == Service::Tally {
        let executed = ExecutedPart {
            tally: board.second(),
        };
        write!(file, "{executed}")?;
    }
    file.flush()?;
    Ok(())
}

/// Writes the books, the executed volume and the page of a day, as far as its service has them.
pub fn write_reports(
    rt: &HostRuntime,
    options: &Options<'_>,
    board: &Board<'_>,
    counts: Counts,
    last: Option<u32>,
) -> anyhow::Result<()> {
    if options.service != Service::Lines {
        write_day_book(rt, options, board.first())?;
    }
    if options.service == Service::Tally {
        write_tally(rt, options, board.second())?;
    }
    write_preview(rt, options, board, counts, last)
}
