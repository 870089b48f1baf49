//! What the program is asked for.

use anyhow::anyhow;
use clap::{Arg, ArgAction, ArgMatches, Command, value_parser};
use script::{Setup, ShelfKind};
use std::alloc::{AllocError, Global};
use std::net::Ipv4Addr;

const ABOUT: &str =
    "Replays a capture of one channel's multicast groups, and writes the clean run, the gaps, the books and the executed volume.";

const AFTER: &str = "\
Every UDP datagram to the groups and ports is offered, as it came: primary and secondary line, retransmissions and refreshes.
Written into DIR: run.csv, gap-log.csv and preview.txt; by books and tally also day-book.csv; by tally also tally.csv.
A capture that is damaged is replayed up to the damage, which is told, and the exit status is 1.";

/// What is rented of a channel-day.
#[derive(Clone, Copy, PartialEq, Eq, Debug)]
pub enum Service {
    Lines,
    Books,
    Tally,
}

/// What the program is asked for.
#[derive(Drop)]
pub struct Options<'a> {
    pub service: Service,
    pub channel: u8,
    pub source: &'a str,
    pub first: u32,
    pub groups: Vec<u32>,
    pub ports: Vec<u16>,
    pub setup: Setup,
    pub out: &'a str,
    pub print: bool,
    pub file: &'a str,
}

// An option with a value and a default.
fn option<'a>(
    alloc: Global,
    name: &'static str,
    value: &'static str,
    default: &'static str,
    help: &'static str,
) -> Arg<'a> {
    Arg::new(alloc, name)
        .long(name)
        .value_name(value)
        .default_value(default)
        .help(help)
}

// An option that may be given any number of times.
fn repeated<'a>(
    alloc: Global,
    name: &'static str,
    value: &'static str,
    help: &'static str,
) -> Arg<'a> {
    Arg::new(alloc, name)
        .long(name)
        .value_name(value)
        .action(ArgAction::Append)
        .help(help)
}

// The options that say what the channel is, and which datagrams are its own.
fn with_channel<'a>(alloc: Global, command: Command<'a>) -> Result<Command<'a>, AllocError> {
    let channel = option(alloc, "channel", "N", "1", "The channel's number");
    let first = option(alloc, "first", "N", "1", "The first number of the day");
    let port = repeated(alloc, "port", "P", "A destination port; without one, all");
    command
        .arg(option(
            alloc,
            "service",
            "lines|books|tally",
            "tally",
            "What is made of the channel",
        ))?
        .arg(channel.value_parser(value_parser!(u8)))?
        .arg(option(
            alloc,
            "source",
            "ID",
            "CIVUTHAM",
            "The source id of requests, 1 to 20 bytes",
        ))?
        .arg(first.value_parser(value_parser!(u32)))?
        .arg(repeated(
            alloc,
            "group",
            "A.B.C.D",
            "A destination group; without one, all",
        ))?
        .arg(port.value_parser(value_parser!(u16)))
}

// The options that say how much memory there is, and of what shape.
fn with_tables<'a>(alloc: Global, command: Command<'a>) -> Result<Command<'a>, AllocError> {
    let quota = repeated(alloc, "quota", "LIMIT", "A limit of the units on the shelf");
    let books = option(alloc, "books", "N", "1024", "How many books are kept");
    let depth = option(alloc, "depth", "D", "64", "The levels of a side of a book");
    let rows = option(alloc, "rows", "R", "1024", "The rows of executed volume");
    command
        .arg(option(
            alloc,
            "shelf",
            "slots|chain=RECORDS",
            "chain=65535",
            "Where early packets wait",
        ))?
        .arg(quota.value_parser(value_parser!(u32)))?
        .arg(books.value_parser(value_parser!(u32)))?
        .arg(depth.value_parser(value_parser!(u32)))?
        .arg(rows.value_parser(value_parser!(u32)))
}

/// The command line of the program.
pub fn command<'a>(alloc: Global) -> Result<Command<'a>, AllocError> {
    let print = Arg::new(alloc, "print")
        .long("print")
        .action(ArgAction::SetTrue)
        .help("Print the files that were written");
    let file = Arg::new(alloc, "file")
        .value_name("FILE.pcap")
        .required(true)
        .help("The capture");
    let command = Command::new(alloc, "replay").about(ABOUT).after_help(AFTER);
    let command = with_channel(alloc, command)?;
    with_tables(alloc, command)?
        .arg(option(alloc, "out", "DIR", ".", "The folder that is written to"))?
        .arg(print)?
        .arg(file)
}

fn service_of(text: &str) -> anyhow::Result<Service> {
    match text.as_bytes() {
        b"lines" => Ok(Service::Lines),
        b"books" => Ok(Service::Books),
        b"tally" => Ok(Service::Tally),
        _ => Err(anyhow!("--service is lines, books or tally")),
    }
}

fn shelf_of(text: &str) -> anyhow::Result<ShelfKind> {
    if let Some(records) = text.strip_prefix("chain=") {
        return match records.parse::<u32>() {
            Ok(records) => Ok(ShelfKind::Chain { records }),
            Err(_) => Err(anyhow!("--shelf chain=RECORDS wants a number of records")),
        };
    }
    match text.as_bytes() {
        b"slots" => Ok(ShelfKind::Slots),
        _ => Err(anyhow!("--shelf is slots or chain=RECORDS")),
    }
}

fn groups_of(alloc: Global, matches: &ArgMatches<'_>) -> anyhow::Result<Vec<u32>> {
    let mut groups = Vec::new(alloc);
    if let Some(texts) = matches.get_strs("group") {
        for text in texts {
            match text.parse::<Ipv4Addr>() {
                Ok(group) => groups.push(u32::from(group))?,
                Err(_) => return Err(anyhow!(
                    "--group wants an address of four numbers, as 224.0.59.76"
                )),
            }
        }
    }
    Ok(groups)
}

// The least limit of the quotas, or the largest number where there is none.
fn limit_of(matches: &ArgMatches<'_>) -> anyhow::Result<u32> {
    let mut least = u32::MAX;
    if let Some(limits) = matches.get_many::<u32>("quota") {
        for limit in limits {
            least = least.min(limit?);
        }
    }
    Ok(least)
}

fn ports_of(alloc: Global, matches: &ArgMatches<'_>) -> anyhow::Result<Vec<u16>> {
    let mut ports = Vec::new(alloc);
    if let Some(given) = matches.get_many::<u16>("port") {
        for port in given {
            ports.push(port?)?;
        }
    }
    Ok(ports)
}

// The tables of a service: one that keeps no books, or no volume, has the smallest.
fn setup_of(service: Service, matches: &ArgMatches<'_>) -> anyhow::Result<Setup> {
    let number = |name: &str| matches.get_one::<u32>(name).unwrap_or(0);
    let shelf = shelf_of(matches.get_str("shelf").unwrap_or(""))?;
    let (books, depth) = match service {
        Service::Lines => (1, 1),
        Service::Books | Service::Tally => (number("books"), number("depth")),
    };
    let rows = match service {
        Service::Tally => number("rows"),
        Service::Lines | Service::Books => 0,
    };
    Ok(Setup {
        shelf,
        limit: limit_of(matches)?,
        books,
        depth,
        rows,
    })
}

impl<'a> Options<'a> {
    /// The options of a command line that was read.
    pub fn read(alloc: Global, matches: &ArgMatches<'a>) -> anyhow::Result<Options<'a>> {
        let service = service_of(matches.get_str("service").unwrap_or(""))?;
        Ok(Options {
            service,
            channel: matches.get_one::<u8>("channel").unwrap_or(1),
            source: matches.get_str("source").unwrap_or(""),
            first: matches.get_one::<u32>("first").unwrap_or(1),
            groups: groups_of(alloc, matches)?,
            ports: ports_of(alloc, matches)?,
            setup: setup_of(service, matches)?,
            out: matches.get_str("out").unwrap_or("."),
            print: matches.get_flag("print"),
            file: matches.get_str("file").unwrap_or(""),
        })
    }
}
