//! The handler's console: reads a script and prints the answer to each line.
#![tactic(auto)]

use any_shelf::AnyShelf;
use books::{BookKeeper, BookRow, Level, Tables};
use channel::Channel;
use operator::Desk;
use script::{Command, ParseError, Setup, Source, open_script, parse};
use session::{Board, answer, answer_alone, open_shelf, table_sizes};
use shelf::{LONGEST, Quota, Shelf};
use sink::Twin;
use std::alloc::{AllocError, Global};
use std::env;
use std::error::Error;
use std::io::{BufRead, BufReader, Split};
use tally::{Row, Tally};

mod help;

use help::HELP;

// What `parse` makes of a line.
type Parsed = Result<Option<Command>, ParseError>;

// What answers the lines of a script, but for a setup.
trait Answers {
    fn answer(
        &mut self,
        alloc: Global,
        scratch: &mut [u8],
        asked: Parsed,
    ) -> Result<String, AllocError>;
}

// No channel.
#[derive(Clone, Copy)]
struct Alone;

impl Answers for Alone {
    fn answer(
        &mut self,
        alloc: Global,
        _scratch: &mut [u8],
        asked: Parsed,
    ) -> Result<String, AllocError> {
        answer_alone(alloc, asked)
    }
}

// A channel with the claim in hand.
impl<'a, 'b, 'c, 'd, H: Shelf> Answers for Desk<Board<'a, 'b, 'c, 'd>, H> {
    fn answer(
        &mut self,
        alloc: Global,
        scratch: &mut [u8],
        asked: Parsed,
    ) -> Result<String, AllocError> {
        answer(alloc, self, scratch, asked)
    }
}

// A script as it is read: what is left of its lines, and the runtime that its answers go to.
#[derive(Drop)]
struct Script<'a> {
    rt: &'a HostRuntime,
    lines: Split<BufReader<Source>>,
}

impl Script<'_> {
    // Answers lines until a setup, which is given, or the end.
    fn serve<T: Answers>(&mut self, served: &mut T) -> anyhow::Result<Option<Setup>> {
        let rt = self.rt;
        let alloc = rt.alloc();
        let mut scratch = [0; LONGEST];
        for line in self.lines.by_ref() {
            match parse(alloc, line?.as_slice()) {
                Ok(Some(Command::Setup(setup))) => return Ok(Some(setup)),
                Err(fault @ ParseError::OutOfMemory) => return Err(anyhow::Error::from(fault)),
                asked => rt.print(served.answer(alloc, &mut scratch, asked)?)?,
            }
        }
        Ok(None)
    }

    // A refusal of a setup, and what follows it without a channel.
    fn refuse(&mut self, fault: impl Error) -> anyhow::Result<Option<Setup>> {
        println!(self.rt; "{fault}")?;
        self.serve(&mut Alone)
    }

    // A channel over tables of its own.
    fn serve_tables(&mut self, setup: Setup, shelf: AnyShelf) -> anyhow::Result<Option<Setup>> {
        let alloc = self.rt.alloc();
        let sizes = table_sizes(setup);
        let mut books = vec![in alloc; BookRow::UNKNOWN; sizes.books]?;
        let mut buys = vec![in alloc; Level::default(); sizes.levels]?;
        let mut sells = vec![in alloc; Level::default(); sizes.levels]?;
        let mut rows = vec![in alloc; Row::default(); sizes.rows]?;
        let tables = Tables::check(
            books.as_mut_slice(),
            buys.as_mut_slice(),
            sells.as_mut_slice(),
            sizes.depth,
        );
        match tables {
            Ok(tables) => {
                let board = Twin::new(BookKeeper::new(tables), Tally::new(rows.as_mut_slice()));
                let channel = Channel::new(board, Quota::new(shelf, setup.limit));
                self.rt.print("ready\n")?;
                let mut desk = Desk::new(channel);
                let end = self.serve(&mut desk);
                let _closed = desk.close();
                end
            }
            Err(refused) => self.refuse(refused.fault),
        }
    }

    // What a setup asks for, until the next.
    fn serve_setup(&mut self, setup: Setup) -> anyhow::Result<Option<Setup>> {
        match open_shelf(self.rt.alloc(), setup.shelf)? {
            Ok(shelf) => self.serve_tables(setup, shelf),
            Err(fault) => self.refuse(fault),
        }
    }

    fn run(&mut self) -> anyhow::Result<()> {
        let mut next = self.serve(&mut Alone)?;
        // Kept with a bound: each setup is a line of the input, which has no end that a proof knows.
        for _ in 0..u64::MAX {
            let Some(setup) = next else {
                break;
            };
            next = self.serve_setup(setup)?;
        }
        Ok(())
    }
}

fn run_script(rt: &HostRuntime, source: Source) -> anyhow::Result<()> {
    let lines = BufReader::new(rt.alloc(), source)?.split(rt.alloc(), b'\n');
    Script { rt, lines }.run()
}

// Kept in each of the two programs: the help and what is run are its own, and a function of both would be as long.
fn run(rt: &HostRuntime) -> anyhow::Result<()> {
    match env::args(rt)?.nth(1) {
        Some(word) if word.as_str() == "--help" => {
            rt.print(HELP)?;
            Ok(())
        }
        name => run_script(rt, open_script(rt, name)?),
    }
}

fn main(rt: HostRuntime) -> anyhow::Result<()> {
    run(&rt)
}
