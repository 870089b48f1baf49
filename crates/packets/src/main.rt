//! Reads a script of packets and prints what each one says, or why it is refused.
#![tactic(auto)]

use script::{Source, answer, open_script};
use std::env;
use std::io::{BufRead, BufReader};

mod help;

use help::HELP;

fn run_script(rt: &HostRuntime, script: BufReader<Source>) -> anyhow::Result<()> {
    let alloc = rt.alloc();
    for line in script.split(alloc, b'\n') {
        if let Some(text) = answer(alloc, line?.as_slice())? {
            rt.print(text)?;
        }
    }
    Ok(())
}

// Kept in each of the two programs: the help and what is run are its own, and a function of both would be as long.
fn run(rt: &HostRuntime) -> anyhow::Result<()> {
    match env::args(rt)?.nth(1) {
        Some(word) if word.as_str() == "--help" => {
            rt.print(HELP)?;
            Ok(())
        }
        name => run_script(rt, BufReader::new(rt.alloc(), open_script(rt, name)?)?),
    }
}

fn main(rt: HostRuntime) -> anyhow::Result<()> {
    run(&rt)
}
