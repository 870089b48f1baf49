//! Replays a capture of a channel's multicast groups.
#![tactic(auto)]

use anyhow::anyhow;
use std::process::ExitCode;
use std::{env, fs};

mod day;
mod log;
mod options;
mod outputs;
mod pieces;
mod progress;
mod room;
mod sinks;

use options::{Options, command};
use outputs::print_files;
use room::replay_file;

fn main(rt: HostRuntime) -> anyhow::Result<ExitCode> {
    let alloc = rt.alloc();
    let words: Vec<String> = env::args(&rt)?.collect(alloc)?;
    let matches = match command(alloc)?.try_get_matches_from(words.as_slice()) {
        Ok(matches) => matches,
        Err(error) => {
            error.print(&rt)?;
            return Ok(ExitCode::from(error.exit_code() as u8));
        }
    };
    let options = Options::read(alloc, &matches)?;
    fs::create_dir_all(&rt, options.out).map_err(|fault| anyhow!(fault))?;
    let replayed = replay_file(&rt, &options);
    if options.print && replayed.is_ok() {
        print_files(&rt, &options)?;
    }
    replayed?;
    Ok(ExitCode::SUCCESS)
}
