//! How far a long file is replayed, told on standard error.

/// Files below this many bytes are replayed without a word.
const LONG: u64 = 100_000_000;

/// How far a file is replayed.
#[derive(Drop)]
pub struct Progress<'r> {
    rt: &'r HostRuntime,
    size: u64,
    next: u64,
}

impl<'r> Progress<'r> {
    /// A file of so many bytes, at its beginning.
    pub fn new(rt: &'r HostRuntime, size: u64) -> Progress<'r> {
        Progress {
            rt,
            size,
            next: LONG,
        }
    }

    /// Tells of it where another hundred million bytes of a long file are done.
    pub fn tell(&mut self, offset: u64) -> anyhow::Result<()> {
        if self.size > LONG && offset >= self.next {
            let done = offset / 1_000_000;
            let all = self.size / 1_000_000;
            eprintln!(self.rt; "replay: {done} of {all} MB")?;
            self.next = self.next.saturating_add(LONG);
        }
        Ok(())
    }
}
