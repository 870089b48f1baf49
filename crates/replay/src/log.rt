//! What is written while a capture is replayed.

use crate::sinks::{Day, News};
use anyhow::anyhow;
use capture::Skip;
use channel::ChannelFault;
use journal::RUN_HEADER;
use operator::Asked;
use replayer::Followed;
use reports::{Counts, GAP_HEADER, RequestedRow, SettledRow, Skipped, kind_of};
use std::fs::File;
use std::io::{BufWriter, Write};
use wire::REQUEST;

/// The rows of a run and of its gaps, as files, and the day's counts.
#[derive(Drop)]
pub struct Log {
    pub counts: Counts,
    run: BufWriter<File>,
    gaps: BufWriter<File>,
    // How much of the sinks' texts is written.
    run_told: u64,
    losses_told: u64,
    // The claim in hand, and the send time of its request.
    out: Option<(Asked, u32)>,
}

/// A file of a folder, with its first line.
pub fn create(
    rt: &HostRuntime,
    folder: &str,
    name: &str,
    header: &str,
) -> anyhow::Result<BufWriter<File>> {
    let path = format!(in rt.alloc(); "{folder}/{name}")?;
    match File::create(rt, path.as_str()) {
        Ok(file) => {
            let mut writer = BufWriter::with_capacity(rt.alloc(), 1 << 16, file)?;
            writer.write_all(header.as_bytes())?;
            Ok(writer)
        }
        Err(fault) => Err(anyhow!(format!(in rt.alloc(); "{path}: {fault}")?)),
    }
}

// Writes what is new of a text, and gives how much of it is written then.
fn copy_text(news: News<'_>, to: &mut BufWriter<File>) -> anyhow::Result<u64> {
    let Some(text) = news.text else {
        return Err(anyhow!("more rows at once than the buffer of the rows has room for"));
    };
    to.write_all(text)?;
    Ok(news.told)
}

impl Log {
    /// Files of a folder, with nothing in them but their headers.
    pub fn create(rt: &HostRuntime, folder: &str) -> anyhow::Result<Log> {
        Ok(Log {
            counts: Counts::default(),
            run: create(rt, folder, "run.csv", RUN_HEADER)?,
            gaps: create(rt, folder, "gap-log.csv", GAP_HEADER)?,
            run_told: 0,
            losses_told: 0,
            out: None,
        })
    }

    /// Writes the rows that the sinks told of since the last time.
    pub fn copy_rows<S: Day>(&mut self, sinks: &S) -> anyhow::Result<()> {
        self.run_told = copy_text(sinks.run(self.run_told), &mut self.run)?;
        self.losses_told = copy_text(sinks.losses(self.losses_told), &mut self.gaps)?;
        Ok(())
    }

    /// Counts a record that was not offered.
    pub fn note_skip(&mut self, skip: Skip) {
        self.counts.note_skip(match skip {
            Skip::Truncated => Skipped::Truncated,
            Skip::Fragment => Skipped::Fragment,
            Skip::Other => Skipped::Other,
        });
    }

    /// Writes what came of a settlement: how many numbers of the claim are still missing.
    pub fn note_settled(&mut self, missing: u32) -> anyhow::Result<()> {
        self.counts.note_settlement(missing);
        if let Some((asked, time)) = self.out.take() {
            let row = SettledRow {
                asked,
                time,
                missing,
            };
            write!(self.gaps, "{row}")?;
        }
        Ok(())
    }

    // Writes what came of a claim, whose request stands in front of the buffer.
    fn note_claimed(
        &mut self,
        claimed: Result<Asked, ChannelFault>,
        time: u32,
        buffer: &[u8],
    ) -> anyhow::Result<()> {
        match claimed {
            Ok(asked) => {
                self.counts.note_claim(asked);
                self.out = Some((asked, time));
                let request = buffer.get(..REQUEST).unwrap_or(&[]);
                let row = RequestedRow {
                    asked,
                    time,
                    request,
                };
                write!(self.gaps, "{row}")?;
            }
            Err(fault) => self.counts.note_refusal(fault.number()),
        }
        Ok(())
    }

    /// Writes what came of a packet.
    pub fn note(
        &mut self,
        payload: &[u8],
        time: u32,
        followed: &Followed,
        buffer: &[u8],
    ) -> anyhow::Result<()> {
        self.counts.note_kind(kind_of(payload));
        if let Err(fault) = followed.offered {
            self.counts.note_refusal(fault.number());
        }
        if followed.repeated {
            self.counts.note_repeated_reset();
        }
        if let Some(missing) = followed.settled {
            self.note_settled(missing)?;
        }
        if let Some(claimed) = followed.claimed {
            self.note_claimed(claimed, time, buffer)?;
        }
        if let Some((_, Err(fault))) = followed.restarted {
            self.counts.note_refusal(fault.number());
        }
        Ok(())
    }

    /// Writes all that is not yet in the files.
    pub fn flush(&mut self) -> anyhow::Result<()> {
        self.run.flush()?;
        self.gaps.flush()?;
        Ok(())
    }
}
