//! What the channel of a replay tells its events to.

use crate::options::Options;
use crate::outputs::write_reports;
use books::BookKeeper;
use journal::{Journal, LossRows, RunRows, Tail};
use reports::Counts;
use sink::Twin;
use tally::Tally;

/// The rows of the run, and of its losses.
pub type Journals<'a> = Twin<Journal<'a, RunRows>, Journal<'a, LossRows>>;

/// The books beside the executed volume.
pub type Board<'a> = Twin<BookKeeper<'a, 'a, 'a>, Tally<'a>>;

/// The rows, and the books beside the executed volume.
pub type Sinks<'a> = Twin<Journals<'a>, Board<'a>>;

/// A text and how much of it was told: what is new since a count of it, if that is still kept.
#[derive(Clone, Copy)]
pub struct News<'t> {
    pub text: Option<&'t [u8]>,
    pub told: u64,
}

/// What the sinks of a day show of it.
pub trait Day {
    /// The rows of the run that are new since a count.
    fn run(&self, told: u64) -> News<'_>;

    /// The rows of its losses that are new since a count.
    fn losses(&self, told: u64) -> News<'_>;

    /// Writes the reports of the day, with the last number.
    fn report(
        &self,
        rt: &HostRuntime,
        options: &Options<'_>,
        counts: Counts,
        last: Option<u32>,
    ) -> anyhow::Result<()>;
}

// What is new of a text since a count.
fn text_since<'t>(tail: &'t Tail<'_>, told: u64) -> News<'t> {
    News {
        text: tail.since(told),
        told: tail.told(),
    }
}

impl<'a> Day for Sinks<'a> {
    fn run(&self, told: u64) -> News<'_> {
        text_since(self.first().first().tail(), told)
    }

    fn losses(&self, told: u64) -> News<'_> {
        text_since(self.first().second().tail(), told)
    }

    fn report(
        &self,
        rt: &HostRuntime,
        options: &Options<'_>,
        counts: Counts,
        last: Option<u32>,
    ) -> anyhow::Result<()> {
        write_reports(rt, options, self.second(), counts, last)
    }
}
