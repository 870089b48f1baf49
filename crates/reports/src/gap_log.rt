//! The log of gaps: what was asked for, and what was still missing when a claim was settled.
ghost use Rattle.std.specs.Prelude.{Some};
ghost use Rattle.reports.specs.GapLog.{asked_text, requested_text, settled_text};

use operator::Asked;
use replies::Hex;
use std::fmt;

// The columns of a claim: channel, serial, begin and end.
#[derive(Clone, Copy)]
struct AskedColumns(Asked);

impl fmt::Display for AskedColumns {
    ghost output = { λ columns. Some (asked_text columns.0) };

    fn fmt<W: fmt::Write>(&self, f: &mut fmt::Formatter<W>) -> fmt::Result {
        let Asked {
            channel,
            serial,
            begin,
            end,
        } = self.0;
        write!(f, "{channel},{serial},{begin},{end}")
    }
}

/// A claim that was made, at a time of the day, and the request that was sent; printed as a line.
#[derive(Clone, Copy)]
pub struct RequestedRow<'a> {
    pub asked: Asked,
    pub time: u32,
    pub request: &'a [u8],
}

impl<'a> fmt::Display for RequestedRow<'a> {
    ghost output = { λ row. Some (requested_text row.asked row.time row.request.now) };

    fn fmt<W: fmt::Write>(&self, f: &mut fmt::Formatter<W>) -> fmt::Result {
        let asked = AskedColumns(self.asked);
        let time = self.time;
        let request = Hex(self.request);
        writeln!(f, "requested,{asked},{time},,{request}")
    }
}

/// A claim that was settled, at a time of the day, and how many of its numbers were still missing; printed as a line.
#[derive(Clone, Copy)]
pub struct SettledRow {
    pub asked: Asked,
    pub time: u32,
    pub missing: u32,
}

impl fmt::Display for SettledRow {
    ghost output = { λ row. Some (settled_text row.asked row.time row.missing) };

    fn fmt<W: fmt::Write>(&self, f: &mut fmt::Formatter<W>) -> fmt::Result {
        let asked = AskedColumns(self.asked);
        let time = self.time;
        let missing = self.missing;
        writeln!(f, "settled,{asked},{time},{missing},")
    }
}
