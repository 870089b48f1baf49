//! A page about a day that a person reads, in parts that each print themselves.
ghost use Rattle.std.specs.Prelude.{Some};
ghost use Rattle.book_model.specs.Keepers.{book_of};
ghost use Rattle.books.specs.Keepers.{keeper_means};
ghost use Rattle.tally.specs.Tallies.{meant, executed_of};
ghost use Rattle.reports.specs.Preview.{kinds_text, skips_text, packets_text, refusal_line, refusal_lines, refusals_text, last_line, gaps_text, top_text, book_line, book_lines, books_text, index_line, index_lines, executed_text};

use crate::counts::Counts;
use crate::day_book::count_state;
use crate::lines::CountLine;
use books::{BookKeeper, Level};
use console::Dollars;
use std::fmt;
use tally::Tally;
use wire::Side;

// The packets that were offered, a line for each kind.
#[derive(Clone, Copy)]
struct KindLines(Counts);

impl fmt::Display for KindLines {
    ghost output = { λ lines. Some (kinds_text lines.0) };

    fn fmt<W: fmt::Write>(&self, f: &mut fmt::Formatter<W>) -> fmt::Result {
        let full = CountLine {
            name: "full updates            ",
            count: self.0.full,
        };
        let delta = CountLine {
            name: "deltas                  ",
            count: self.0.delta,
        };
        let mapping = CountLine {
            name: "symbol mappings         ",
            count: self.0.mapping,
        };
        let refresh = CountLine {
            name: "refreshes               ",
            count: self.0.refresh,
        };
        let unavailable = CountLine {
            name: "unavailable ranges      ",
            count: self.0.unavailable,
        };
        let reset = CountLine {
            name: "resets                  ",
            count: self.0.reset,
        };
        let unreadable = CountLine {
            name: "unreadable              ",
            count: self.0.unreadable,
        };
        write!(
            f,
            "{full}{delta}{mapping}{refresh}{unavailable}{reset}{unreadable}"
        )
    }
}

// The records that were not offered, a line for each cause.
#[derive(Clone, Copy)]
struct SkipLines(Counts);

impl fmt::Display for SkipLines {
    ghost output = { λ lines. Some (skips_text lines.0) };

    fn fmt<W: fmt::Write>(&self, f: &mut fmt::Formatter<W>) -> fmt::Result {
        let truncated = CountLine {
            name: "truncated               ",
            count: self.0.truncated,
        };
        let fragments = CountLine {
            name: "fragments               ",
            count: self.0.fragments,
        };
        let others = CountLine {
            name: "other protocols         ",
            count: self.0.others,
        };
        let filtered = CountLine {
            name: "other groups or ports   ",
            count: self.0.filtered,
        };
        write!(f, "{truncated}{fragments}{others}{filtered}")
    }
}

/// The packets that were offered, by kind and in all, and the records that were skipped.
#[derive(Clone, Copy)]
pub struct PacketsPart {
    pub counts: Counts,
}

impl fmt::Display for PacketsPart {
    ghost output = { λ part. Some (packets_text part.counts) };

    fn fmt<W: fmt::Write>(&self, f: &mut fmt::Formatter<W>) -> fmt::Result {
        let kinds = KindLines(self.counts);
        let all = CountLine {
            name: "in all                  ",
            count: self.counts.offered(),
        };
        let skips = SkipLines(self.counts);
        write!(
            f,
            "Packets offered\n{kinds}{all}\nRecords skipped\n{skips}\n"
        )
    }
}

// The refusals with a number, printed as a line; nothing where there were none.
#[derive(Clone, Copy)]
struct RefusalLine {
    number: usize,
    count: u64,
}

impl fmt::Display for RefusalLine {
    ghost output = { λ line. Some (refusal_line line.number line.count) };

    fn fmt<W: fmt::Write>(&self, f: &mut fmt::Formatter<W>) -> fmt::Result {
        let RefusalLine { number, count } = *self;
        if count > 0 {
            writeln!(f, "  refused {number}: {count}")
        } else {
            Ok(())
        }
    }
}

// The refusals by their number, a line for each that occurred.
#[derive(Clone, Copy)]
struct RefusalLines<'a>(&'a [u64]);

impl<'a> fmt::Display for RefusalLines<'a> {
    ghost output = { λ lines. Some (refusal_lines 0 lines.0.now) };

    fn fmt<W: fmt::Write>(&self, f: &mut fmt::Formatter<W>) -> fmt::Result {
        let counts = self.0;
        for (number, count) in counts.iter().enumerate() {
            let line = RefusalLine {
                number,
                count: *count,
            };
            write!(f, "{line}")?;
        }
        Ok(())
    }
}

/// The packets that were turned away: duplicates, resets that came again, and every refusal that occurred.
#[derive(Clone, Copy)]
pub struct RefusalsPart {
    pub counts: Counts,
}

impl fmt::Display for RefusalsPart {
    ghost output = { λ part. Some (refusals_text part.counts) };

    fn fmt<W: fmt::Write>(&self, f: &mut fmt::Formatter<W>) -> fmt::Result {
        let duplicates = CountLine {
            name: "duplicates turned away  ",
            count: self.counts.duplicates(),
        };
        let resets = CountLine {
            name: "resets that came again  ",
            count: self.counts.repeated_resets,
        };
        let refusals = RefusalLines(&self.counts.refused);
        write!(f, "Refusals\n{duplicates}{resets}{refusals}\n")
    }
}

// The last number, printed as a line; none where the channel is closed.
#[derive(Clone, Copy)]
struct LastLine(Option<u32>);

impl fmt::Display for LastLine {
    ghost output = { λ line. Some (last_line line.0) };

    fn fmt<W: fmt::Write>(&self, f: &mut fmt::Formatter<W>) -> fmt::Result {
        match self.0 {
            Some(last) => {
                let line = CountLine {
                    name: "last number             ",
                    count: u64::from(last),
                };
                write!(f, "{line}")
            }
            None => writeln!(f, "  last number                     none"),
        }
    }
}

/// The gaps: claims, what they asked for, what they left missing, the numbers lost, and the last number.
#[derive(Clone, Copy)]
pub struct GapsPart {
    pub counts: Counts,
    pub last: Option<u32>,
    pub losses: u32,
}

impl fmt::Display for GapsPart {
    ghost output = { λ part. Some (gaps_text part.counts part.last part.losses) };

    fn fmt<W: fmt::Write>(&self, f: &mut fmt::Formatter<W>) -> fmt::Result {
        let claims = CountLine {
            name: "claims                  ",
            count: self.counts.claims,
        };
        let asked = CountLine {
            name: "numbers asked for       ",
            count: self.counts.asked,
        };
        let missing = CountLine {
            name: "missing at settlement   ",
            count: self.counts.missing,
        };
        let losses = CountLine {
            name: "numbers lost            ",
            count: u64::from(self.losses),
        };
        let last = LastLine(self.last);
        write!(f, "Gaps\n{claims}{asked}{missing}{losses}{last}\n")
    }
}

// The best level of a side: its price, volume and count of orders; or that the side is empty.
#[derive(Clone, Copy)]
struct Top(Option<Level>);

impl fmt::Display for Top {
    ghost output = { λ top. Some (top_text top.0) };

    fn fmt<W: fmt::Write>(&self, f: &mut fmt::Formatter<W>) -> fmt::Result {
        match self.0 {
            Some(level) => {
                let price = Dollars(level.price);
                let volume = level.volume;
                let orders = level.orders;
                write!(f, "{price} x {volume} ({orders})")
            }
            None => write!(f, "none"),
        }
    }
}

// A whole book by the best level of each side, printed as a line; nothing where there is no such book or it is not whole.
#[derive(Clone, Copy)]
struct BookLine<'k, 'a, 'b, 'c> {
    keeper: &'k BookKeeper<'a, 'b, 'c>,
    index: u16,
}

impl<'k, 'a, 'b, 'c> fmt::Display for BookLine<'k, 'a, 'b, 'c> {
    ghost output = { λ line. Some (book_line line.index (book_of line.index (keeper_means line.keeper.now).books)) };

    fn fmt<W: fmt::Write>(&self, f: &mut fmt::Formatter<W>) -> fmt::Result {
        let index = self.index;
        match self.keeper.book(index) {
            Some(book) if book.whole => {
                let buy = Top(self.keeper.level(index, Side::Buy, 0));
                let sell = Top(self.keeper.level(index, Side::Sell, 0));
                writeln!(f, "  book {index}  buy {buy}  sell {sell}")
            }
            _ => Ok(()),
        }
    }
}

// The whole books up to an index, a line for each.
#[derive(Clone, Copy)]
struct BookLines<'k, 'a, 'b, 'c> {
    keeper: &'k BookKeeper<'a, 'b, 'c>,
    count: u16,
}

impl<'k, 'a, 'b, 'c> fmt::Display for BookLines<'k, 'a, 'b, 'c> {
    ghost output = { λ lines. Some (book_lines lines.count (keeper_means lines.keeper.now).books) };

    #[tactic(auto, using(crate::proofs::Written::nothing))]
    fn fmt<W: fmt::Write>(&self, f: &mut fmt::Formatter<W>) -> fmt::Result {
        let keeper = self.keeper;
        for index in 1..=self.count {
            let line = BookLine { keeper, index };
            write!(f, "{line}")?;
        }
        Ok(())
    }
}

/// The books of a keeper up to an index: how many are whole, how many are not, and the best levels of each whole one.
#[derive(Clone, Copy)]
pub struct BooksPart<'k, 'a, 'b, 'c> {
    pub keeper: &'k BookKeeper<'a, 'b, 'c>,
    pub count: u16,
}

impl<'k, 'a, 'b, 'c> fmt::Display for BooksPart<'k, 'a, 'b, 'c> {
    ghost output = { λ part. Some (books_text part.count (keeper_means part.keeper.now).books) };

    fn fmt<W: fmt::Write>(&self, f: &mut fmt::Formatter<W>) -> fmt::Result {
        let BooksPart { keeper, count } = *self;
        let whole = CountLine {
            name: "whole                   ",
            count: u64::from(count_state(keeper, count, true)),
        };
        let partial = CountLine {
            name: "partial                 ",
            count: u64::from(count_state(keeper, count, false)),
        };
        let lines = BookLines { keeper, count };
        write!(f, "Books\n{whole}{partial}{lines}\n")
    }
}

// The executed volume of an index, printed as a line; nothing where it has no row.
#[derive(Clone, Copy)]
struct IndexLine {
    index: u16,
    executed: Option<u64>,
}

impl fmt::Display for IndexLine {
    ghost output = { λ line. Some (index_line line.index line.executed) };

    #[tactic(auto, using(crate::proofs::Padding::right_decimal))]
    fn fmt<W: fmt::Write>(&self, f: &mut fmt::Formatter<W>) -> fmt::Result {
        let index = self.index;
        match self.executed {
            Some(executed) => writeln!(f, "  index {index:>5}{executed:>25}"),
            None => Ok(()),
        }
    }
}

// The executed volume of each index that has a row, a line for each.
#[derive(Clone, Copy)]
struct IndexLines<'a, 'b>(&'a Tally<'b>);

impl<'a, 'b> fmt::Display for IndexLines<'a, 'b> {
    ghost output = { λ lines. Some (index_lines (meant lines.0.now).rows) };

    #[tactic(auto, using(crate::proofs::Written::nothing))]
    fn fmt<W: fmt::Write>(&self, f: &mut fmt::Formatter<W>) -> fmt::Result {
        let tally = self.0;
        for index in 0..=u16::MAX {
            let executed = tally.executed(index);
            let line = IndexLine { index, executed };
            write!(f, "{line}")?;
        }
        Ok(())
    }
}

/// The executed volume of each index that has a row, and the executions that found none.
#[derive(Clone, Copy)]
pub struct ExecutedPart<'a, 'b> {
    pub tally: &'a Tally<'b>,
}

impl<'a, 'b> fmt::Display for ExecutedPart<'a, 'b> {
    ghost output = { λ part. Some (executed_text (meant part.tally.now).missed (meant part.tally.now).rows) };

    fn fmt<W: fmt::Write>(&self, f: &mut fmt::Formatter<W>) -> fmt::Result {
        let lines = IndexLines(self.tally);
        let missed = CountLine {
            name: "found no row            ",
            count: u64::from(self.tally.counters().missed),
        };
        write!(f, "Executed volume\n{lines}{missed}\n")
    }
}
