//! Lines of a page: a name and a count.
ghost use Rattle.std.specs.Prelude.{Some};
ghost use Rattle.reports.specs.Lines.{count_line};

use std::fmt;

// A name of 24 bytes, and a count that ends in the same column on every line.
// Kept with the blanks in the name: what `{name:<24}` writes is stated by the name's characters, which would have to be counted.
#[derive(Clone, Copy)]
pub(crate) struct CountLine {
    pub name: &'static str,
    pub count: u64,
}

impl fmt::Display for CountLine {
    ghost output = { λ line. Some (count_line line.name.now line.count) };

    #[tactic(auto, using(crate::proofs::Padding::right_decimal))]
    fn fmt<W: fmt::Write>(&self, f: &mut fmt::Formatter<W>) -> fmt::Result {
        let name = self.name;
        let count = self.count;
        writeln!(f, "  {name}{count:>12}")
    }
}
