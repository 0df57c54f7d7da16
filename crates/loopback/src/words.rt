//! The table in words, line by line.
use crate::tally::{Row, Tally};
use std::fmt;

/// The line above the rows.
#[derive(Clone, Copy, Debug)]
pub struct Heading;

impl fmt::Display for Heading {
    fn fmt<W: fmt::Write>(&self, f: &mut fmt::Formatter<W>) -> fmt::Result {
        write!(
            f,
            "form    select  data bits  total bits  words  line bits  read back clean  flips marked"
        )
    }
}

impl fmt::Display for Row {
    fn fmt<W: fmt::Write>(&self, f: &mut fmt::Formatter<W>) -> fmt::Result {
        let data = self.form.data_bits();
        let parity = self.form.parity();
        write!(
            f,
            "{data} {parity:<4}     {:03b}  {data:>9}  {:>10}  {:>5}  {:>9}  {:>15}  {:>12}",
            self.form.select(),
            self.form.total_bits(),
            self.tally.words,
            self.tally.bits,
            self.tally.clean,
            self.tally.marked
        )
    }
}

/// The line below the rows.
#[derive(Clone, Copy, Debug)]
pub struct Total(pub Tally);

impl fmt::Display for Total {
    fn fmt<W: fmt::Write>(&self, f: &mut fmt::Formatter<W>) -> fmt::Result {
        let total = self.0;
        write!(
            f,
            "total: {} words, {} line bits; {} read back clean; with one bit flipped {} of {} marked",
            total.words, total.bits, total.clean, total.marked, total.words
        )
    }
}
