//! A script and what came of it, in words.
use crate::script::{Act, Check, Example, Field, Line, Reading};
use serial::case::Case;
use std::fmt;

/// An example that was played: one line.
#[derive(Clone, Copy, Debug)]
pub struct Report<'a> {
    pub example: Example,
    pub checks: &'a [Check],
    pub ok: bool,
}

impl fmt::Display for Report<'_> {
    fn fmt<W: fmt::Write>(&self, f: &mut fmt::Formatter<W>) -> fmt::Result {
        let verdict = if self.ok { "ok    " } else { "NOT OK" };
        write!(f, "{verdict} {}. Done:", self.example.title)?;
        for line in self.example.script {
            if let Line::Do(act) = line {
                write!(f, " {act}")?;
            }
        }
        write!(f, ". Came:")?;
        for check in self.checks {
            write!(f, " {}", check.came)?;
        }
        write!(f, ". Should come:")?;
        for check in self.checks {
            write!(f, " {}", check.should)?;
        }
        write!(f, ".")
    }
}

// W and R are writes and reads with their register select.
impl fmt::Display for Act {
    fn fmt<W: fmt::Write>(&self, f: &mut fmt::Formatter<W>) -> fmt::Result {
        match *self {
            Act::Idle => write!(f, "idle"),
            Act::Read { rs } => write!(f, "R{rs}"),
            Act::Write { rs, byte } => write!(f, "W{rs}={byte:02X}h"),
            Act::Bit(bit) => write!(f, "bit={bit}"),
            Act::Character(byte) => write!(f, "char={byte:02X}h"),
            Act::Clocks(count) => write!(f, "clocks={count}"),
            Act::Pin { pin, level } => write!(f, "pin{pin}={level}"),
        }
    }
}

// What is read, with its number.
impl fmt::Display for Reading {
    fn fmt<W: fmt::Write>(&self, f: &mut fmt::Formatter<W>) -> fmt::Result {
        let number = self.number();
        match *self {
            Reading::Byte(_) => write!(f, "byte={number:02X}h"),
            Reading::Interrupt(_) => write!(f, "interrupt={number}"),
            Reading::SmDtr(_) => write!(f, "SM/DTR={number}"),
            Reading::Underflow(_) => write!(f, "underflow={number}"),
            Reading::Receive(_) => write!(f, "receive-code={number}"),
            Reading::Received(field, _) => write!(f, "received-{field}={number}"),
            Reading::Queue(_) => write!(f, "queue-code={number}"),
            Reading::Queued(field, _) => write!(f, "queued-{field}={number}"),
            Reading::Shift(_) => write!(f, "shift-code={number}"),
            Reading::Shifted(_) => write!(f, "shifted={number}"),
            Reading::Refusal(_) => write!(f, "refusal={number}"),
            Reading::Line(_) => write!(f, "line={number:b}"),
            Reading::Waiting(place, _) => write!(f, "place-{}={number}", place.number()),
            Reading::Shifting(_) => write!(f, "shifting={number}"),
        }
    }
}

impl fmt::Display for Field {
    fn fmt<W: fmt::Write>(&self, f: &mut fmt::Formatter<W>) -> fmt::Result {
        match self {
            Field::First => write!(f, "first"),
            Field::Second => write!(f, "second"),
            Field::Third => write!(f, "third"),
        }
    }
}
