//! A script for the bench: what is done to an adapter, and what must come.
ghost use Rattle.std.specs.Prelude.{◌≡◌, ◌↔◌, IsTrue};

use serial::case::Case;
use serial::event::Refusal;
use serial::queue::Place;
use serial::slip::{QueueCode, ReceiveCode, ShiftCode};

/// What is done. A character is eight received bits, lowest first.
#[derive(Clone, Copy, Debug, PartialEq, Eq)]
pub enum Act {
    Idle,
    Read { rs: u8 },
    Write { rs: u8, byte: u8 },
    Bit(u8),
    Character(u8),
    Clocks(u8),
    Pin { pin: u8, level: u8 },
}

/// One of the three fields of numbers on a slip.
#[derive(Clone, Copy, Debug, PartialEq, Eq)]
pub enum Field {
    First,
    Second,
    Third,
}

/// What is read off: a part of the answer to the last event, the bits that the last clocks showed, or what the question tells, which may
/// be nobody.
#[derive(Clone, Copy, Debug, PartialEq, Eq)]
pub enum Reading {
    Byte(u8),
    Interrupt(bool),
    SmDtr(bool),
    Underflow(bool),
    Receive(ReceiveCode),
    Received(Field, u32),
    Queue(QueueCode),
    Queued(Field, u32),
    Shift(ShiftCode),
    Shifted(u32),
    Refusal(Option<Refusal>),
    Line(u32),
    Waiting(Place, Option<u32>),
    Shifting(Option<u32>),
}

impl Reading {
    ghost use Rattle.bench.specs.Bench.{reading_number};

    /// What is read as a number: codes and refusals have theirs, a signal is 0 or 1, and no refusal and nobody are 0.
    pub fn number(self) -> u32
        ensures { result ≡ reading_number self }
    {
        match self {
            Reading::Byte(byte) => u32::from(byte),
            Reading::Interrupt(level) | Reading::SmDtr(level) | Reading::Underflow(level) => {
                u32::from(level)
            }
            Reading::Receive(code) => u32::from(code.number()),
            Reading::Queue(code) => u32::from(code.number()),
            Reading::Shift(code) => u32::from(code.number()),
            Reading::Received(_, number) | Reading::Queued(_, number) => number,
            Reading::Shifted(number) => number,
            Reading::Line(bits) => bits,
            Reading::Refusal(Some(refusal)) => u32::from(refusal.number()),
            Reading::Refusal(None) => 0,
            Reading::Waiting(_, number) | Reading::Shifting(number) => number.unwrap_or(0),
        }
    }
}

/// A line of a script, which starts on a new adapter.
#[derive(Clone, Copy, Debug, PartialEq, Eq)]
pub enum Line {
    Do(Act),
    Comes(Reading),
}

/// An example: what it shows, in words, and its script.
#[derive(Clone, Copy, Debug, PartialEq, Eq)]
pub struct Example {
    pub title: &'static str,
    pub script: &'static [Line],
}

/// What came, beside what should come.
#[derive(Clone, Copy, Debug, PartialEq, Eq)]
pub struct Check {
    pub came: Reading,
    pub should: Reading,
}

impl Check {
    ghost use Rattle.bench.specs.Bench.{Agrees};

    /// Whether it came as it should.
    pub fn agrees(self) -> bool
        ensures { IsTrue result ↔ Agrees self }
    {
        self.came == self.should
    }
}
