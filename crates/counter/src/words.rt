//! The story in words.
ghost use Rattle.std.specs.Prelude.{◌≡◌};
ghost use Rattle.counter.specs.Words.{word_of, overrun_in};

use crate::story::Step;
use serial::account::Account;
use serial::case::Case;
use serial::queue::Place;
use serial::slip::{ReceiveCode, Reply, Slip, Standing};
use std::fmt;

/// What a code says of a character; two sentences take it as a part.
pub fn word_of(code: ReceiveCode) -> &'static str
    ensures { result.now ≡ word_of code }
{
    match code {
        ReceiveCode::Nothing => "waiting",
        ReceiveCode::Delivered => "delivered",
        ReceiveCode::DeliveredMarked => "delivered with parity mark",
        ReceiveCode::Stripped => "stripped",
        ReceiveCode::Lost => "lost",
        ReceiveCode::Cleared => "cleared",
    }
}

/// Whether a Status byte shows overrun, its bit 5.
pub fn shows_overrun(status: u8) -> bool
    ensures { result ≡ overrun_in status }
{
    (status >> 5) % 2 == 1
}

/// A step that was played: the reply to its last event, and which characters wait after it.
#[derive(Clone, Copy, Debug)]
pub struct Played {
    pub step: Step,
    pub reply: Reply,
    pub standing: Standing,
}

impl fmt::Display for Played {
    fn fmt<W: fmt::Write>(&self, f: &mut fmt::Formatter<W>) -> fmt::Result {
        let value = self.reply.value;
        let fates = Fates {
            slip: self.reply.slip,
            value,
        };
        match self.step {
            Step::Write { rs, byte } => write!(f, "setup   writes {byte:02X}h with RS {rs}{fates}"),
            Step::Character(byte) => {
                let newest = Newest(self.standing.received.at(Place::One));
                write!(f, "line    brings '{}'{newest}{fates}", char::from(byte))
            }
            Step::Idle => write!(f, "screen  redraws, so the bus is idle{fates}"),
            Step::LoggerReadsStatus => {
                let overrun = if shows_overrun(value) {
                    ", overrun"
                } else {
                    ""
                };
                write!(f, "logger  reads Status: {value:02X}h{overrun}{fates}")
            }
            Step::DoserReadsData if self.reply.slip.receive == ReceiveCode::Nothing => write!(
                f,
                "doser   reads data: {value:02X}h once more"
            ),
            Step::DoserReadsData => write!(f, "doser   reads data{fates}"),
        }
    }
}

// The number of the character in place 1, which came last.
#[derive(Clone, Copy, Debug)]
struct Newest(Option<u32>);

impl fmt::Display for Newest {
    fn fmt<W: fmt::Write>(&self, f: &mut fmt::Formatter<W>) -> fmt::Result {
        match self.0 {
            Some(number) => write!(f, " as character {number}"),
            None => Ok(()),
        }
    }
}

// What a slip tells of received characters; one that is delivered comes with the byte that was read.
#[derive(Clone, Copy, Debug)]
struct Fates {
    slip: Slip,
    value: u8,
}

impl fmt::Display for Fates {
    fn fmt<W: fmt::Write>(&self, f: &mut fmt::Formatter<W>) -> fmt::Result {
        let word = word_of(self.slip.receive);
        let mut joint = ":";
        for number in self.slip.received.all() {
            if number != 0 {
                write!(f, "{joint} character {number} {word}")?;
                joint = ",";
            }
        }
        let value = self.value;
        match self.slip.receive {
            ReceiveCode::Delivered | ReceiveCode::DeliveredMarked => write!(f, ", {value:02X}h"),
            _ => Ok(()),
        }
    }
}

/// Which characters still wait, oldest first.
#[derive(Clone, Copy, Debug)]
pub struct Waiting(pub Standing);

impl fmt::Display for Waiting {
    fn fmt<W: fmt::Write>(&self, f: &mut fmt::Formatter<W>) -> fmt::Result {
        write!(f, "Still waiting:")?;
        let mut joint = "";
        for place in [Place::Three, Place::Two, Place::One] {
            if let Some(number) = self.0.received.at(place) {
                let place = place.number();
                write!(f, "{joint} character {number} in place {place}")?;
                joint = ",";
            }
        }
        if joint.is_empty() {
            write!(f, " nothing")?;
        }
        Ok(())
    }
}

/// The account of both directions, in two lines.
#[derive(Clone, Copy, Debug)]
pub struct Totals(pub Account);

impl fmt::Display for Totals {
    fn fmt<W: fmt::Write>(&self, f: &mut fmt::Formatter<W>) -> fmt::Result {
        let total = self.0;
        writeln!(
            f,
            "Characters: {} delivered, {} stripped, {} lost, {} cleared",
            total.delivered, total.stripped, total.lost, total.received_cleared
        )?;
        write!(
            f,
            "Written bytes: {} overwritten, {} cleared, {} sent, {} cut",
            total.overwritten, total.written_cleared, total.sent, total.cut
        )
    }
}

/// What became of the closing character, and so of the valve.
#[derive(Clone, Copy, Debug)]
pub struct Closing {
    pub number: u32,
    pub fate: ReceiveCode,
}

impl fmt::Display for Closing {
    fn fmt<W: fmt::Write>(&self, f: &mut fmt::Formatter<W>) -> fmt::Result {
        let number = self.number;
        let fate = word_of(self.fate);
        let valve = match self.fate {
            ReceiveCode::Delivered | ReceiveCode::DeliveredMarked => "closed",
            _ => "still open",
        };
        write!(
            f,
            "The closing character was character {number}: {fate}, so the valve is {valve}"
        )
    }
}
