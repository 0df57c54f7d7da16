//! Worked examples: what is put on the line, and the bits that must be seen there.
ghost use Rattle.std.specs.Prelude.{◌≡◌};
ghost use Rattle.serial.specs.Words.{handed};
ghost use Rattle.serial.specs.Examples.{line_of, examples, ExamplesHold};

use crate::word::Form;

/// What is put on the line.
#[derive(Clone, Copy, Debug, PartialEq, Eq)]
pub enum Sending {
    Word(Form, u8),
    SyncFill(Form, u8),
    MarkFill(Form),
}

impl Sending {
    /// The bits on the line, the first one lowest, and how many there are.
    pub fn line(self) -> (u16, u8)
        ensures { result ≡ handed (line_of self) }
    {
        match self {
            Sending::Word(form, byte) => form.pack(byte),
            Sending::SyncFill(form, code) => form.sync_fill(code),
            Sending::MarkFill(form) => form.mark_fill(),
        }
    }
}

/// An example: what is sent, and the bits that must come, the first one lowest, with their count.
#[derive(Clone, Copy, Debug, PartialEq, Eq)]
pub struct Example {
    pub sending: Sending,
    pub bits: u16,
    pub count: u8,
}

/// The worked examples. Here the last bit on the line is written first.
pub fn worked_examples() -> [Example; 6]
    ensures table { result ≡ examples }
    ensures hold { ExamplesHold }
{
    [
        showing(Sending::Word(Form::SevenEven, 0x41), 0b0100_0001, 8),
        showing(Sending::Word(Form::SevenOdd, 0x41), 0b1100_0001, 8),
        showing(Sending::Word(Form::SixOdd, 0xff), 0b111_1111, 7),
        showing(Sending::SyncFill(Form::SixEven, 0x16), 0b001_0110, 7),
        showing(Sending::SyncFill(Form::EightEven, 0x16), 0b1_0001_0110, 9),
        showing(Sending::MarkFill(Form::EightEven), 0b1_1111_1111, 9),
    ]
}

fn showing(sending: Sending, bits: u16, count: u8) -> Example
    ensures { result ≡ record { sending = sending; bits = bits; count = count } }
{
    Example {
        sending,
        bits,
        count,
    }
}
