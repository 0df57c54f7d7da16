//! What a serial part is given, and why it declines.
ghost use Rattle.std.specs.Prelude.{◌≡◌, ◌<◌};
ghost use Rattle.serial.specs.Events.{refusal_number, refusal_of, pin_of, bit_only, ranged, bit_event, character_events};

use crate::case::Case;

/// A cycle of the bus. One for another chip is idle.
#[derive(Clone, Copy, Debug, PartialEq, Eq)]
pub enum Cycle {
    Idle,
    Read { rs: u8 },
    Write { rs: u8, byte: u8 },
}

/// One thing that happens to a part, as the caller hands it over: by the rules every byte may come in every field, and one out of range is refused.
#[derive(Clone, Copy, Debug, PartialEq, Eq)]
pub enum Event {
    Bus(Cycle),
    ReceivedBit(u8),
    TransmitClock,
    PinLevel { pin: u8, level: u8 },
}

/// The pins that get a level.
#[derive(Clone, Copy, Debug, PartialEq, Eq)]
pub enum Pin {
    Reset,
    Cts,
    Dcd,
}

/// Why a call is declined.
#[derive(Clone, Copy, Debug, PartialEq, Eq)]
pub enum Refusal {
    NotABit = 1,
    NoSuchPin = 2,
    FramedFull = 3,
    WrittenFull = 4,
    CutRecord = 5,
    UnknownKind = 6,
    BadPayload = 7,
    OutputShort = 8,
    TooLong = 9,
}

impl Case for Refusal {
    ghost number_of = { refusal_number };

    ghost case_of = { refusal_of };

    fn number(self) -> u8 {
        self as u8
    }
}

impl TryFrom<u8> for Pin {
    type Error = Refusal;

    ghost try_from_gives = { λ pin r. r ≡ pin_of pin };

    fn try_from(pin: u8) -> Result<Pin, Refusal> {
        match pin {
            0 => Ok(Pin::Reset),
            1 => Ok(Pin::Cts),
            2 => Ok(Pin::Dcd),
            _ => Err(Refusal::NoSuchPin),
        }
    }
}

impl Event {
    /// The eight received bits of a character, lowest first. Written out, since the check proves nothing of an array that
    /// a closure makes.
    pub fn character(byte: u8) -> [Event; 8]
        ensures { result ≡ character_events byte }
    {
        [
            bit_event(byte, 0),
            bit_event(byte, 1),
            bit_event(byte, 2),
            bit_event(byte, 3),
            bit_event(byte, 4),
            bit_event(byte, 5),
            bit_event(byte, 6),
            bit_event(byte, 7),
        ]
    }

    /// Whether every field is in its range: first the pin, then bit, level and register select.
    pub fn check_range(self) -> Result<(), Refusal>
        ensures { result ≡ ranged self }
    {
        match self {
            Event::Bus(Cycle::Idle) | Event::TransmitClock => Ok(()),
            Event::Bus(Cycle::Read { rs }) | Event::Bus(Cycle::Write { rs, .. }) => check_bit(rs),
            Event::ReceivedBit(bit) => check_bit(bit),
            Event::PinLevel { pin, level } => {
                Pin::try_from(pin)?;
                check_bit(level)
            }
        }
    }
}

// The bit of a byte at a place.
fn bit_event(byte: u8, place: u8) -> Event
    requires { place < 8 }
    ensures { result ≡ bit_event byte place }
{
    Event::ReceivedBit((byte >> place) % 2)
}

fn check_bit(value: u8) -> Result<(), Refusal>
    ensures { result ≡ bit_only value }
{
    if value > 1 {
        return Err(Refusal::NotABit);
    }
    Ok(())
}
