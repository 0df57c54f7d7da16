//! The transmitter: when it loads a word, which word that is, and the bits that it shows.
ghost use Rattle.std.specs.Prelude.{◌≡◌};
ghost use Rattle.ssda.specs.Transmitter.{loads_at, ticked, timing_after, byte_number, empty_shift, number_if, word_for, underflows_for, shifted_on, bit_shown, shifting_in};

use crate::control::Setup;
use serial::queue::Numbered;

/// A byte written to transmit data, with its number.
#[derive(Clone, Copy, Debug, PartialEq, Eq)]
pub struct Byte {
    pub(crate) number: u32,
    pub(crate) byte: u8,
}

impl Numbered for Byte {
    ghost number = { byte_number };

    fn number(&self) -> u32 {
        self.number
    }
}

/// Where the transmitter is: held; starting, so that the next clock loads; or showing a word, with so many bits to come.
#[derive(Clone, Copy, Debug, PartialEq, Eq)]
pub enum Timing {
    Held,
    Starting,
    Showing { left: u8 },
}

/// The word that is being shown: the bits to come, the next one lowest, and the number of the byte, none for a fill.
#[derive(Clone, Copy, Debug, Default, PartialEq, Eq)]
pub struct Shift {
    pub(crate) bits: u16,
    pub(crate) number: Option<u32>,
}

impl Timing {
    // Whether the next clock loads a word.
    pub(crate) fn loads(self) -> bool
        ensures { result ≡ loads_at self }
    {
        match self {
            Timing::Held => false,
            Timing::Starting => true,
            Timing::Showing { left } => left <= 1,
        }
    }

    // A transmit clock; a word that it loads has `total` bits.
    pub(crate) fn tick(&mut self, total: u8)
        ensures { self.new ≡ ticked self.old total }
    {
        *self = match *self {
            Timing::Held => Timing::Held,
            Timing::Starting => Timing::Showing { left: total },
            Timing::Showing { left } if left <= 1 => Timing::Showing { left: total },
            Timing::Showing { left } => Timing::Showing { left: left - 1 },
        };
    }

    // What a new setting means for the transmitter: held, or starting when the hold ends.
    pub(crate) fn settle(&mut self, was_held: bool, is_held: bool)
        ensures { self.new ≡ timing_after self.old was_held is_held }
    {
        if is_held {
            *self = Timing::Held;
        } else if was_held {
            *self = Timing::Starting;
        }
    }
}

impl Shift {
    // No word.
    pub(crate) fn new() -> Shift
        ensures { result ≡ empty_shift }
    {
        Shift::default()
    }

    // The word of the byte that stands at the output, or else a fill. Answers whether that is an underflow.
    pub(crate) fn load(&mut self, output: Option<Byte>, setup: &Setup, code: u8) -> bool
        ensures shift { self.new ≡ word_for output setup.now.form code setup.now.tx_sync }
        ensures underflow { result ≡ underflows_for output setup.now.tx_sync }
    {
        let form = setup.form;
        let (bits, _) = match output {
            Some(byte) => form.pack(byte.byte),
            None if setup.tx_sync => form.sync_fill(code),
            None => form.mark_fill(),
        };
        *self = Shift {
            bits,
            number: output.and_then(|byte| number_if(byte.number)),
        };
        output.is_none() && setup.tx_sync
    }

    // The word is given up. Answers the number of the byte that is cut, if one is being shifted.
    pub(crate) fn cut(&mut self, timing: Timing) -> Option<u32>
        ensures shift { self.new ≡ empty_shift }
        ensures number { result ≡ shifting_in timing self.old }
    {
        let number = self.number_at(timing);
        *self = Shift::new();
        number
    }

    // One bit further.
    pub(crate) fn advance(&mut self)
        ensures { self.new ≡ shifted_on self.old }
    {
        self.bits /= 2;
    }

    // The bit that a clock shows: 1 while nothing is shown.
    pub(crate) fn bit_at(self, timing: Timing) -> u8
        ensures { result ≡ bit_shown timing self }
    {
        match timing {
            Timing::Held | Timing::Starting => 1,
            Timing::Showing { .. } => (self.bits % 2) as u8,
        }
    }

    // The number of the byte that is being shifted, if one is.
    pub(crate) fn number_at(self, timing: Timing) -> Option<u32>
        ensures { result ≡ shifting_in timing self }
    {
        match timing {
            Timing::Held | Timing::Starting => None,
            Timing::Showing { .. } => self.number.and_then(number_if),
        }
    }
}

// A number as that of a byte: 0 is nobody's.
fn number_if(number: u32) -> Option<u32>
    ensures { result ≡ number_if number }
{
    (number != 0).then_some(number)
}
