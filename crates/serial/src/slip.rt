//! What a part answers: a reply, and on it a slip that tells which characters an event concerned.
ghost use Rattle.std.specs.Prelude.{◌≡◌};
ghost use Rattle.serial.specs.Slips.{receive_number, receive_of, queue_number, queue_code_of, shift_number, shift_of, quiet_slip};

use crate::case::Case;
use crate::queue::{Numbers, Queue};

/// What happened to received characters.
#[derive(Clone, Copy, Debug, Default, PartialEq, Eq)]
pub enum ReceiveCode {
    #[default]
    Nothing = 0,
    Delivered = 1,
    DeliveredMarked = 2,
    Stripped = 3,
    Lost = 4,
    Cleared = 5,
}

/// What happened to written bytes in the queue.
#[derive(Clone, Copy, Debug, Default, PartialEq, Eq)]
pub enum QueueCode {
    #[default]
    Nothing = 0,
    Overwritten = 1,
    Cleared = 2,
}

/// What happened to the byte that is being shifted: a bit of it, its last bit, so that it is sent, or a cut.
#[derive(Clone, Copy, Debug, Default, PartialEq, Eq)]
pub enum ShiftCode {
    #[default]
    Nothing = 0,
    Bit = 1,
    LastBit = 2,
    Cut = 3,
}

/// Three codes, and the numbers that each is about; by the rules of a slip a field that is not used is 0.
#[derive(Clone, Copy, Debug, Default, PartialEq, Eq)]
pub struct Slip {
    pub receive: ReceiveCode,
    pub received: Numbers,
    pub queue: QueueCode,
    pub queued: Numbers,
    pub shift: ShiftCode,
    pub shifted: u32,
}

/// The answer to an accepted event: the byte read or the bit sent, by the rules of a reply else 0; the signals after it; and the slip.
#[derive(Clone, Copy, Debug, Default, PartialEq, Eq)]
pub struct Reply {
    pub value: u8,
    pub interrupt: bool,
    pub sm_dtr: bool,
    pub underflow: bool,
    pub slip: Slip,
}

/// Which numbers wait, place by place, in each direction, and which byte is being shifted.
#[derive(Clone, Copy, Debug, PartialEq, Eq)]
pub struct Standing {
    pub received: Queue<u32>,
    pub queued: Queue<u32>,
    pub shifting: Option<u32>,
}

impl Case for ReceiveCode {
    ghost number_of = { receive_number };

    ghost case_of = { receive_of };

    fn number(self) -> u8 {
        self as u8 // from 0 to 5
    }
}

impl Case for QueueCode {
    ghost number_of = { queue_number };

    ghost case_of = { queue_code_of };

    fn number(self) -> u8 {
        self as u8 // from 0 to 2
    }
}

impl Case for ShiftCode {
    ghost number_of = { shift_number };

    ghost case_of = { shift_of };

    fn number(self) -> u8 {
        self as u8 // from 0 to 3
    }
}

impl Slip {
    /// The slip of an event that concerned no character.
    pub fn quiet() -> Slip
        ensures { result ≡ quiet_slip }
    {
        Slip::default()
    }
}
