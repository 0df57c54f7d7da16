//! What each accepted event does to the state, and what it tells.
ghost use Rattle.std.specs.Prelude.{◌≡◌, ◌<◌, true};
ghost use Rattle.ssda.specs.Step.{told_of, idled, status_was_read, status_told, data_was_read, data_told, took_in, bit_told, data_was_written, write_told, with_character, loss_told, tell_receive, tell_queue, delivered, tell_shift, cut_state, cut_told, receiver_reset_if, receiver_reset_told, transmitter_reset_if, transmitter_reset_told, c1_was_written, c1_told, fell_under_reset, reset_told, reset_changed, reset_change_told, c3_was_written, cts_changed, cts_told, dcd_changed, loaded_state, clocked, clock_told};
ghost use Rattle.serial.specs.declared.queue.Place.TheVariants.{Three};
ghost use Rattle.serial.specs.Queue.{standing_at};
ghost use Rattle.ssda.specs.declared.front.TheConstants.{NUMBER_LIMIT};
ghost use Rattle.ssda.specs.Receiver.{bit_value};
ghost use Rattle.ssda.specs.Transmitter.{underflows_for};
ghost use Rattle.serial.specs.Slips.{quiet_slip};

use crate::control::bit_of;
use crate::receiver::Character;
use crate::state::State;
use crate::transmitter::Byte;
use serial::slip::{QueueCode, ReceiveCode, ShiftCode, Slip};

/// What an event tells besides the signals after it: the byte read or bit sent, the underflow pulse, and the slip.
#[derive(Clone, Copy, Debug, Default, PartialEq, Eq)]
pub struct Told {
    pub(crate) value: u8,
    pub(crate) underflow: bool,
    pub(crate) slip: Slip,
}

impl Told {
    // Nothing is told.
    pub(crate) fn quiet() -> Told
        ensures { result ≡ told_of 0 quiet_slip }
    {
        Told::default()
    }
}

impl State {
    // An idle cycle: both queues rise.
    pub(crate) fn idle(&mut self) -> Told
        ensures state { self.new ≡ idled self.old }
        ensures told { result ≡ told_of 0 quiet_slip }
    {
        self.receive.rise();
        self.transmit.rise();
        Told::quiet()
    }

    // A Status read.
    pub(crate) fn read_status(&mut self) -> Told
        ensures state { self.new ≡ status_was_read self.old }
        ensures told { result ≡ status_told self.old }
    {
        let status = self.status();
        self.flags.read_status();
        tell(status, Slip::quiet())
    }

    // A data read takes the output; with none there it gives the last byte taken once more.
    pub(crate) fn read_data(&mut self) -> Told
        ensures state { self.new ≡ data_was_read self.old }
        ensures told { result ≡ data_told self.old }
    {
        self.flags.read_data();
        match self.receive.take() {
            Some(character) => {
                self.last = character.byte;
                tell(character.byte, delivery(character))
            }
            None => tell(self.last, Slip::quiet()),
        }
    }

    // A received bit. Only some states have room for one more number, so that is asked here and tested once, in `check`.
    pub(crate) fn receive_bit(&mut self, bit: bool) -> Told
        requires room { self.old.front.receiver.framed < NUMBER_LIMIT }
        ensures state { self.new ≡ took_in self.old (bit_value bit) }
        ensures told { result ≡ bit_told self.old (bit_value bit) }
    {
        match self.front.hear(bit) {
            Some(character) if self.front.strips() => {
                tell(0, tell_receive(ReceiveCode::Stripped, character.number))
            }
            Some(character) => self.take_in(character),
            None => Told::quiet(),
        }
    }

    // A framed character enters the receive queue; what it displaces there is lost.
    fn take_in(&mut self, character: Character) -> Told
        ensures state { self.new ≡ with_character self.old character }
        ensures told { result ≡ loss_told self.old }
    {
        match self.receive.enter(character) {
            Some(lost) => {
                self.flags.lose();
                tell(0, tell_receive(ReceiveCode::Lost, lost.number))
            }
            None => Told::quiet(),
        }
    }

    // A byte written to transmit data enters the transmit queue; what it displaces there is overwritten.
    pub(crate) fn write_data(&mut self, byte: u8) -> Told
        requires room { self.old.front.written < NUMBER_LIMIT }
        ensures state { self.new ≡ data_was_written self.old byte }
        ensures told { result ≡ write_told self.old }
    {
        let number = self.front.count_write();
        match self.transmit.enter(Byte { number, byte }) {
            Some(overwritten) => tell(0, tell_queue(QueueCode::Overwritten, overwritten.number)),
            None => Told::quiet(),
        }
    }

    // A write to C1, with the resets that it makes.
    pub(crate) fn write_c1(&mut self, byte: u8) -> Told
        ensures state { self.new ≡ c1_was_written self.old byte }
        ensures told { result ≡ c1_told self.old byte }
    {
        let mut slip = Slip::quiet();
        if bit_of(byte, 0) {
            self.reset_receiver(&mut slip);
        }
        if bit_of(byte, 1) {
            self.reset_transmitter(&mut slip);
        }
        self.front.write_c1(byte);
        tell(0, slip)
    }

    // RESET gets another level.
    pub(crate) fn change_reset(&mut self, high: bool) -> Told
        ensures state { self.new ≡ reset_changed self.old high }
        ensures told { result ≡ reset_change_told self.old high }
    {
        if high {
            self.front.rise_from_reset();
            Told::quiet()
        } else {
            self.fall_under_reset()
        }
    }

    // RESET falls: both resets, and what RESET holds.
    fn fall_under_reset(&mut self) -> Told
        ensures state { self.new ≡ fell_under_reset self.old }
        ensures told { result ≡ reset_told self.old }
    {
        let mut slip = Slip::quiet();
        self.reset_receiver(&mut slip);
        self.reset_transmitter(&mut slip);
        self.front.fall_under_reset();
        tell(0, slip)
    }

    // A write to C3: what it clears, and what it keeps.
    pub(crate) fn write_c3(&mut self, byte: u8) -> Told
        ensures state { self.new ≡ c3_was_written self.old byte }
        ensures told { result ≡ told_of 0 quiet_slip }
    {
        self.flags.write_c3(byte);
        self.front.write_c3(byte);
        Told::quiet()
    }

    // CTS gets another level. Rising, it is stored and cuts the byte that is being shifted.
    pub(crate) fn change_cts(&mut self, high: bool) -> Told
        ensures state { self.new ≡ cts_changed self.old high }
        ensures told { result ≡ cts_told self.old high }
    {
        let mut slip = Slip::quiet();
        if high {
            self.flags.raise_cts();
            self.cut(&mut slip);
        }
        self.front.set_cts(high);
        tell(0, slip)
    }

    // DCD gets another level. Rising, it is stored.
    pub(crate) fn change_dcd(&mut self, high: bool) -> Told
        ensures state { self.new ≡ dcd_changed self.old high }
        ensures told { result ≡ told_of 0 quiet_slip }
    {
        if high {
            self.flags.raise_dcd();
        }
        self.front.set_dcd(high);
        Told::quiet()
    }

    // A transmit clock shows a bit; one that shows a word's last bit, or none after a hold, loads the next word.
    pub(crate) fn clock(&mut self) -> Told
        ensures state { self.new ≡ clocked self.old }
        ensures told { result ≡ clock_told self.old }
    {
        let timing = self.front.timing;
        let value = self.shift.bit_at(timing);
        let slip = tell_shift(self.shift.number_at(timing), timing.loads());
        let underflow = if timing.loads() {
            self.load()
        } else {
            self.shift.advance();
            false
        };
        self.front.tick();
        Told {
            value,
            underflow,
            slip,
        }
    }

    // The next word is loaded from the output. Answers whether that is an underflow.
    fn load(&mut self) -> bool
        ensures state { self.new ≡ loaded_state self.old }
        ensures underflow { result ≡ underflows_for (standing_at self.old.transmit Three) self.old.front.setup.tx_sync }
    {
        let output = self.transmit.take();
        let underflow = self.shift.load(output, &self.front.setup, self.front.code);
        if underflow {
            self.flags.underflow();
        }
        underflow
    }

    // A reset of the receiver: its queue is emptied, and overrun, the stored DCD and both arms are cleared. The two resets differ in
    // queue, code and flags, and only `reset_transmitter` cuts.
    fn reset_receiver(&mut self, slip: &mut Slip)
        ensures state { self.new ≡ receiver_reset_if true self.old }
        ensures slip { slip.new ≡ receiver_reset_told true self.old slip.old }
    {
        let cleared = self.receive.clear();
        if !cleared.is_empty() {
            slip.receive = ReceiveCode::Cleared;
        }
        slip.received = cleared;
        self.flags.reset_receiver();
    }

    // A reset of the transmitter: its queue is emptied, the byte that is being shifted is cut, and TUF and the stored CTS are cleared.
    fn reset_transmitter(&mut self, slip: &mut Slip)
        ensures state { self.new ≡ transmitter_reset_if true self.old }
        ensures slip { slip.new ≡ transmitter_reset_told true self.old slip.old }
    {
        let cleared = self.transmit.clear();
        if !cleared.is_empty() {
            slip.queue = QueueCode::Cleared;
        }
        slip.queued = cleared;
        self.cut(slip);
        self.flags.reset_transmitter();
    }

    // The byte that is being shifted, if one is, is cut.
    fn cut(&mut self, slip: &mut Slip)
        ensures state { self.new ≡ cut_state self.old }
        ensures slip { slip.new ≡ cut_told self.old slip.old }
    {
        let number = self.shift.cut(self.front.timing);
        if number.is_some() {
            slip.shift = ShiftCode::Cut;
        }
        slip.shifted = number.unwrap_or(0);
    }
}

// A slip that tells a bit of a byte, or its last bit.
fn tell_shift(number: Option<u32>, last: bool) -> Slip
    ensures { result ≡ tell_shift number last }
{
    match number {
        Some(shifted) => Slip {
            shift: if last {
                ShiftCode::LastBit
            } else {
                ShiftCode::Bit
            },
            shifted,
            ..Slip::quiet()
        },
        None => Slip::quiet(),
    }
}

// A value and a slip are told, and no underflow.
fn tell(value: u8, slip: Slip) -> Told
    ensures { result ≡ told_of value slip }
{
    Told {
        value,
        underflow: false,
        slip,
    }
}

// A slip that tells one received character. This and `tell_queue` fill different fields, and a parameter for the field would be longer.
fn tell_receive(receive: ReceiveCode, number: u32) -> Slip
    ensures { result ≡ tell_receive receive number }
{
    Slip {
        receive,
        received: number.into(),
        ..Slip::quiet()
    }
}

// A slip that tells one written byte.
fn tell_queue(queue: QueueCode, number: u32) -> Slip
    ensures { result ≡ tell_queue queue number }
{
    Slip {
        queue,
        queued: number.into(),
        ..Slip::quiet()
    }
}

// The delivery of a character, by its parity mark.
fn delivery(character: Character) -> Slip
    ensures { result ≡ delivered character }
{
    let receive = if character.mark {
        ReceiveCode::DeliveredMarked
    } else {
        ReceiveCode::Delivered
    };
    tell_receive(receive, character.number)
}
