//! The worked examples of the rules, each as in the table of specs/.
ghost use Rattle.std.specs.Prelude.{◌≡◌, map};
ghost use Rattle.bench.specs.Table.{entry_of, script_at, worked, WorkedHold};
ghost use Rattle.bench.specs.Worked as rule;

use crate::script::{Act, Example, Field, Line, Reading};
use serial::queue::Place;
use serial::slip::{QueueCode, ReceiveCode, ShiftCode};

// The scripts. What each shows is its title in the table below.
const SEVEN_WITH_EVEN: &[Line] = &[
    Line::Do(Act::Write { rs: 1, byte: 0x20 }),
    Line::Do(Act::Write { rs: 0, byte: 0xc1 }),
    Line::Do(Act::Write { rs: 1, byte: 0x41 }),
    Line::Do(Act::Idle),
    Line::Do(Act::Clocks(1)),
    Line::Do(Act::Clocks(8)),
    Line::Comes(Reading::Line(0b10000010)),
    Line::Comes(Reading::Shift(ShiftCode::LastBit)),
    Line::Comes(Reading::Shifted(1)),
];

const SEVEN_WITH_ODD: &[Line] = &[
    Line::Do(Act::Write { rs: 1, byte: 0x28 }),
    Line::Do(Act::Write { rs: 0, byte: 0xc1 }),
    Line::Do(Act::Write { rs: 1, byte: 0x41 }),
    Line::Do(Act::Idle),
    Line::Do(Act::Clocks(1)),
    Line::Do(Act::Clocks(8)),
    Line::Comes(Reading::Line(0b10000011)),
];

const SIX_WITH_ODD: &[Line] = &[
    Line::Do(Act::Write { rs: 1, byte: 0x08 }),
    Line::Do(Act::Write { rs: 0, byte: 0xc1 }),
    Line::Do(Act::Write { rs: 1, byte: 0xff }),
    Line::Do(Act::Idle),
    Line::Do(Act::Clocks(1)),
    Line::Do(Act::Clocks(7)),
    Line::Comes(Reading::Line(0b1111111)),
];

const SYNC_FILL_OF_SEVEN: &[Line] = &[
    Line::Do(Act::Write { rs: 0, byte: 0x83 }),
    Line::Do(Act::Write { rs: 1, byte: 0x16 }),
    Line::Do(Act::Write { rs: 0, byte: 0x03 }),
    Line::Do(Act::Write { rs: 1, byte: 0x40 }),
    Line::Do(Act::Write { rs: 0, byte: 0x01 }),
    Line::Do(Act::Clocks(1)),
    Line::Comes(Reading::Underflow(true)),
    Line::Do(Act::Clocks(7)),
    Line::Comes(Reading::Line(0b0110100)),
];

const SYNC_FILL_OF_NINE: &[Line] = &[
    Line::Do(Act::Write { rs: 0, byte: 0x83 }),
    Line::Do(Act::Write { rs: 1, byte: 0x16 }),
    Line::Do(Act::Write { rs: 0, byte: 0x03 }),
    Line::Do(Act::Write { rs: 1, byte: 0x70 }),
    Line::Do(Act::Write { rs: 0, byte: 0x01 }),
    Line::Do(Act::Clocks(1)),
    Line::Comes(Reading::Underflow(true)),
    Line::Do(Act::Clocks(9)),
    Line::Comes(Reading::Line(0b011010001)),
];

const MARK_FILL: &[Line] = &[
    Line::Do(Act::Write { rs: 1, byte: 0x30 }),
    Line::Do(Act::Write { rs: 0, byte: 0x01 }),
    Line::Do(Act::Clocks(1)),
    Line::Comes(Reading::Underflow(false)),
    Line::Do(Act::Clocks(9)),
    Line::Comes(Reading::Line(0b111111111)),
    Line::Do(Act::Read { rs: 0 }),
    Line::Comes(Reading::Byte(0x02)),
];

const NEW_STATUS: &[Line] = &[
    Line::Do(Act::Read { rs: 0 }),
    Line::Comes(Reading::Byte(0x00)),
    Line::Do(Act::Write { rs: 0, byte: 0x00 }),
    Line::Do(Act::Read { rs: 0 }),
    Line::Comes(Reading::Byte(0x02)),
    Line::Do(Act::Write { rs: 0, byte: 0x10 }),
    Line::Do(Act::Read { rs: 0 }),
    Line::Comes(Reading::Byte(0x82)),
];

const ONE_BIT_TO_SYNC: &[Line] = &[
    Line::Do(Act::Write { rs: 0, byte: 0x83 }),
    Line::Do(Act::Write { rs: 1, byte: 0x7f }),
    Line::Do(Act::Write { rs: 0, byte: 0x43 }),
    Line::Do(Act::Write { rs: 1, byte: 0x02 }),
    Line::Do(Act::Write { rs: 0, byte: 0x03 }),
    Line::Do(Act::Write { rs: 1, byte: 0x1d }),
    Line::Do(Act::Write { rs: 0, byte: 0x00 }),
    Line::Comes(Reading::SmDtr(false)),
    Line::Do(Act::Bit(0)),
    Line::Comes(Reading::SmDtr(true)),
    Line::Do(Act::Character(0x41)),
    Line::Comes(Reading::Waiting(Place::One, Some(1))),
    Line::Do(Act::Idle),
    Line::Do(Act::Read { rs: 1 }),
    Line::Comes(Reading::Byte(0x41)),
    Line::Comes(Reading::Receive(ReceiveCode::Delivered)),
    Line::Comes(Reading::Received(Field::First, 1)),
];

const TWO_SYNC_CODES: &[Line] = &[
    Line::Do(Act::Write { rs: 0, byte: 0x83 }),
    Line::Do(Act::Write { rs: 1, byte: 0x16 }),
    Line::Do(Act::Write { rs: 0, byte: 0x03 }),
    Line::Do(Act::Write { rs: 1, byte: 0x1c }),
    Line::Do(Act::Write { rs: 0, byte: 0x00 }),
    Line::Do(Act::Character(0x16)),
    Line::Do(Act::Character(0x16)),
    Line::Do(Act::Character(0x41)),
    Line::Comes(Reading::Waiting(Place::One, Some(1))),
    Line::Do(Act::Idle),
    Line::Do(Act::Read { rs: 1 }),
    Line::Comes(Reading::Byte(0x41)),
    Line::Comes(Reading::Receive(ReceiveCode::Delivered)),
    Line::Comes(Reading::Received(Field::First, 1)),
];

const SECOND_IS_NO_SYNC_CODE: &[Line] = &[
    Line::Do(Act::Write { rs: 0, byte: 0x83 }),
    Line::Do(Act::Write { rs: 1, byte: 0x16 }),
    Line::Do(Act::Write { rs: 0, byte: 0x03 }),
    Line::Do(Act::Write { rs: 1, byte: 0x1c }),
    Line::Do(Act::Write { rs: 0, byte: 0x00 }),
    Line::Do(Act::Character(0x16)),
    Line::Do(Act::Character(0x41)),
    Line::Do(Act::Character(0x16)),
    Line::Do(Act::Character(0x16)),
    Line::Comes(Reading::Waiting(Place::One, None)),
    Line::Do(Act::Character(0x42)),
    Line::Comes(Reading::Waiting(Place::One, Some(1))),
];

const NEWEST_IS_LOST: &[Line] = &[
    Line::Do(Act::Write { rs: 0, byte: 0x43 }),
    Line::Do(Act::Write { rs: 1, byte: 0x01 }),
    Line::Do(Act::Write { rs: 0, byte: 0x03 }),
    Line::Do(Act::Write { rs: 1, byte: 0x1c }),
    Line::Do(Act::Write { rs: 0, byte: 0x00 }),
    Line::Do(Act::Character(0x41)),
    Line::Do(Act::Idle),
    Line::Do(Act::Character(0x42)),
    Line::Do(Act::Idle),
    Line::Do(Act::Character(0x43)),
    Line::Comes(Reading::Waiting(Place::Three, Some(1))),
    Line::Comes(Reading::Waiting(Place::Two, Some(2))),
    Line::Comes(Reading::Waiting(Place::One, Some(3))),
    Line::Do(Act::Character(0x44)),
    Line::Comes(Reading::Receive(ReceiveCode::Lost)),
    Line::Comes(Reading::Received(Field::First, 3)),
    Line::Comes(Reading::Received(Field::Second, 0)),
    Line::Comes(Reading::Waiting(Place::One, Some(4))),
];

const LOSS_AFTER_STATUS: &[Line] = &[
    Line::Do(Act::Write { rs: 0, byte: 0x43 }),
    Line::Do(Act::Write { rs: 1, byte: 0x01 }),
    Line::Do(Act::Write { rs: 0, byte: 0x03 }),
    Line::Do(Act::Write { rs: 1, byte: 0x1c }),
    Line::Do(Act::Write { rs: 0, byte: 0x00 }),
    Line::Do(Act::Character(0x01)),
    Line::Do(Act::Character(0x02)),
    Line::Comes(Reading::Receive(ReceiveCode::Lost)),
    Line::Comes(Reading::Received(Field::First, 1)),
    Line::Do(Act::Read { rs: 0 }),
    Line::Comes(Reading::Byte(0x22)),
    Line::Do(Act::Character(0x03)),
    Line::Comes(Reading::Receive(ReceiveCode::Lost)),
    Line::Comes(Reading::Received(Field::First, 2)),
    Line::Do(Act::Read { rs: 1 }),
    Line::Comes(Reading::Receive(ReceiveCode::Nothing)),
    Line::Do(Act::Read { rs: 0 }),
    Line::Comes(Reading::Byte(0x22)),
];

const CTS_IS_STORED: &[Line] = &[
    Line::Do(Act::Write { rs: 0, byte: 0x00 }),
    Line::Do(Act::Write { rs: 1, byte: 0x80 }),
    Line::Do(Act::Pin { pin: 1, level: 1 }),
    Line::Do(Act::Read { rs: 0 }),
    Line::Comes(Reading::Byte(0x88)),
    Line::Do(Act::Write { rs: 0, byte: 0x40 }),
    Line::Do(Act::Write { rs: 1, byte: 0x04 }),
    Line::Do(Act::Read { rs: 0 }),
    Line::Comes(Reading::Byte(0x08)),
];

const OVERWRITTEN: &[Line] = &[
    Line::Do(Act::Write { rs: 0, byte: 0xc1 }),
    Line::Do(Act::Write { rs: 1, byte: 0x55 }),
    Line::Comes(Reading::Queue(QueueCode::Nothing)),
    Line::Do(Act::Write { rs: 1, byte: 0x56 }),
    Line::Comes(Reading::Queue(QueueCode::Overwritten)),
    Line::Comes(Reading::Queued(Field::First, 1)),
];

// Each with what it shows. The rows are references: with these the check can find values at which the clause of a wrong script fails.
static EXAMPLES: [&Example; 14] = [
    &Example {
        title: "41h in 7 with even parity is 10000010",
        script: SEVEN_WITH_EVEN,
    },
    &Example {
        title: "41h in 7 with odd parity is 10000011",
        script: SEVEN_WITH_ODD,
    },
    &Example {
        title: "FFh in 6 with odd parity is 1111111",
        script: SIX_WITH_ODD,
    },
    &Example {
        title: "the sync fill 16h in form 000 is 0110100",
        script: SYNC_FILL_OF_SEVEN,
    },
    &Example {
        title: "the sync fill 16h in form 110 is 011010001",
        script: SYNC_FILL_OF_NINE,
    },
    &Example {
        title: "the mark fill in form 110 is nine ones, and TUF stays 0",
        script: MARK_FILL,
    },
    &Example {
        title: "a new Status is 00h; after C1 = 00h it is 02h, and after C1 = 10h 82h",
        script: NEW_STATUS,
    },
    &Example {
        title: "form 011, 1-sync, code 7Fh, restart, one bit 0: in sync",
        script: ONE_BIT_TO_SYNC,
    },
    &Example {
        title: "form 011, code 16h, two sync codes asked for: after 16h, 16h comes 41h as number 1",
        script: TWO_SYNC_CODES,
    },
    &Example {
        title: "set up like that, 16h, 41h, 16h, 16h: in sync, and nothing framed",
        script: SECOND_IS_NO_SYNC_CODE,
    },
    &Example {
        title: "places 3, 2 and 1 hold 41h, 42h and 43h; 44h arrives: number 3 is lost",
        script: NEWEST_IS_LOST,
    },
    &Example {
        title: "loss, Status read, loss, data read, Status read: overrun still shows",
        script: LOSS_AFTER_STATUS,
    },
    &Example {
        title: "C1 = 00h, C2 = 80h, CTS rises: Status 88h; after Clear CTS 08h",
        script: CTS_IS_STORED,
    },
    &Example {
        title: "two transmit writes without an idle cycle: number 1 is overwritten",
        script: OVERWRITTEN,
    },
];

/// The worked examples of the rules. All that must come by them does come.
pub fn examples() -> &'static [&'static Example; 14]
    ensures seven_with_even { script_at 0 result.now ≡ rule.seven_with_even }
    ensures seven_with_odd { script_at 1 result.now ≡ rule.seven_with_odd }
    ensures six_with_odd { script_at 2 result.now ≡ rule.six_with_odd }
    ensures sync_fill_of_seven { script_at 3 result.now ≡ rule.sync_fill_of_seven }
    ensures sync_fill_of_nine { script_at 4 result.now ≡ rule.sync_fill_of_nine }
    ensures mark_fill { script_at 5 result.now ≡ rule.mark_fill }
    ensures new_status { script_at 6 result.now ≡ rule.new_status }
    ensures one_bit_to_sync { script_at 7 result.now ≡ rule.one_bit_to_sync }
    ensures two_sync_codes { script_at 8 result.now ≡ rule.two_sync_codes }
    ensures second_is_no_sync_code { script_at 9 result.now ≡ rule.second_is_no_sync_code }
    ensures newest_is_lost { script_at 10 result.now ≡ rule.newest_is_lost }
    ensures loss_after_status { script_at 11 result.now ≡ rule.loss_after_status }
    ensures cts_is_stored { script_at 12 result.now ≡ rule.cts_is_stored }
    ensures overwritten { script_at 13 result.now ≡ rule.overwritten }
    ensures table { map (λ e. entry_of e.now) result.now ≡ worked }
    ensures hold { WorkedHold }
{
    &EXAMPLES
}
