//! Further examples, each as in the table of specs/.
ghost use Rattle.std.specs.Prelude.{◌≡◌, map};
ghost use Rattle.bench.specs.Table.{entry_of, script_at, further, FurtherHold};
ghost use Rattle.bench.specs.Further as more;

use crate::script::{Act, Example, Field, Line, Reading};
use serial::event::Refusal;
use serial::queue::Place;
use serial::slip::{QueueCode, ReceiveCode, ShiftCode};

// The scripts. What each shows is its title in the table below.
const OVERRUN_KEEPS_ARRIVING: &[Line] = &[
    Line::Do(Act::Write { rs: 0, byte: 0x43 }),
    Line::Do(Act::Write { rs: 1, byte: 0x01 }),
    Line::Do(Act::Write { rs: 0, byte: 0x03 }),
    Line::Do(Act::Write { rs: 1, byte: 0x1c }),
    Line::Do(Act::Write { rs: 0, byte: 0x00 }),
    Line::Do(Act::Character(0x11)),
    Line::Do(Act::Idle),
    Line::Do(Act::Character(0x22)),
    Line::Do(Act::Idle),
    Line::Do(Act::Character(0x33)),
    Line::Do(Act::Character(0x44)),
    Line::Do(Act::Read { rs: 1 }),
    Line::Comes(Reading::Byte(0x11)),
    Line::Do(Act::Idle),
    Line::Do(Act::Read { rs: 1 }),
    Line::Comes(Reading::Byte(0x22)),
    Line::Do(Act::Idle),
    Line::Do(Act::Read { rs: 1 }),
    Line::Comes(Reading::Byte(0x44)),
    Line::Comes(Reading::Receive(ReceiveCode::Delivered)),
    Line::Comes(Reading::Received(Field::First, 4)),
];

const OVERRUN_WITH_EMPTY_PLACES: &[Line] = &[
    Line::Do(Act::Write { rs: 0, byte: 0x43 }),
    Line::Do(Act::Write { rs: 1, byte: 0x01 }),
    Line::Do(Act::Write { rs: 0, byte: 0x03 }),
    Line::Do(Act::Write { rs: 1, byte: 0x1c }),
    Line::Do(Act::Write { rs: 0, byte: 0x00 }),
    Line::Do(Act::Character(0x01)),
    Line::Do(Act::Character(0x02)),
    Line::Comes(Reading::Receive(ReceiveCode::Lost)),
    Line::Comes(Reading::Received(Field::First, 1)),
    Line::Comes(Reading::Received(Field::Second, 0)),
    Line::Comes(Reading::Waiting(Place::One, Some(2))),
    Line::Comes(Reading::Waiting(Place::Three, None)),
    Line::Do(Act::Read { rs: 0 }),
    Line::Comes(Reading::Byte(0x22)),
    Line::Do(Act::Read { rs: 1 }),
    Line::Comes(Reading::Byte(0x00)),
    Line::Comes(Reading::Receive(ReceiveCode::Nothing)),
    Line::Do(Act::Read { rs: 0 }),
    Line::Comes(Reading::Byte(0x02)),
];

const SECOND_READ_REPEATS: &[Line] = &[
    Line::Do(Act::Write { rs: 0, byte: 0x43 }),
    Line::Do(Act::Write { rs: 1, byte: 0x01 }),
    Line::Do(Act::Write { rs: 0, byte: 0x03 }),
    Line::Do(Act::Write { rs: 1, byte: 0x1c }),
    Line::Do(Act::Write { rs: 0, byte: 0x00 }),
    Line::Do(Act::Character(0xa5)),
    Line::Do(Act::Idle),
    Line::Do(Act::Character(0x5a)),
    Line::Do(Act::Idle),
    Line::Do(Act::Read { rs: 1 }),
    Line::Comes(Reading::Byte(0xa5)),
    Line::Comes(Reading::Receive(ReceiveCode::Delivered)),
    Line::Comes(Reading::Received(Field::First, 1)),
    Line::Do(Act::Read { rs: 1 }),
    Line::Comes(Reading::Byte(0xa5)),
    Line::Comes(Reading::Receive(ReceiveCode::Nothing)),
    Line::Comes(Reading::Waiting(Place::Two, Some(2))),
    Line::Do(Act::Idle),
    Line::Do(Act::Read { rs: 1 }),
    Line::Comes(Reading::Byte(0x5a)),
    Line::Comes(Reading::Received(Field::First, 2)),
];

const UNARMED_OVERRUN_STAYS: &[Line] = &[
    Line::Do(Act::Write { rs: 0, byte: 0x43 }),
    Line::Do(Act::Write { rs: 1, byte: 0x01 }),
    Line::Do(Act::Write { rs: 0, byte: 0x03 }),
    Line::Do(Act::Write { rs: 1, byte: 0x1c }),
    Line::Do(Act::Write { rs: 0, byte: 0x00 }),
    Line::Do(Act::Character(0x01)),
    Line::Do(Act::Character(0x02)),
    Line::Do(Act::Idle),
    Line::Do(Act::Read { rs: 1 }),
    Line::Comes(Reading::Byte(0x02)),
    Line::Comes(Reading::Received(Field::First, 2)),
    Line::Do(Act::Read { rs: 0 }),
    Line::Comes(Reading::Byte(0x22)),
    Line::Do(Act::Read { rs: 1 }),
    Line::Comes(Reading::Byte(0x02)),
    Line::Comes(Reading::Receive(ReceiveCode::Nothing)),
    Line::Do(Act::Read { rs: 0 }),
    Line::Comes(Reading::Byte(0x02)),
];

const RESET_LOW_HOLDS_ERROR_ENABLE: &[Line] = &[
    Line::Do(Act::Pin { pin: 0, level: 0 }),
    Line::Do(Act::Write { rs: 1, byte: 0x80 }),
    Line::Do(Act::Pin { pin: 1, level: 1 }),
    Line::Comes(Reading::Interrupt(false)),
    Line::Do(Act::Read { rs: 0 }),
    Line::Comes(Reading::Byte(0x08)),
    Line::Do(Act::Pin { pin: 0, level: 1 }),
    Line::Comes(Reading::Interrupt(false)),
    Line::Do(Act::Write { rs: 1, byte: 0x80 }),
    Line::Comes(Reading::Interrupt(true)),
    Line::Do(Act::Read { rs: 0 }),
    Line::Comes(Reading::Byte(0x88)),
];

const RESET_LOW_HOLDS_PIN_CONTROL: &[Line] = &[
    Line::Do(Act::Write { rs: 1, byte: 0x03 }),
    Line::Comes(Reading::SmDtr(false)),
    Line::Do(Act::Pin { pin: 0, level: 0 }),
    Line::Comes(Reading::SmDtr(true)),
    Line::Do(Act::Write { rs: 1, byte: 0x03 }),
    Line::Comes(Reading::SmDtr(true)),
    Line::Do(Act::Write { rs: 1, byte: 0x01 }),
    Line::Comes(Reading::SmDtr(true)),
    Line::Do(Act::Pin { pin: 0, level: 1 }),
    Line::Comes(Reading::SmDtr(true)),
    Line::Do(Act::Write { rs: 1, byte: 0x01 }),
    Line::Comes(Reading::SmDtr(false)),
];

const RESET_LOW_HOLDS_EXTERNAL: &[Line] = &[
    Line::Do(Act::Pin { pin: 0, level: 0 }),
    Line::Do(Act::Write { rs: 1, byte: 0x1c }),
    Line::Do(Act::Write { rs: 0, byte: 0x40 }),
    Line::Do(Act::Write { rs: 1, byte: 0x01 }),
    Line::Do(Act::Pin { pin: 0, level: 1 }),
    Line::Do(Act::Write { rs: 0, byte: 0x40 }),
    Line::Do(Act::Character(0xff)),
    Line::Comes(Reading::Waiting(Place::One, None)),
    Line::Do(Act::Write { rs: 1, byte: 0x01 }),
    Line::Do(Act::Character(0xff)),
    Line::Comes(Reading::Waiting(Place::One, Some(1))),
];

const RESET_LOW_WRITES_THE_REST: &[Line] = &[
    Line::Do(Act::Pin { pin: 0, level: 0 }),
    Line::Do(Act::Write { rs: 0, byte: 0x80 }),
    Line::Do(Act::Write { rs: 1, byte: 0x16 }),
    Line::Do(Act::Write { rs: 0, byte: 0x00 }),
    Line::Do(Act::Write { rs: 1, byte: 0x5c }),
    Line::Do(Act::Pin { pin: 0, level: 1 }),
    Line::Do(Act::Write { rs: 0, byte: 0x00 }),
    Line::Do(Act::Clocks(9)),
    Line::Comes(Reading::Line(0b101101000)),
    Line::Comes(Reading::Underflow(true)),
    Line::Comes(Reading::Shift(ShiftCode::Nothing)),
    Line::Do(Act::Read { rs: 0 }),
    Line::Comes(Reading::Byte(0x12)),
];

const RESET_LOW_IGNORES_ZERO_FOR_TRANSMITTER: &[Line] = &[
    Line::Do(Act::Pin { pin: 0, level: 0 }),
    Line::Do(Act::Write { rs: 0, byte: 0xc0 }),
    Line::Do(Act::Write { rs: 1, byte: 0x55 }),
    Line::Comes(Reading::Queue(QueueCode::Nothing)),
    Line::Do(Act::Write { rs: 0, byte: 0xc0 }),
    Line::Comes(Reading::Queue(QueueCode::Nothing)),
    Line::Comes(Reading::Queued(Field::First, 0)),
    Line::Do(Act::Write { rs: 0, byte: 0xc2 }),
    Line::Comes(Reading::Queue(QueueCode::Cleared)),
    Line::Comes(Reading::Queued(Field::First, 1)),
    Line::Comes(Reading::Receive(ReceiveCode::Nothing)),
    Line::Do(Act::Write { rs: 0, byte: 0xc2 }),
    Line::Comes(Reading::Queue(QueueCode::Nothing)),
    Line::Comes(Reading::Queued(Field::First, 0)),
];

const RESET_FALLING_TELLS_ALL: &[Line] = &[
    Line::Do(Act::Write { rs: 0, byte: 0x43 }),
    Line::Do(Act::Write { rs: 1, byte: 0x01 }),
    Line::Do(Act::Write { rs: 0, byte: 0x03 }),
    Line::Do(Act::Write { rs: 1, byte: 0x1c }),
    Line::Do(Act::Write { rs: 0, byte: 0xc0 }),
    Line::Do(Act::Write { rs: 1, byte: 0x01 }),
    Line::Do(Act::Idle),
    Line::Do(Act::Write { rs: 1, byte: 0x02 }),
    Line::Do(Act::Clocks(1)),
    Line::Do(Act::Character(0x41)),
    Line::Do(Act::Idle),
    Line::Do(Act::Character(0x42)),
    Line::Do(Act::Write { rs: 1, byte: 0x03 }),
    Line::Do(Act::Pin { pin: 0, level: 0 }),
    Line::Comes(Reading::Receive(ReceiveCode::Cleared)),
    Line::Comes(Reading::Received(Field::First, 1)),
    Line::Comes(Reading::Received(Field::Second, 2)),
    Line::Comes(Reading::Queue(QueueCode::Cleared)),
    Line::Comes(Reading::Queued(Field::First, 2)),
    Line::Comes(Reading::Queued(Field::Second, 3)),
    Line::Comes(Reading::Shift(ShiftCode::Cut)),
    Line::Comes(Reading::Shifted(1)),
];

const BOTH_RESETS_IN_ONE_WRITE: &[Line] = &[
    Line::Do(Act::Write { rs: 0, byte: 0x43 }),
    Line::Do(Act::Write { rs: 1, byte: 0x01 }),
    Line::Do(Act::Write { rs: 0, byte: 0x03 }),
    Line::Do(Act::Write { rs: 1, byte: 0x1c }),
    Line::Do(Act::Write { rs: 0, byte: 0xc0 }),
    Line::Do(Act::Character(0x41)),
    Line::Do(Act::Write { rs: 1, byte: 0x55 }),
    Line::Do(Act::Idle),
    Line::Do(Act::Write { rs: 1, byte: 0x56 }),
    Line::Do(Act::Clocks(2)),
    Line::Do(Act::Write { rs: 0, byte: 0xc3 }),
    Line::Comes(Reading::Receive(ReceiveCode::Cleared)),
    Line::Comes(Reading::Received(Field::First, 1)),
    Line::Comes(Reading::Received(Field::Second, 0)),
    Line::Comes(Reading::Queue(QueueCode::Cleared)),
    Line::Comes(Reading::Queued(Field::First, 2)),
    Line::Comes(Reading::Queued(Field::Second, 0)),
    Line::Comes(Reading::Shift(ShiftCode::Cut)),
    Line::Comes(Reading::Shifted(1)),
    Line::Do(Act::Read { rs: 0 }),
    Line::Comes(Reading::Byte(0x00)),
];

const TRANSMITTER_RESET_TELLS_THREE: &[Line] = &[
    Line::Do(Act::Write { rs: 0, byte: 0x43 }),
    Line::Do(Act::Write { rs: 1, byte: 0x01 }),
    Line::Do(Act::Write { rs: 0, byte: 0x03 }),
    Line::Do(Act::Write { rs: 1, byte: 0x1c }),
    Line::Do(Act::Write { rs: 0, byte: 0xc0 }),
    Line::Do(Act::Write { rs: 1, byte: 0xa1 }),
    Line::Do(Act::Idle),
    Line::Do(Act::Write { rs: 1, byte: 0xa2 }),
    Line::Do(Act::Idle),
    Line::Do(Act::Write { rs: 1, byte: 0xa3 }),
    Line::Do(Act::Write { rs: 0, byte: 0xc2 }),
    Line::Comes(Reading::Queue(QueueCode::Cleared)),
    Line::Comes(Reading::Queued(Field::First, 1)),
    Line::Comes(Reading::Queued(Field::Second, 2)),
    Line::Comes(Reading::Queued(Field::Third, 3)),
    Line::Comes(Reading::Shift(ShiftCode::Nothing)),
    Line::Comes(Reading::Receive(ReceiveCode::Nothing)),
    Line::Do(Act::Read { rs: 0 }),
    Line::Comes(Reading::Byte(0x00)),
];

const RESET_AGAIN_STILL_CLEARS: &[Line] = &[
    Line::Do(Act::Write { rs: 0, byte: 0xc3 }),
    Line::Do(Act::Write { rs: 1, byte: 0x55 }),
    Line::Comes(Reading::Queue(QueueCode::Nothing)),
    Line::Do(Act::Write { rs: 0, byte: 0xc3 }),
    Line::Comes(Reading::Queue(QueueCode::Cleared)),
    Line::Comes(Reading::Queued(Field::First, 1)),
    Line::Do(Act::Pin { pin: 2, level: 1 }),
    Line::Do(Act::Pin { pin: 2, level: 0 }),
    Line::Do(Act::Read { rs: 0 }),
    Line::Comes(Reading::Byte(0x04)),
    Line::Do(Act::Write { rs: 0, byte: 0xc3 }),
    Line::Comes(Reading::Queue(QueueCode::Nothing)),
    Line::Do(Act::Read { rs: 0 }),
    Line::Comes(Reading::Byte(0x00)),
];

const LAST_BYTE_OUTLIVES_RESETS: &[Line] = &[
    Line::Do(Act::Write { rs: 0, byte: 0x43 }),
    Line::Do(Act::Write { rs: 1, byte: 0x01 }),
    Line::Do(Act::Write { rs: 0, byte: 0x03 }),
    Line::Do(Act::Write { rs: 1, byte: 0x1c }),
    Line::Do(Act::Write { rs: 0, byte: 0x00 }),
    Line::Do(Act::Character(0xa7)),
    Line::Do(Act::Idle),
    Line::Do(Act::Read { rs: 1 }),
    Line::Comes(Reading::Byte(0xa7)),
    Line::Do(Act::Character(0xb8)),
    Line::Do(Act::Idle),
    Line::Do(Act::Write { rs: 0, byte: 0x03 }),
    Line::Comes(Reading::Receive(ReceiveCode::Cleared)),
    Line::Comes(Reading::Received(Field::First, 2)),
    Line::Do(Act::Read { rs: 1 }),
    Line::Comes(Reading::Byte(0xa7)),
    Line::Comes(Reading::Receive(ReceiveCode::Nothing)),
    Line::Do(Act::Pin { pin: 0, level: 0 }),
    Line::Do(Act::Read { rs: 1 }),
    Line::Comes(Reading::Byte(0xa7)),
];

const TWO_BYTE_RECEIVE: &[Line] = &[
    Line::Do(Act::Write { rs: 0, byte: 0x43 }),
    Line::Do(Act::Write { rs: 1, byte: 0x01 }),
    Line::Do(Act::Write { rs: 0, byte: 0x03 }),
    Line::Do(Act::Write { rs: 1, byte: 0x18 }),
    Line::Do(Act::Write { rs: 0, byte: 0x00 }),
    Line::Do(Act::Character(0x11)),
    Line::Do(Act::Idle),
    Line::Do(Act::Read { rs: 0 }),
    Line::Comes(Reading::Byte(0x02)),
    Line::Do(Act::Character(0x22)),
    Line::Do(Act::Read { rs: 0 }),
    Line::Comes(Reading::Byte(0x02)),
    Line::Do(Act::Idle),
    Line::Do(Act::Read { rs: 0 }),
    Line::Comes(Reading::Byte(0x03)),
    Line::Do(Act::Read { rs: 1 }),
    Line::Comes(Reading::Byte(0x11)),
    Line::Do(Act::Read { rs: 0 }),
    Line::Comes(Reading::Byte(0x02)),
    Line::Do(Act::Idle),
    Line::Do(Act::Read { rs: 0 }),
    Line::Comes(Reading::Byte(0x02)),
];

const TWO_BYTE_TRANSMIT: &[Line] = &[
    Line::Do(Act::Write { rs: 0, byte: 0x43 }),
    Line::Do(Act::Write { rs: 1, byte: 0x01 }),
    Line::Do(Act::Write { rs: 0, byte: 0x03 }),
    Line::Do(Act::Write { rs: 1, byte: 0x18 }),
    Line::Do(Act::Write { rs: 0, byte: 0xc0 }),
    Line::Do(Act::Read { rs: 0 }),
    Line::Comes(Reading::Byte(0x02)),
    Line::Do(Act::Write { rs: 1, byte: 0xa1 }),
    Line::Do(Act::Read { rs: 0 }),
    Line::Comes(Reading::Byte(0x00)),
    Line::Do(Act::Idle),
    Line::Do(Act::Read { rs: 0 }),
    Line::Comes(Reading::Byte(0x02)),
    Line::Do(Act::Write { rs: 1, byte: 0xa2 }),
    Line::Do(Act::Idle),
    Line::Do(Act::Read { rs: 0 }),
    Line::Comes(Reading::Byte(0x00)),
    Line::Do(Act::Clocks(1)),
    Line::Do(Act::Idle),
    Line::Do(Act::Read { rs: 0 }),
    Line::Comes(Reading::Byte(0x02)),
];

const STRIPPED_WITHOUT_PARITY: &[Line] = &[
    Line::Do(Act::Write { rs: 0, byte: 0x43 }),
    Line::Do(Act::Write { rs: 1, byte: 0x01 }),
    Line::Do(Act::Write { rs: 0, byte: 0x83 }),
    Line::Do(Act::Write { rs: 1, byte: 0x16 }),
    Line::Do(Act::Write { rs: 0, byte: 0x03 }),
    Line::Do(Act::Write { rs: 1, byte: 0x1c }),
    Line::Do(Act::Write { rs: 0, byte: 0x04 }),
    Line::Do(Act::Character(0x16)),
    Line::Comes(Reading::Receive(ReceiveCode::Stripped)),
    Line::Comes(Reading::Received(Field::First, 1)),
    Line::Do(Act::Character(0x17)),
    Line::Comes(Reading::Receive(ReceiveCode::Nothing)),
    Line::Do(Act::Character(0x16)),
    Line::Comes(Reading::Receive(ReceiveCode::Stripped)),
    Line::Comes(Reading::Received(Field::First, 3)),
    Line::Comes(Reading::Waiting(Place::One, Some(2))),
    Line::Do(Act::Read { rs: 0 }),
    Line::Comes(Reading::Byte(0x02)),
    Line::Do(Act::Idle),
    Line::Do(Act::Read { rs: 1 }),
    Line::Comes(Reading::Byte(0x17)),
    Line::Comes(Reading::Received(Field::First, 2)),
];

const STRIPPED_WITH_NINE_BITS: &[Line] = &[
    Line::Do(Act::Write { rs: 0, byte: 0x43 }),
    Line::Do(Act::Write { rs: 1, byte: 0x01 }),
    Line::Do(Act::Write { rs: 0, byte: 0x83 }),
    Line::Do(Act::Write { rs: 1, byte: 0x16 }),
    Line::Do(Act::Write { rs: 0, byte: 0x03 }),
    Line::Do(Act::Write { rs: 1, byte: 0x34 }),
    Line::Do(Act::Write { rs: 0, byte: 0x04 }),
    Line::Do(Act::Character(0x16)),
    Line::Do(Act::Bit(0)),
    Line::Comes(Reading::Receive(ReceiveCode::Stripped)),
    Line::Comes(Reading::Received(Field::First, 1)),
    Line::Do(Act::Character(0x16)),
    Line::Do(Act::Bit(1)),
    Line::Comes(Reading::Receive(ReceiveCode::Stripped)),
    Line::Comes(Reading::Received(Field::First, 2)),
    Line::Do(Act::Character(0x17)),
    Line::Do(Act::Bit(0)),
    Line::Do(Act::Idle),
    Line::Do(Act::Read { rs: 1 }),
    Line::Comes(Reading::Byte(0x17)),
    Line::Comes(Reading::Receive(ReceiveCode::Delivered)),
    Line::Comes(Reading::Received(Field::First, 3)),
];

const PARITY_RIGHT_SIX_ODD: &[Line] = &[
    Line::Do(Act::Write { rs: 0, byte: 0x43 }),
    Line::Do(Act::Write { rs: 1, byte: 0x01 }),
    Line::Do(Act::Write { rs: 0, byte: 0x03 }),
    Line::Do(Act::Write { rs: 1, byte: 0x0c }),
    Line::Do(Act::Write { rs: 0, byte: 0x00 }),
    Line::Do(Act::Bit(0)),
    Line::Do(Act::Bit(1)),
    Line::Do(Act::Bit(0)),
    Line::Do(Act::Bit(1)),
    Line::Do(Act::Bit(0)),
    Line::Do(Act::Bit(1)),
    Line::Do(Act::Bit(0)),
    Line::Do(Act::Idle),
    Line::Do(Act::Read { rs: 0 }),
    Line::Comes(Reading::Byte(0x03)),
    Line::Do(Act::Read { rs: 1 }),
    Line::Comes(Reading::Byte(0x2a)),
    Line::Comes(Reading::Receive(ReceiveCode::Delivered)),
    Line::Comes(Reading::Received(Field::First, 1)),
];

const PARITY_WRONG_SIX_EVEN: &[Line] = &[
    Line::Do(Act::Write { rs: 0, byte: 0x43 }),
    Line::Do(Act::Write { rs: 1, byte: 0x01 }),
    Line::Do(Act::Write { rs: 0, byte: 0x03 }),
    Line::Do(Act::Write { rs: 1, byte: 0x04 }),
    Line::Do(Act::Write { rs: 0, byte: 0x00 }),
    Line::Do(Act::Bit(1)),
    Line::Do(Act::Bit(1)),
    Line::Do(Act::Bit(1)),
    Line::Do(Act::Bit(1)),
    Line::Do(Act::Bit(1)),
    Line::Do(Act::Bit(1)),
    Line::Do(Act::Bit(1)),
    Line::Do(Act::Idle),
    Line::Do(Act::Read { rs: 0 }),
    Line::Comes(Reading::Byte(0x43)),
    Line::Do(Act::Read { rs: 1 }),
    Line::Comes(Reading::Byte(0x3f)),
    Line::Comes(Reading::Receive(ReceiveCode::DeliveredMarked)),
    Line::Comes(Reading::Received(Field::First, 1)),
    Line::Do(Act::Read { rs: 0 }),
    Line::Comes(Reading::Byte(0x02)),
];

const PARITY_MARK_ONLY_OF_PLACE_THREE: &[Line] = &[
    Line::Do(Act::Write { rs: 0, byte: 0x43 }),
    Line::Do(Act::Write { rs: 1, byte: 0x01 }),
    Line::Do(Act::Write { rs: 0, byte: 0x03 }),
    Line::Do(Act::Write { rs: 1, byte: 0x24 }),
    Line::Do(Act::Write { rs: 0, byte: 0x00 }),
    Line::Do(Act::Character(0x41)),
    Line::Do(Act::Idle),
    Line::Do(Act::Character(0xc1)),
    Line::Do(Act::Idle),
    Line::Do(Act::Read { rs: 0 }),
    Line::Comes(Reading::Byte(0x03)),
    Line::Do(Act::Read { rs: 1 }),
    Line::Comes(Reading::Receive(ReceiveCode::Delivered)),
    Line::Do(Act::Read { rs: 0 }),
    Line::Comes(Reading::Byte(0x02)),
    Line::Do(Act::Idle),
    Line::Do(Act::Read { rs: 0 }),
    Line::Comes(Reading::Byte(0x43)),
    Line::Do(Act::Read { rs: 1 }),
    Line::Comes(Reading::Receive(ReceiveCode::DeliveredMarked)),
    Line::Comes(Reading::Received(Field::First, 2)),
];

const FORM_LONGER_IN_THE_MIDDLE: &[Line] = &[
    Line::Do(Act::Write { rs: 0, byte: 0x43 }),
    Line::Do(Act::Write { rs: 1, byte: 0x01 }),
    Line::Do(Act::Write { rs: 0, byte: 0x03 }),
    Line::Do(Act::Write { rs: 1, byte: 0x14 }),
    Line::Do(Act::Write { rs: 0, byte: 0x00 }),
    Line::Do(Act::Bit(1)),
    Line::Do(Act::Bit(0)),
    Line::Do(Act::Bit(1)),
    Line::Do(Act::Write { rs: 1, byte: 0x1c }),
    Line::Do(Act::Bit(0)),
    Line::Do(Act::Bit(0)),
    Line::Do(Act::Bit(0)),
    Line::Do(Act::Bit(1)),
    Line::Comes(Reading::Waiting(Place::One, None)),
    Line::Do(Act::Bit(1)),
    Line::Comes(Reading::Waiting(Place::One, Some(1))),
    Line::Do(Act::Idle),
    Line::Do(Act::Read { rs: 1 }),
    Line::Comes(Reading::Byte(0xc5)),
    Line::Comes(Reading::Received(Field::First, 1)),
];

const FORM_SHORTER_IN_THE_MIDDLE: &[Line] = &[
    Line::Do(Act::Write { rs: 0, byte: 0x43 }),
    Line::Do(Act::Write { rs: 1, byte: 0x01 }),
    Line::Do(Act::Write { rs: 0, byte: 0x03 }),
    Line::Do(Act::Write { rs: 1, byte: 0x30 }),
    Line::Do(Act::Write { rs: 0, byte: 0x00 }),
    Line::Do(Act::Character(0xff)),
    Line::Comes(Reading::Waiting(Place::One, None)),
    Line::Do(Act::Write { rs: 1, byte: 0x10 }),
    Line::Comes(Reading::Waiting(Place::One, None)),
    Line::Do(Act::Bit(0)),
    Line::Comes(Reading::Waiting(Place::One, Some(1))),
    Line::Do(Act::Idle),
    Line::Do(Act::Read { rs: 1 }),
    Line::Comes(Reading::Byte(0x3f)),
    Line::Comes(Reading::Receive(ReceiveCode::Delivered)),
    Line::Comes(Reading::Received(Field::First, 1)),
];

const EXTERNAL_CHANGED_RESTARTS: &[Line] = &[
    Line::Do(Act::Write { rs: 0, byte: 0x43 }),
    Line::Do(Act::Write { rs: 1, byte: 0x01 }),
    Line::Do(Act::Write { rs: 0, byte: 0x03 }),
    Line::Do(Act::Write { rs: 1, byte: 0x1c }),
    Line::Do(Act::Write { rs: 0, byte: 0x00 }),
    Line::Do(Act::Write { rs: 0, byte: 0x40 }),
    Line::Do(Act::Bit(1)),
    Line::Do(Act::Bit(1)),
    Line::Do(Act::Bit(1)),
    Line::Do(Act::Write { rs: 1, byte: 0x00 }),
    Line::Do(Act::Character(0xff)),
    Line::Comes(Reading::Waiting(Place::One, None)),
    Line::Do(Act::Write { rs: 1, byte: 0x01 }),
    Line::Do(Act::Character(0x5a)),
    Line::Comes(Reading::Waiting(Place::One, Some(1))),
    Line::Do(Act::Idle),
    Line::Do(Act::Read { rs: 1 }),
    Line::Comes(Reading::Byte(0x5a)),
    Line::Comes(Reading::Received(Field::First, 1)),
];

const EXTERNAL_SAME_GOES_ON: &[Line] = &[
    Line::Do(Act::Write { rs: 0, byte: 0x43 }),
    Line::Do(Act::Write { rs: 1, byte: 0x01 }),
    Line::Do(Act::Write { rs: 0, byte: 0x03 }),
    Line::Do(Act::Write { rs: 1, byte: 0x1c }),
    Line::Do(Act::Write { rs: 0, byte: 0x00 }),
    Line::Do(Act::Write { rs: 0, byte: 0x40 }),
    Line::Do(Act::Bit(1)),
    Line::Do(Act::Bit(1)),
    Line::Do(Act::Bit(1)),
    Line::Do(Act::Write { rs: 1, byte: 0x01 }),
    Line::Do(Act::Bit(0)),
    Line::Do(Act::Bit(0)),
    Line::Do(Act::Bit(0)),
    Line::Do(Act::Bit(0)),
    Line::Do(Act::Bit(0)),
    Line::Comes(Reading::Waiting(Place::One, Some(1))),
    Line::Do(Act::Idle),
    Line::Do(Act::Read { rs: 1 }),
    Line::Comes(Reading::Byte(0x07)),
    Line::Comes(Reading::Received(Field::First, 1)),
];

const CLEAR_SYNC_IGNORES_BITS: &[Line] = &[
    Line::Do(Act::Write { rs: 0, byte: 0x43 }),
    Line::Do(Act::Write { rs: 1, byte: 0x01 }),
    Line::Do(Act::Write { rs: 0, byte: 0x03 }),
    Line::Do(Act::Write { rs: 1, byte: 0x1c }),
    Line::Do(Act::Write { rs: 0, byte: 0x00 }),
    Line::Do(Act::Bit(1)),
    Line::Do(Act::Bit(1)),
    Line::Do(Act::Bit(1)),
    Line::Do(Act::Write { rs: 0, byte: 0x08 }),
    Line::Do(Act::Character(0xff)),
    Line::Comes(Reading::Waiting(Place::One, None)),
    Line::Do(Act::Write { rs: 0, byte: 0x00 }),
    Line::Do(Act::Character(0xa5)),
    Line::Comes(Reading::Waiting(Place::One, Some(1))),
    Line::Do(Act::Idle),
    Line::Do(Act::Read { rs: 1 }),
    Line::Comes(Reading::Byte(0xa5)),
];

const DCD_STORED_AND_LEVEL: &[Line] = &[
    Line::Do(Act::Write { rs: 0, byte: 0x43 }),
    Line::Do(Act::Write { rs: 1, byte: 0x01 }),
    Line::Do(Act::Write { rs: 0, byte: 0x03 }),
    Line::Do(Act::Write { rs: 1, byte: 0x1c }),
    Line::Do(Act::Write { rs: 0, byte: 0x00 }),
    Line::Do(Act::Pin { pin: 2, level: 1 }),
    Line::Do(Act::Read { rs: 0 }),
    Line::Comes(Reading::Byte(0x06)),
    Line::Do(Act::Read { rs: 1 }),
    Line::Comes(Reading::Byte(0x00)),
    Line::Do(Act::Read { rs: 0 }),
    Line::Comes(Reading::Byte(0x06)),
    Line::Do(Act::Pin { pin: 2, level: 0 }),
    Line::Do(Act::Read { rs: 0 }),
    Line::Comes(Reading::Byte(0x02)),
];

const DCD_RISING_DROPS_ARM: &[Line] = &[
    Line::Do(Act::Write { rs: 0, byte: 0x43 }),
    Line::Do(Act::Write { rs: 1, byte: 0x01 }),
    Line::Do(Act::Write { rs: 0, byte: 0x03 }),
    Line::Do(Act::Write { rs: 1, byte: 0x1c }),
    Line::Do(Act::Write { rs: 0, byte: 0x00 }),
    Line::Do(Act::Pin { pin: 2, level: 1 }),
    Line::Do(Act::Read { rs: 0 }),
    Line::Comes(Reading::Byte(0x06)),
    Line::Do(Act::Pin { pin: 2, level: 0 }),
    Line::Do(Act::Pin { pin: 2, level: 1 }),
    Line::Do(Act::Read { rs: 1 }),
    Line::Do(Act::Pin { pin: 2, level: 0 }),
    Line::Do(Act::Read { rs: 0 }),
    Line::Comes(Reading::Byte(0x06)),
    Line::Do(Act::Read { rs: 1 }),
    Line::Do(Act::Read { rs: 0 }),
    Line::Comes(Reading::Byte(0x02)),
];

const DCD_HIGH_IGNORES_BITS: &[Line] = &[
    Line::Do(Act::Write { rs: 0, byte: 0x43 }),
    Line::Do(Act::Write { rs: 1, byte: 0x01 }),
    Line::Do(Act::Write { rs: 0, byte: 0x03 }),
    Line::Do(Act::Write { rs: 1, byte: 0x1c }),
    Line::Do(Act::Write { rs: 0, byte: 0x00 }),
    Line::Do(Act::Bit(1)),
    Line::Do(Act::Bit(1)),
    Line::Do(Act::Bit(1)),
    Line::Do(Act::Pin { pin: 2, level: 1 }),
    Line::Do(Act::Character(0xff)),
    Line::Comes(Reading::Waiting(Place::One, None)),
    Line::Do(Act::Pin { pin: 2, level: 0 }),
    Line::Do(Act::Character(0x3c)),
    Line::Comes(Reading::Waiting(Place::One, Some(1))),
    Line::Do(Act::Idle),
    Line::Do(Act::Read { rs: 1 }),
    Line::Comes(Reading::Byte(0x3c)),
    Line::Comes(Reading::Received(Field::First, 1)),
    Line::Do(Act::Read { rs: 0 }),
    Line::Comes(Reading::Byte(0x06)),
];

const UNDERFLOW_AND_CLEAR: &[Line] = &[
    Line::Do(Act::Write { rs: 0, byte: 0x43 }),
    Line::Do(Act::Write { rs: 1, byte: 0x01 }),
    Line::Do(Act::Write { rs: 0, byte: 0x03 }),
    Line::Do(Act::Write { rs: 1, byte: 0x1c }),
    Line::Do(Act::Write { rs: 0, byte: 0x00 }),
    Line::Do(Act::Write { rs: 1, byte: 0x5c }),
    Line::Do(Act::Clocks(1)),
    Line::Comes(Reading::Byte(1)),
    Line::Comes(Reading::Underflow(true)),
    Line::Do(Act::Read { rs: 0 }),
    Line::Comes(Reading::Byte(0x12)),
    Line::Do(Act::Write { rs: 0, byte: 0x40 }),
    Line::Do(Act::Write { rs: 1, byte: 0x09 }),
    Line::Do(Act::Read { rs: 0 }),
    Line::Comes(Reading::Byte(0x02)),
    Line::Do(Act::Clocks(7)),
    Line::Comes(Reading::Line(0)),
    Line::Comes(Reading::Underflow(false)),
    Line::Do(Act::Clocks(1)),
    Line::Comes(Reading::Underflow(true)),
    Line::Do(Act::Read { rs: 0 }),
    Line::Comes(Reading::Byte(0x12)),
];

const SYNC_FILL_SEVEN_EVEN: &[Line] = &[
    Line::Do(Act::Write { rs: 0, byte: 0x83 }),
    Line::Do(Act::Write { rs: 1, byte: 0x16 }),
    Line::Do(Act::Write { rs: 0, byte: 0x03 }),
    Line::Do(Act::Write { rs: 1, byte: 0x60 }),
    Line::Do(Act::Write { rs: 0, byte: 0x00 }),
    Line::Do(Act::Clocks(9)),
    Line::Comes(Reading::Line(0b101101000)),
    Line::Comes(Reading::Underflow(true)),
    Line::Comes(Reading::Shift(ShiftCode::Nothing)),
];

const WORD_KEEPS_LENGTH: &[Line] = &[
    Line::Do(Act::Write { rs: 0, byte: 0x43 }),
    Line::Do(Act::Write { rs: 1, byte: 0x01 }),
    Line::Do(Act::Write { rs: 0, byte: 0x03 }),
    Line::Do(Act::Write { rs: 1, byte: 0x1c }),
    Line::Do(Act::Write { rs: 0, byte: 0xc0 }),
    Line::Do(Act::Write { rs: 1, byte: 0xc5 }),
    Line::Do(Act::Idle),
    Line::Do(Act::Clocks(1)),
    Line::Do(Act::Write { rs: 0, byte: 0x00 }),
    Line::Do(Act::Write { rs: 1, byte: 0x44 }),
    Line::Do(Act::Clocks(8)),
    Line::Comes(Reading::Line(0b10100011)),
    Line::Comes(Reading::Shift(ShiftCode::LastBit)),
    Line::Comes(Reading::Underflow(true)),
    Line::Do(Act::Clocks(6)),
    Line::Comes(Reading::Underflow(false)),
    Line::Do(Act::Clocks(1)),
    Line::Comes(Reading::Byte(0)),
    Line::Comes(Reading::Underflow(true)),
];

const SENT_BYTE_CODES: &[Line] = &[
    Line::Do(Act::Write { rs: 0, byte: 0x43 }),
    Line::Do(Act::Write { rs: 1, byte: 0x01 }),
    Line::Do(Act::Write { rs: 0, byte: 0x03 }),
    Line::Do(Act::Write { rs: 1, byte: 0x1c }),
    Line::Do(Act::Write { rs: 0, byte: 0xc0 }),
    Line::Do(Act::Write { rs: 1, byte: 0x41 }),
    Line::Do(Act::Idle),
    Line::Do(Act::Clocks(1)),
    Line::Comes(Reading::Shift(ShiftCode::Nothing)),
    Line::Comes(Reading::Shifting(Some(1))),
    Line::Do(Act::Clocks(1)),
    Line::Comes(Reading::Byte(1)),
    Line::Comes(Reading::Shift(ShiftCode::Bit)),
    Line::Comes(Reading::Shifted(1)),
    Line::Do(Act::Clocks(6)),
    Line::Comes(Reading::Line(1)),
    Line::Comes(Reading::Shift(ShiftCode::Bit)),
    Line::Do(Act::Clocks(1)),
    Line::Comes(Reading::Shift(ShiftCode::LastBit)),
    Line::Comes(Reading::Shifted(1)),
    Line::Comes(Reading::Shifting(None)),
];

const CTS_CUTS_SHIFTED_BYTE: &[Line] = &[
    Line::Do(Act::Write { rs: 0, byte: 0x43 }),
    Line::Do(Act::Write { rs: 1, byte: 0x01 }),
    Line::Do(Act::Write { rs: 0, byte: 0x03 }),
    Line::Do(Act::Write { rs: 1, byte: 0x1c }),
    Line::Do(Act::Write { rs: 0, byte: 0xc0 }),
    Line::Do(Act::Write { rs: 1, byte: 0x5a }),
    Line::Do(Act::Idle),
    Line::Do(Act::Clocks(4)),
    Line::Comes(Reading::Line(0b1010)),
    Line::Do(Act::Pin { pin: 1, level: 1 }),
    Line::Comes(Reading::Shift(ShiftCode::Cut)),
    Line::Comes(Reading::Shifted(1)),
    Line::Comes(Reading::Shifting(None)),
    Line::Do(Act::Clocks(2)),
    Line::Comes(Reading::Line(0b11)),
    Line::Comes(Reading::Shift(ShiftCode::Nothing)),
    Line::Do(Act::Pin { pin: 1, level: 0 }),
    Line::Do(Act::Clocks(9)),
    Line::Comes(Reading::Line(0b111111111)),
    Line::Comes(Reading::Shift(ShiftCode::Nothing)),
];

const CTS_KEEPS_QUEUE: &[Line] = &[
    Line::Do(Act::Write { rs: 0, byte: 0x43 }),
    Line::Do(Act::Write { rs: 1, byte: 0x01 }),
    Line::Do(Act::Write { rs: 0, byte: 0x03 }),
    Line::Do(Act::Write { rs: 1, byte: 0x1c }),
    Line::Do(Act::Write { rs: 0, byte: 0xc0 }),
    Line::Do(Act::Write { rs: 1, byte: 0xa1 }),
    Line::Do(Act::Idle),
    Line::Do(Act::Write { rs: 1, byte: 0xb2 }),
    Line::Do(Act::Idle),
    Line::Do(Act::Clocks(1)),
    Line::Do(Act::Pin { pin: 1, level: 1 }),
    Line::Comes(Reading::Shift(ShiftCode::Cut)),
    Line::Comes(Reading::Shifted(1)),
    Line::Do(Act::Idle),
    Line::Do(Act::Clocks(1)),
    Line::Comes(Reading::Shifting(None)),
    Line::Do(Act::Pin { pin: 1, level: 0 }),
    Line::Do(Act::Clocks(1)),
    Line::Comes(Reading::Byte(1)),
    Line::Do(Act::Clocks(8)),
    Line::Comes(Reading::Line(0b01001101)),
    Line::Comes(Reading::Shifted(2)),
];

const CTS_CUTS_LOADED_BYTE: &[Line] = &[
    Line::Do(Act::Write { rs: 0, byte: 0x43 }),
    Line::Do(Act::Write { rs: 1, byte: 0x01 }),
    Line::Do(Act::Write { rs: 0, byte: 0x03 }),
    Line::Do(Act::Write { rs: 1, byte: 0x1c }),
    Line::Do(Act::Write { rs: 0, byte: 0xc0 }),
    Line::Do(Act::Write { rs: 1, byte: 0x5a }),
    Line::Do(Act::Idle),
    Line::Do(Act::Clocks(1)),
    Line::Comes(Reading::Shifting(Some(1))),
    Line::Do(Act::Pin { pin: 1, level: 1 }),
    Line::Comes(Reading::Shift(ShiftCode::Cut)),
    Line::Comes(Reading::Shifted(1)),
    Line::Comes(Reading::Shifting(None)),
    Line::Do(Act::Pin { pin: 1, level: 0 }),
    Line::Do(Act::Clocks(3)),
    Line::Comes(Reading::Line(0b111)),
    Line::Do(Act::Pin { pin: 1, level: 1 }),
    Line::Comes(Reading::Shift(ShiftCode::Nothing)),
    Line::Comes(Reading::Shifted(0)),
];

const CTS_WITH_EXTERNAL_KEEPS_TDRA: &[Line] = &[
    Line::Do(Act::Write { rs: 0, byte: 0x43 }),
    Line::Do(Act::Write { rs: 1, byte: 0x01 }),
    Line::Do(Act::Write { rs: 0, byte: 0x03 }),
    Line::Do(Act::Write { rs: 1, byte: 0x1c }),
    Line::Do(Act::Write { rs: 0, byte: 0x00 }),
    Line::Do(Act::Pin { pin: 1, level: 1 }),
    Line::Do(Act::Read { rs: 0 }),
    Line::Comes(Reading::Byte(0x0a)),
    Line::Do(Act::Write { rs: 0, byte: 0x40 }),
    Line::Do(Act::Write { rs: 1, byte: 0x05 }),
    Line::Do(Act::Read { rs: 0 }),
    Line::Comes(Reading::Byte(0x0a)),
    Line::Do(Act::Write { rs: 1, byte: 0x00 }),
    Line::Do(Act::Read { rs: 0 }),
    Line::Comes(Reading::Byte(0x08)),
    Line::Do(Act::Pin { pin: 1, level: 0 }),
    Line::Do(Act::Read { rs: 0 }),
    Line::Comes(Reading::Byte(0x02)),
];

const CTS_STORED_WHILE_RESET: &[Line] = &[
    Line::Do(Act::Pin { pin: 1, level: 1 }),
    Line::Do(Act::Read { rs: 0 }),
    Line::Comes(Reading::Byte(0x08)),
    Line::Do(Act::Pin { pin: 1, level: 0 }),
    Line::Do(Act::Read { rs: 0 }),
    Line::Comes(Reading::Byte(0x08)),
    Line::Do(Act::Write { rs: 0, byte: 0x01 }),
    Line::Do(Act::Read { rs: 0 }),
    Line::Comes(Reading::Byte(0x0a)),
    Line::Do(Act::Write { rs: 0, byte: 0x03 }),
    Line::Do(Act::Read { rs: 0 }),
    Line::Comes(Reading::Byte(0x00)),
];

const SM_DTR_SETTINGS: &[Line] = &[
    Line::Do(Act::Write { rs: 1, byte: 0x00 }),
    Line::Comes(Reading::SmDtr(true)),
    Line::Do(Act::Write { rs: 1, byte: 0x01 }),
    Line::Comes(Reading::SmDtr(false)),
    Line::Do(Act::Write { rs: 1, byte: 0x02 }),
    Line::Comes(Reading::SmDtr(false)),
    Line::Do(Act::Write { rs: 1, byte: 0x03 }),
    Line::Comes(Reading::SmDtr(false)),
    Line::Do(Act::Write { rs: 1, byte: 0x00 }),
    Line::Comes(Reading::SmDtr(true)),
];

const SM_DTR_MATCH_UNTIL_NEXT_BIT: &[Line] = &[
    Line::Do(Act::Write { rs: 0, byte: 0x43 }),
    Line::Do(Act::Write { rs: 1, byte: 0x02 }),
    Line::Do(Act::Write { rs: 0, byte: 0x83 }),
    Line::Do(Act::Write { rs: 1, byte: 0x7f }),
    Line::Do(Act::Write { rs: 0, byte: 0x03 }),
    Line::Do(Act::Write { rs: 1, byte: 0x18 }),
    Line::Do(Act::Write { rs: 0, byte: 0x00 }),
    Line::Do(Act::Bit(0)),
    Line::Comes(Reading::SmDtr(true)),
    Line::Do(Act::Write { rs: 1, byte: 0x19 }),
    Line::Comes(Reading::SmDtr(true)),
    Line::Do(Act::Idle),
    Line::Comes(Reading::SmDtr(true)),
    Line::Do(Act::Write { rs: 1, byte: 0x1a }),
    Line::Comes(Reading::SmDtr(false)),
    Line::Do(Act::Write { rs: 1, byte: 0x1b }),
    Line::Comes(Reading::SmDtr(false)),
    Line::Do(Act::Write { rs: 1, byte: 0x19 }),
    Line::Comes(Reading::SmDtr(true)),
    Line::Do(Act::Bit(1)),
    Line::Comes(Reading::SmDtr(false)),
];

const SM_DTR_MATCH_ENDS_WITH_OFF: &[Line] = &[
    Line::Do(Act::Write { rs: 0, byte: 0x43 }),
    Line::Do(Act::Write { rs: 1, byte: 0x02 }),
    Line::Do(Act::Write { rs: 0, byte: 0x83 }),
    Line::Do(Act::Write { rs: 1, byte: 0x7f }),
    Line::Do(Act::Write { rs: 0, byte: 0x03 }),
    Line::Do(Act::Write { rs: 1, byte: 0x19 }),
    Line::Do(Act::Write { rs: 0, byte: 0x00 }),
    Line::Do(Act::Bit(0)),
    Line::Comes(Reading::SmDtr(true)),
    Line::Do(Act::Write { rs: 0, byte: 0x08 }),
    Line::Comes(Reading::SmDtr(false)),
    Line::Do(Act::Write { rs: 0, byte: 0x00 }),
    Line::Comes(Reading::SmDtr(false)),
    Line::Do(Act::Bit(0)),
    Line::Comes(Reading::SmDtr(true)),
    Line::Do(Act::Pin { pin: 2, level: 1 }),
    Line::Comes(Reading::SmDtr(false)),
    Line::Do(Act::Pin { pin: 2, level: 0 }),
    Line::Comes(Reading::SmDtr(false)),
];

const RECEIVER_INTERRUPT: &[Line] = &[
    Line::Do(Act::Write { rs: 0, byte: 0x43 }),
    Line::Do(Act::Write { rs: 1, byte: 0x01 }),
    Line::Do(Act::Write { rs: 0, byte: 0x03 }),
    Line::Do(Act::Write { rs: 1, byte: 0x1c }),
    Line::Do(Act::Write { rs: 0, byte: 0x00 }),
    Line::Do(Act::Write { rs: 0, byte: 0x20 }),
    Line::Comes(Reading::Interrupt(false)),
    Line::Do(Act::Character(0x55)),
    Line::Comes(Reading::Interrupt(false)),
    Line::Do(Act::Idle),
    Line::Comes(Reading::Interrupt(true)),
    Line::Do(Act::Read { rs: 0 }),
    Line::Comes(Reading::Byte(0x83)),
    Line::Do(Act::Read { rs: 1 }),
    Line::Comes(Reading::Byte(0x55)),
    Line::Comes(Reading::Interrupt(false)),
];

const TRANSMITTER_INTERRUPT: &[Line] = &[
    Line::Do(Act::Write { rs: 0, byte: 0x43 }),
    Line::Do(Act::Write { rs: 1, byte: 0x01 }),
    Line::Do(Act::Write { rs: 0, byte: 0x03 }),
    Line::Do(Act::Write { rs: 1, byte: 0x1c }),
    Line::Do(Act::Write { rs: 0, byte: 0xd0 }),
    Line::Comes(Reading::Interrupt(true)),
    Line::Do(Act::Read { rs: 0 }),
    Line::Comes(Reading::Byte(0x82)),
    Line::Do(Act::Write { rs: 1, byte: 0x55 }),
    Line::Comes(Reading::Interrupt(false)),
    Line::Do(Act::Read { rs: 0 }),
    Line::Comes(Reading::Byte(0x00)),
    Line::Do(Act::Idle),
    Line::Comes(Reading::Interrupt(true)),
    Line::Do(Act::Write { rs: 0, byte: 0x12 }),
    Line::Comes(Reading::Interrupt(false)),
    Line::Comes(Reading::Queue(QueueCode::Cleared)),
];

const OVERRUN_INTERRUPT: &[Line] = &[
    Line::Do(Act::Write { rs: 0, byte: 0x43 }),
    Line::Do(Act::Write { rs: 1, byte: 0x01 }),
    Line::Do(Act::Write { rs: 0, byte: 0x03 }),
    Line::Do(Act::Write { rs: 1, byte: 0x1c }),
    Line::Do(Act::Write { rs: 0, byte: 0x00 }),
    Line::Do(Act::Write { rs: 1, byte: 0x9c }),
    Line::Do(Act::Character(0x01)),
    Line::Comes(Reading::Interrupt(false)),
    Line::Do(Act::Character(0x02)),
    Line::Comes(Reading::Interrupt(true)),
    Line::Do(Act::Read { rs: 0 }),
    Line::Comes(Reading::Byte(0xa2)),
    Line::Comes(Reading::Interrupt(true)),
    Line::Do(Act::Read { rs: 1 }),
    Line::Comes(Reading::Interrupt(false)),
    Line::Do(Act::Read { rs: 0 }),
    Line::Comes(Reading::Byte(0x02)),
];

const SAME_RESET_LEVEL: &[Line] = &[
    Line::Do(Act::Write { rs: 0, byte: 0x43 }),
    Line::Do(Act::Write { rs: 1, byte: 0x01 }),
    Line::Do(Act::Write { rs: 0, byte: 0x03 }),
    Line::Do(Act::Write { rs: 1, byte: 0x1c }),
    Line::Do(Act::Write { rs: 0, byte: 0xc0 }),
    Line::Do(Act::Character(0x41)),
    Line::Do(Act::Write { rs: 1, byte: 0x55 }),
    Line::Do(Act::Pin { pin: 0, level: 1 }),
    Line::Comes(Reading::Receive(ReceiveCode::Nothing)),
    Line::Comes(Reading::Queue(QueueCode::Nothing)),
    Line::Comes(Reading::Waiting(Place::One, Some(1))),
    Line::Do(Act::Pin { pin: 0, level: 0 }),
    Line::Comes(Reading::Receive(ReceiveCode::Cleared)),
    Line::Comes(Reading::Queue(QueueCode::Cleared)),
    Line::Do(Act::Write { rs: 1, byte: 0x66 }),
    Line::Comes(Reading::Queue(QueueCode::Nothing)),
    Line::Do(Act::Pin { pin: 0, level: 0 }),
    Line::Comes(Reading::Queue(QueueCode::Nothing)),
    Line::Do(Act::Write { rs: 0, byte: 0xc2 }),
    Line::Comes(Reading::Queue(QueueCode::Cleared)),
    Line::Comes(Reading::Queued(Field::First, 2)),
];

const REFUSED_READ_SELECT: &[Line] = &[
    Line::Do(Act::Write { rs: 0, byte: 0x43 }),
    Line::Do(Act::Write { rs: 1, byte: 0x01 }),
    Line::Do(Act::Write { rs: 0, byte: 0x03 }),
    Line::Do(Act::Write { rs: 1, byte: 0x1c }),
    Line::Do(Act::Write { rs: 0, byte: 0x00 }),
    Line::Do(Act::Character(0x77)),
    Line::Do(Act::Read { rs: 2 }),
    Line::Comes(Reading::Refusal(Some(Refusal::NotABit))),
    Line::Comes(Reading::Byte(0)),
    Line::Comes(Reading::Waiting(Place::One, Some(1))),
    Line::Do(Act::Idle),
    Line::Comes(Reading::Refusal(None)),
    Line::Do(Act::Read { rs: 2 }),
    Line::Comes(Reading::Refusal(Some(Refusal::NotABit))),
    Line::Comes(Reading::Waiting(Place::Three, Some(1))),
    Line::Do(Act::Read { rs: 1 }),
    Line::Comes(Reading::Byte(0x77)),
    Line::Comes(Reading::Receive(ReceiveCode::Delivered)),
    Line::Comes(Reading::Received(Field::First, 1)),
];

const REFUSED_READ_KEEPS_ARM: &[Line] = &[
    Line::Do(Act::Write { rs: 0, byte: 0x43 }),
    Line::Do(Act::Write { rs: 1, byte: 0x01 }),
    Line::Do(Act::Write { rs: 0, byte: 0x03 }),
    Line::Do(Act::Write { rs: 1, byte: 0x1c }),
    Line::Do(Act::Write { rs: 0, byte: 0x00 }),
    Line::Do(Act::Character(0x01)),
    Line::Do(Act::Character(0x02)),
    Line::Do(Act::Read { rs: 0 }),
    Line::Comes(Reading::Byte(0x22)),
    Line::Do(Act::Read { rs: 2 }),
    Line::Comes(Reading::Refusal(Some(Refusal::NotABit))),
    Line::Do(Act::Read { rs: 1 }),
    Line::Comes(Reading::Byte(0x00)),
    Line::Do(Act::Read { rs: 0 }),
    Line::Comes(Reading::Byte(0x02)),
];

const REFUSED_WRITE_SELECT: &[Line] = &[
    Line::Do(Act::Write { rs: 0, byte: 0x43 }),
    Line::Do(Act::Write { rs: 1, byte: 0x01 }),
    Line::Do(Act::Write { rs: 0, byte: 0x03 }),
    Line::Do(Act::Write { rs: 1, byte: 0x1c }),
    Line::Do(Act::Write { rs: 0, byte: 0xc0 }),
    Line::Do(Act::Write { rs: 1, byte: 0xa1 }),
    Line::Do(Act::Write { rs: 2, byte: 0x03 }),
    Line::Comes(Reading::Refusal(Some(Refusal::NotABit))),
    Line::Comes(Reading::Queue(QueueCode::Nothing)),
    Line::Do(Act::Read { rs: 0 }),
    Line::Comes(Reading::Byte(0x00)),
    Line::Do(Act::Write { rs: 2, byte: 0xa2 }),
    Line::Comes(Reading::Refusal(Some(Refusal::NotABit))),
    Line::Do(Act::Write { rs: 1, byte: 0xa3 }),
    Line::Comes(Reading::Queue(QueueCode::Overwritten)),
    Line::Comes(Reading::Queued(Field::First, 1)),
    Line::Do(Act::Write { rs: 0, byte: 0xc2 }),
    Line::Comes(Reading::Queue(QueueCode::Cleared)),
    Line::Comes(Reading::Queued(Field::First, 2)),
];

const REFUSED_BIT: &[Line] = &[
    Line::Do(Act::Write { rs: 0, byte: 0x43 }),
    Line::Do(Act::Write { rs: 1, byte: 0x01 }),
    Line::Do(Act::Write { rs: 0, byte: 0x03 }),
    Line::Do(Act::Write { rs: 1, byte: 0x1c }),
    Line::Do(Act::Write { rs: 0, byte: 0x00 }),
    Line::Do(Act::Bit(1)),
    Line::Do(Act::Bit(1)),
    Line::Do(Act::Bit(0)),
    Line::Do(Act::Bit(0)),
    Line::Do(Act::Bit(2)),
    Line::Comes(Reading::Refusal(Some(Refusal::NotABit))),
    Line::Do(Act::Bit(1)),
    Line::Do(Act::Bit(0)),
    Line::Do(Act::Bit(1)),
    Line::Comes(Reading::Waiting(Place::One, None)),
    Line::Do(Act::Bit(0)),
    Line::Comes(Reading::Refusal(None)),
    Line::Comes(Reading::Waiting(Place::One, Some(1))),
    Line::Do(Act::Idle),
    Line::Do(Act::Read { rs: 1 }),
    Line::Comes(Reading::Byte(0x53)),
];

const REFUSED_LEVEL: &[Line] = &[
    Line::Do(Act::Write { rs: 0, byte: 0x43 }),
    Line::Do(Act::Write { rs: 1, byte: 0x01 }),
    Line::Do(Act::Write { rs: 0, byte: 0x03 }),
    Line::Do(Act::Write { rs: 1, byte: 0x1c }),
    Line::Do(Act::Write { rs: 0, byte: 0x00 }),
    Line::Do(Act::Character(0x41)),
    Line::Do(Act::Pin { pin: 0, level: 2 }),
    Line::Comes(Reading::Refusal(Some(Refusal::NotABit))),
    Line::Comes(Reading::Receive(ReceiveCode::Nothing)),
    Line::Comes(Reading::Waiting(Place::One, Some(1))),
    Line::Do(Act::Pin { pin: 1, level: 2 }),
    Line::Comes(Reading::Refusal(Some(Refusal::NotABit))),
    Line::Do(Act::Pin { pin: 2, level: 2 }),
    Line::Comes(Reading::Refusal(Some(Refusal::NotABit))),
    Line::Do(Act::Read { rs: 0 }),
    Line::Comes(Reading::Byte(0x02)),
];

const REFUSED_PIN: &[Line] = &[
    Line::Do(Act::Write { rs: 0, byte: 0x43 }),
    Line::Do(Act::Write { rs: 1, byte: 0x01 }),
    Line::Do(Act::Write { rs: 0, byte: 0x03 }),
    Line::Do(Act::Write { rs: 1, byte: 0x1c }),
    Line::Do(Act::Write { rs: 0, byte: 0x00 }),
    Line::Do(Act::Character(0x41)),
    Line::Do(Act::Pin { pin: 3, level: 0 }),
    Line::Comes(Reading::Refusal(Some(Refusal::NoSuchPin))),
    Line::Do(Act::Pin { pin: 3, level: 1 }),
    Line::Comes(Reading::Refusal(Some(Refusal::NoSuchPin))),
    Line::Comes(Reading::Interrupt(false)),
    Line::Comes(Reading::Waiting(Place::One, Some(1))),
    Line::Do(Act::Idle),
    Line::Comes(Reading::Refusal(None)),
    Line::Do(Act::Read { rs: 0 }),
    Line::Comes(Reading::Byte(0x03)),
    Line::Do(Act::Read { rs: 1 }),
    Line::Comes(Reading::Byte(0x41)),
];

const REFUSED_PIN_BEFORE_LEVEL: &[Line] = &[
    Line::Do(Act::Write { rs: 0, byte: 0x43 }),
    Line::Do(Act::Write { rs: 1, byte: 0x01 }),
    Line::Do(Act::Write { rs: 0, byte: 0x03 }),
    Line::Do(Act::Write { rs: 1, byte: 0x1c }),
    Line::Do(Act::Write { rs: 0, byte: 0x00 }),
    Line::Do(Act::Character(0x42)),
    Line::Do(Act::Pin { pin: 3, level: 2 }),
    Line::Comes(Reading::Refusal(Some(Refusal::NoSuchPin))),
    Line::Do(Act::Pin {
        pin: 255,
        level: 255,
    }),
    Line::Comes(Reading::Refusal(Some(Refusal::NoSuchPin))),
    Line::Do(Act::Pin { pin: 0, level: 2 }),
    Line::Comes(Reading::Refusal(Some(Refusal::NotABit))),
    Line::Comes(Reading::Waiting(Place::One, Some(1))),
    Line::Do(Act::Idle),
    Line::Do(Act::Read { rs: 1 }),
    Line::Comes(Reading::Byte(0x42)),
    Line::Comes(Reading::Received(Field::First, 1)),
    Line::Do(Act::Read { rs: 0 }),
    Line::Comes(Reading::Byte(0x02)),
];

// Each with what it shows. The rows are references, as those of the worked examples.
static EXAMPLES: [&Example; 52] = [
    &Example {
        title: "after an overrun the first two characters and the last one are delivered",
        script: OVERRUN_KEEPS_ARRIVING,
    },
    &Example {
        title: "overrun comes with place 1 full even while places 2 and 3 are empty",
        script: OVERRUN_WITH_EMPTY_PLACES,
    },
    &Example {
        title: "a second data read without an idle cycle repeats the last byte",
        script: SECOND_READ_REPEATS,
    },
    &Example {
        title: "a data read without a Status read before it clears no overrun",
        script: UNARMED_OVERRUN_STAYS,
    },
    &Example {
        title: "while RESET is low EIE stays 0, whatever is written",
        script: RESET_LOW_HOLDS_ERROR_ENABLE,
    },
    &Example {
        title: "while RESET is low PC1 and PC2 stay 0, so SM/DTR is high",
        script: RESET_LOW_HOLDS_PIN_CONTROL,
    },
    &Example {
        title: "while RESET is low external stays 0",
        script: RESET_LOW_HOLDS_EXTERNAL,
    },
    &Example {
        title: "while RESET is low the sync code, Tx Sync and the form are written as ever",
        script: RESET_LOW_WRITES_THE_REST,
    },
    &Example {
        title: "while RESET is low a 0 written to Tx Rs empties nothing and a 1 empties",
        script: RESET_LOW_IGNORES_ZERO_FOR_TRANSMITTER,
    },
    &Example {
        title: "RESET falling tells received, queued and shifted numbers together",
        script: RESET_FALLING_TELLS_ALL,
    },
    &Example {
        title: "one write resets the receiver and the transmitter",
        script: BOTH_RESETS_IN_ONE_WRITE,
    },
    &Example {
        title: "a transmitter reset clears three waiting bytes, oldest first",
        script: TRANSMITTER_RESET_TELLS_THREE,
    },
    &Example {
        title: "writing a reset bit as 1 resets also when it was set already",
        script: RESET_AGAIN_STILL_CLEARS,
    },
    &Example {
        title: "the last byte taken outlives a receiver reset and RESET",
        script: LAST_BYTE_OUTLIVES_RESETS,
    },
    &Example {
        title: "in two-byte mode RDA needs places 2 and 3 full",
        script: TWO_BYTE_RECEIVE,
    },
    &Example {
        title: "in two-byte mode TDRA needs places 1 and 2 empty",
        script: TWO_BYTE_TRANSMIT,
    },
    &Example {
        title: "a stripped character gets a number and is no loss",
        script: STRIPPED_WITHOUT_PARITY,
    },
    &Example {
        title: "with nine bits the parity bit does not matter for stripping",
        script: STRIPPED_WITH_NINE_BITS,
    },
    &Example {
        title: "six bits with right odd parity are delivered without mark",
        script: PARITY_RIGHT_SIX_ODD,
    },
    &Example {
        title: "six bits with wrong even parity are delivered with the mark",
        script: PARITY_WRONG_SIX_EVEN,
    },
    &Example {
        title: "Status bit 6 shows the mark of the character in place 3 only",
        script: PARITY_MARK_ONLY_OF_PLACE_THREE,
    },
    &Example {
        title: "a longer form written in the middle of a character ends it later",
        script: FORM_LONGER_IN_THE_MIDDLE,
    },
    &Example {
        title: "a shorter form written in the middle of a character ends it at the next bit",
        script: FORM_SHORTER_IN_THE_MIDDLE,
    },
    &Example {
        title: "changing external while the receiver is on restarts it",
        script: EXTERNAL_CHANGED_RESTARTS,
    },
    &Example {
        title: "rewriting the same external does not restart the receiver",
        script: EXTERNAL_SAME_GOES_ON,
    },
    &Example {
        title: "while Clear Sync is set bits are ignored, and its end restarts the receiver",
        script: CLEAR_SYNC_IGNORES_BITS,
    },
    &Example {
        title: "a Status read and a data read clear the stored DCD, but the high level still shows",
        script: DCD_STORED_AND_LEVEL,
    },
    &Example {
        title: "DCD rising again drops the arm",
        script: DCD_RISING_DROPS_ARM,
    },
    &Example {
        title: "while DCD is high bits are ignored, and its fall restarts the receiver",
        script: DCD_HIGH_IGNORES_BITS,
    },
    &Example {
        title: "a sync fill pulses underflow and sets TUF, and CTUF clears it",
        script: UNDERFLOW_AND_CLEAR,
    },
    &Example {
        title: "with seven bits and parity the sync fill is the code alone",
        script: SYNC_FILL_SEVEN_EVEN,
    },
    &Example {
        title: "a loaded word keeps its length when the form is changed",
        script: WORD_KEEPS_LENGTH,
    },
    &Example {
        title: "each bit of a sent byte has code 1, the last one code 2",
        script: SENT_BYTE_CODES,
    },
    &Example {
        title: "CTS rising cuts the byte that is being shifted, and held clocks show 1",
        script: CTS_CUTS_SHIFTED_BYTE,
    },
    &Example {
        title: "CTS rising leaves the queue alone, and after its fall the next byte is sent",
        script: CTS_KEEPS_QUEUE,
    },
    &Example {
        title: "CTS rising cuts also a byte of which no bit was shown, and tells nothing of a fill",
        script: CTS_CUTS_LOADED_BYTE,
    },
    &Example {
        title: "with external a high CTS leaves TDRA alone",
        script: CTS_WITH_EXTERNAL_KEEPS_TDRA,
    },
    &Example {
        title: "CTS rising is stored also while Tx Rs is set, and a transmitter reset clears it",
        script: CTS_STORED_WHILE_RESET,
    },
    &Example {
        title: "with no match SM/DTR is high only with PC2 PC1 00",
        script: SM_DTR_SETTINGS,
    },
    &Example {
        title: "a match is remembered whatever PC2 and PC1 are and shows until the next bit",
        script: SM_DTR_MATCH_UNTIL_NEXT_BIT,
    },
    &Example {
        title: "a match shows no more when the receiver goes off",
        script: SM_DTR_MATCH_ENDS_WITH_OFF,
    },
    &Example {
        title: "with RIE the interrupt follows RDA",
        script: RECEIVER_INTERRUPT,
    },
    &Example {
        title: "with TIE the interrupt follows TDRA",
        script: TRANSMITTER_INTERRUPT,
    },
    &Example {
        title: "with EIE an overrun interrupts until a Status read and a data read",
        script: OVERRUN_INTERRUPT,
    },
    &Example {
        title: "a RESET level equal to the present one resets nothing",
        script: SAME_RESET_LEVEL,
    },
    &Example {
        title: "a read with register select 2 is refused, takes nothing and moves nothing",
        script: REFUSED_READ_SELECT,
    },
    &Example {
        title: "a refused read neither clears nor drops an arm",
        script: REFUSED_READ_KEEPS_ARM,
    },
    &Example {
        title: "a write with register select 2 is refused, writes nothing and takes no number",
        script: REFUSED_WRITE_SELECT,
    },
    &Example {
        title: "a received bit 2 is refused and does not count",
        script: REFUSED_BIT,
    },
    &Example {
        title: "a pin level 2 is refused and changes no pin",
        script: REFUSED_LEVEL,
    },
    &Example {
        title: "a level on pin 3 is refused by 2 and changes nothing",
        script: REFUSED_PIN,
    },
    &Example {
        title: "pin 3 with level 2 is refused by 2, pin 0 with level 2 by 1",
        script: REFUSED_PIN_BEFORE_LEVEL,
    },
];

/// Further examples. All that must come by them does come.
pub fn examples() -> &'static [&'static Example; 52]
    ensures overrun_keeps_arriving { script_at 0 result.now ≡ more.overrun_keeps_arriving }
    ensures overrun_with_empty_places { script_at 1 result.now ≡ more.overrun_with_empty_places }
    ensures second_read_repeats { script_at 2 result.now ≡ more.second_read_repeats }
    ensures unarmed_overrun_stays { script_at 3 result.now ≡ more.unarmed_overrun_stays }
    ensures reset_low_holds_error_enable { script_at 4 result.now ≡ more.reset_low_holds_error_enable }
    ensures reset_low_holds_pin_control { script_at 5 result.now ≡ more.reset_low_holds_pin_control }
    ensures reset_low_holds_external { script_at 6 result.now ≡ more.reset_low_holds_external }
    ensures reset_low_writes_the_rest { script_at 7 result.now ≡ more.reset_low_writes_the_rest }
    ensures reset_low_ignores_zero_for_transmitter { script_at 8 result.now ≡ more.reset_low_ignores_zero_for_transmitter }
    ensures reset_falling_tells_all { script_at 9 result.now ≡ more.reset_falling_tells_all }
    ensures both_resets_in_one_write { script_at 10 result.now ≡ more.both_resets_in_one_write }
    ensures transmitter_reset_tells_three { script_at 11 result.now ≡ more.transmitter_reset_tells_three }
    ensures reset_again_still_clears { script_at 12 result.now ≡ more.reset_again_still_clears }
    ensures last_byte_outlives_resets { script_at 13 result.now ≡ more.last_byte_outlives_resets }
    ensures two_byte_receive { script_at 14 result.now ≡ more.two_byte_receive }
    ensures two_byte_transmit { script_at 15 result.now ≡ more.two_byte_transmit }
    ensures stripped_without_parity { script_at 16 result.now ≡ more.stripped_without_parity }
    ensures stripped_with_nine_bits { script_at 17 result.now ≡ more.stripped_with_nine_bits }
    ensures parity_right_six_odd { script_at 18 result.now ≡ more.parity_right_six_odd }
    ensures parity_wrong_six_even { script_at 19 result.now ≡ more.parity_wrong_six_even }
    ensures parity_mark_only_of_place_three { script_at 20 result.now ≡ more.parity_mark_only_of_place_three }
    ensures form_longer_in_the_middle { script_at 21 result.now ≡ more.form_longer_in_the_middle }
    ensures form_shorter_in_the_middle { script_at 22 result.now ≡ more.form_shorter_in_the_middle }
    ensures external_changed_restarts { script_at 23 result.now ≡ more.external_changed_restarts }
    ensures external_same_goes_on { script_at 24 result.now ≡ more.external_same_goes_on }
    ensures clear_sync_ignores_bits { script_at 25 result.now ≡ more.clear_sync_ignores_bits }
    ensures dcd_stored_and_level { script_at 26 result.now ≡ more.dcd_stored_and_level }
    ensures dcd_rising_drops_arm { script_at 27 result.now ≡ more.dcd_rising_drops_arm }
    ensures dcd_high_ignores_bits { script_at 28 result.now ≡ more.dcd_high_ignores_bits }
    ensures underflow_and_clear { script_at 29 result.now ≡ more.underflow_and_clear }
    ensures sync_fill_seven_even { script_at 30 result.now ≡ more.sync_fill_seven_even }
    ensures word_keeps_length { script_at 31 result.now ≡ more.word_keeps_length }
    ensures sent_byte_codes { script_at 32 result.now ≡ more.sent_byte_codes }
    ensures cts_cuts_shifted_byte { script_at 33 result.now ≡ more.cts_cuts_shifted_byte }
    ensures cts_keeps_queue { script_at 34 result.now ≡ more.cts_keeps_queue }
    ensures cts_cuts_loaded_byte { script_at 35 result.now ≡ more.cts_cuts_loaded_byte }
    ensures cts_with_external_keeps_tdra { script_at 36 result.now ≡ more.cts_with_external_keeps_tdra }
    ensures cts_stored_while_reset { script_at 37 result.now ≡ more.cts_stored_while_reset }
    ensures sm_dtr_settings { script_at 38 result.now ≡ more.sm_dtr_settings }
    ensures sm_dtr_match_until_next_bit { script_at 39 result.now ≡ more.sm_dtr_match_until_next_bit }
    ensures sm_dtr_match_ends_with_off { script_at 40 result.now ≡ more.sm_dtr_match_ends_with_off }
    ensures receiver_interrupt { script_at 41 result.now ≡ more.receiver_interrupt }
    ensures transmitter_interrupt { script_at 42 result.now ≡ more.transmitter_interrupt }
    ensures overrun_interrupt { script_at 43 result.now ≡ more.overrun_interrupt }
    ensures same_reset_level { script_at 44 result.now ≡ more.same_reset_level }
    ensures refused_read_select { script_at 45 result.now ≡ more.refused_read_select }
    ensures refused_read_keeps_arm { script_at 46 result.now ≡ more.refused_read_keeps_arm }
    ensures refused_write_select { script_at 47 result.now ≡ more.refused_write_select }
    ensures refused_bit { script_at 48 result.now ≡ more.refused_bit }
    ensures refused_level { script_at 49 result.now ≡ more.refused_level }
    ensures refused_pin { script_at 50 result.now ≡ more.refused_pin }
    ensures refused_pin_before_level { script_at 51 result.now ≡ more.refused_pin_before_level }
    ensures table { map (λ e. entry_of e.now) result.now ≡ further }
    ensures hold { FurtherHold }
{
    &EXAMPLES
}
