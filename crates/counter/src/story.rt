//! The story: a screen, a logger and a doser share one adapter, while an order comes over the line.
ghost use Rattle.counter.specs.Story.{Goes};

/// What happens next. The bus is idle for the adapter while the screen redraws. A register select is a byte, as a cycle of the bus takes it.
#[derive(Clone, Copy, Debug, PartialEq, Eq)]
pub enum Step {
    Write { rs: u8, byte: u8 },
    Character(u8),
    Idle,
    LoggerReadsStatus,
    DoserReadsData,
}

/// The character that closes the valve.
pub const CLOSING: u8 = b'C';

/// The adapter is set up to receive: external sync, 8 bits bare, 1-byte mode, both sides released. 'O' and 'P' are read in time. Then redraws
/// hold the doser up and the queue fills: '7' is lost, the logger sees overrun, and before the doser reads, the closing character is lost too.
pub fn one_order() -> [Step; 28]
    ensures { Goes result }
{
    [
        Step::Write { rs: 0, byte: 0x43 },
        Step::Write { rs: 1, byte: 0x01 },
        Step::Write { rs: 0, byte: 0x03 },
        Step::Write { rs: 1, byte: 0x1c },
        Step::Write { rs: 0, byte: 0x00 },
        Step::LoggerReadsStatus,
        Step::Character(b'O'),
        Step::Idle,
        Step::LoggerReadsStatus,
        Step::DoserReadsData,
        Step::Character(b'P'),
        Step::Idle,
        Step::DoserReadsData,
        Step::Character(b'E'),
        Step::Idle,
        Step::Character(b'N'),
        Step::Idle,
        Step::Character(b'7'),
        Step::Idle,
        Step::Character(CLOSING),
        Step::LoggerReadsStatus,
        Step::Idle,
        Step::Character(b'/'),
        Step::DoserReadsData,
        Step::LoggerReadsStatus,
        Step::Idle,
        Step::DoserReadsData,
        Step::LoggerReadsStatus,
    ]
}
