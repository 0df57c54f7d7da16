//! The account: how many characters and bytes met each fate, by a list of slips.
ghost use Rattle.std.specs.Prelude.{◌≡◌, ◌+◌, ◌≤◌};
ghost use Rattle.serial.specs.Accounts.{receive_fate, queue_fate, shift_fate, none_yet, how_many, unless_zero, Within, counted, with_slip, accounted, CountsFields, AnyOrder, Joins};

use crate::event::Refusal;
use crate::queue::Numbers;
use crate::slip::{QueueCode, ReceiveCode, ShiftCode, Slip};

/// What becomes of a received character, and of a written byte, as a slip tells it.
#[derive(Clone, Copy, Debug, PartialEq, Eq)]
pub enum Fate {
    Delivered,
    Stripped,
    Lost,
    ReceivedCleared,
    Overwritten,
    WrittenCleared,
    Sent,
    Cut,
}

/// How many met each fate.
#[derive(Clone, Copy, Debug, Default, PartialEq, Eq)]
pub struct Account {
    pub delivered: u32,
    pub stripped: u32,
    pub lost: u32,
    pub received_cleared: u32,
    pub overwritten: u32,
    pub written_cleared: u32,
    pub sent: u32,
    pub cut: u32,
}

/// The most slips of one account.
pub const SLIP_LIMIT: usize = 65536;

impl Account {
    /// Adds up the fates that these slips tell.
    pub fn of(slips: &[Slip]) -> Result<Account, Refusal>
        ensures account { result ≡ accounted slips.now }
        ensures counts_fields { CountsFields }
        ensures any_order { AnyOrder }
        ensures joins { Joins }
    {
        let mut total = Account::none();
        if slips.len() > SLIP_LIMIT {
            return Err(Refusal::TooLong);
        }
        for slip in slips {
            total.add(slip);
        }
        Ok(total)
    }

    // Nobody met a fate yet. Its promises bring the law of the account to `of`.
    fn none() -> Account
        ensures account { result ≡ none_yet }
        ensures counts_fields { CountsFields }
        ensures any_order { AnyOrder }
        ensures joins { Joins }
    {
        Account::default()
    }

    // What one slip tells.
    fn add(&mut self, slip: &Slip)
        requires { Within self.old 600000 }
        ensures { self.new ≡ with_slip self.old slip.now }
    {
        self.count(slip.receive.fate(), how_many(slip.received));
        self.count(slip.queue.fate(), how_many(slip.queued));
        self.count(slip.shift.fate(), one_or_none(slip.shifted));
    }

    // So many more met this fate, if it is one.
    fn count(&mut self, fate: Option<Fate>, more: u32)
        requires { (Within self.old 1000000) × (more ≤ 3) }
        ensures { self.new ≡ counted self.old fate more }
    {
        match fate {
            Some(Fate::Delivered) => self.delivered += more,
            Some(Fate::Stripped) => self.stripped += more,
            Some(Fate::Lost) => self.lost += more,
            Some(Fate::ReceivedCleared) => self.received_cleared += more,
            Some(Fate::Overwritten) => self.overwritten += more,
            Some(Fate::WrittenCleared) => self.written_cleared += more,
            Some(Fate::Sent) => self.sent += more,
            Some(Fate::Cut) => self.cut += more,
            None => {}
        }
    }
}

// Three tables of their own, one for each code; nothing but the type of the answer is common to them.
impl ReceiveCode {
    // The fate that the code tells, marked or not.
    fn fate(self) -> Option<Fate>
        ensures { result ≡ receive_fate self }
    {
        match self {
            ReceiveCode::Nothing => None,
            ReceiveCode::Delivered | ReceiveCode::DeliveredMarked => Some(Fate::Delivered),
            ReceiveCode::Stripped => Some(Fate::Stripped),
            ReceiveCode::Lost => Some(Fate::Lost),
            ReceiveCode::Cleared => Some(Fate::ReceivedCleared),
        }
    }
}

impl QueueCode {
    fn fate(self) -> Option<Fate>
        ensures { result ≡ queue_fate self }
    {
        match self {
            QueueCode::Nothing => None,
            QueueCode::Overwritten => Some(Fate::Overwritten),
            QueueCode::Cleared => Some(Fate::WrittenCleared),
        }
    }
}

impl ShiftCode {
    // A bit that is not the last tells no fate.
    fn fate(self) -> Option<Fate>
        ensures { result ≡ shift_fate self }
    {
        match self {
            ShiftCode::Nothing | ShiftCode::Bit => None,
            ShiftCode::LastBit => Some(Fate::Sent),
            ShiftCode::Cut => Some(Fate::Cut),
        }
    }
}

// How many of three numbers are not 0. Written out, since the check proves nothing of a sum over them.
fn how_many(numbers: Numbers) -> u32
    ensures { result ≡ how_many numbers }
{
    one_or_none(numbers.first) + one_or_none(numbers.second) + one_or_none(numbers.third)
}

fn one_or_none(number: u32) -> u32
    ensures { result ≡ unless_zero number }
{
    u32::from(number != 0)
}
