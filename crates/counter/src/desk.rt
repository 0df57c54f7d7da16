//! The desk: an adapter, and the slips of all events that it was handed.
ghost use Rattle.std.specs.Prelude.{◌≡◌, ◌≤◌, []};
ghost use Rattle.serial.specs.Accounts.{accounted};
ghost use Rattle.ssda.specs.State.{new_state};
ghost use Rattle.ssda.specs.Stepped.{standing_in};
ghost use Rattle.counter.specs.declared.desk.Fault.TheVariants.{Declined, NoMemory};
ghost use Rattle.counter.specs.Events.{events_before, last_event};
ghost use Rattle.counter.specs.Desk.{Handed, HandedAll, or_declined, told_by, fate_in};

use crate::story::Step;
use serial::account::Account;
use serial::case::Case;
use serial::event::{Cycle, Event, Refusal};
use serial::slip::{ReceiveCode, Reply, Slip, Standing};
use ssda::adapter::Adapter;
use std::alloc::{AllocFailed, Global};
use std::marker::Model;
use thiserror::Error;

/// Why the story stops.
#[derive(Clone, Copy, Debug, PartialEq, Eq, Error)]
pub enum Fault {
    #[error("The adapter declined an event, refusal {}.", .0.number())]
    Declined(Refusal),
    #[error("There is no memory for another slip.")]
    NoMemory,
}

// Written by hand, since a derived `From` has no contract.
impl From<Refusal> for Fault {
    ghost from_gives = { λ x r. r ≡ Declined x };

    fn from(refusal: Refusal) -> Fault {
        Fault::Declined(refusal)
    }
}

impl<T: Drop> From<AllocFailed<T>> for Fault {
    ghost from_gives = { λ _ r. r ≡ NoMemory };

    fn from(_: AllocFailed<T>) -> Fault {
        Fault::NoMemory
    }
}

/// An adapter, and the slips of all events that it was handed. A contract sees both as `Kept`.
#[derive(Drop)]
pub struct Desk {
    adapter: Adapter,
    slips: Vec<Slip>,
}

impl Model for Desk {
    ghost use Rattle.std.specs.Prelude.{◌≤◌, vec_items};
    ghost use Rattle.counter.specs.Desk.{Kept};

    ghost Value = { Kept };

    ghost view = { λ d. record { state = d.adapter; slips = vec_items d.slips } };

    ghost invariant = { λ d. d.adapter.front.receiver.count ≤ 8 };
}

impl Desk {
    /// A new adapter, and no slips.
    pub fn new(heap: Global) -> Desk
        ensures { result ≡ record { state = new_state; slips = [] } }
    {
        Desk {
            adapter: Adapter::new(),
            slips: Vec::new(heap),
        }
    }

    /// One step of the story; the reply is that to its last event.
    pub fn play(&mut self, step: Step) -> Result<Reply, Fault>
        ensures handed { HandedAll self.old (events_before step) (last_event step) result self.new }
        ensures few { self.new.state.front.receiver.count ≤ 8 }
    {
        match step {
            Step::Write { rs, byte } => self.hand(Event::Bus(Cycle::Write { rs, byte })),
            Step::Character(byte) => {
                let bits = Event::character(byte);
                self.hand_all(&bits[..7], bits[7])
            }
            Step::Idle => self.hand(Event::Bus(Cycle::Idle)),
            Step::LoggerReadsStatus => self.hand(Event::Bus(Cycle::Read { rs: 0 })),
            Step::DoserReadsData => self.hand(Event::Bus(Cycle::Read { rs: 1 })),
        }
    }

    /// Which characters wait.
    pub fn standing(&self) -> Standing
        ensures standing { result ≡ standing_in self.now.state }
        ensures few { self.now.state.front.receiver.count ≤ 8 }
    {
        self.adapter.question()
    }

    /// What became of all characters so far.
    pub fn account(&self) -> Result<Account, Fault>
        ensures account { result ≡ or_declined (accounted self.now.slips) }
        ensures few { self.now.state.front.receiver.count ≤ 8 }
    {
        Ok(Account::of(self.slips.as_slice())?)
    }

    /// What became of one character: nothing yet if no slip names it.
    pub fn fate(&self, number: u32) -> ReceiveCode
        ensures fate { result ≡ fate_in number self.now.slips }
        ensures few { self.now.state.front.receiver.count ≤ 8 }
    {
        fate_in(self.slips.as_slice(), number)
    }

    // Some events in order, and one more; the reply is that to the last one.
    fn hand_all(&mut self, events: &[Event], last: Event) -> Result<Reply, Fault>
        ensures handed { HandedAll self.old events.now last result self.new }
        ensures few { self.new.state.front.receiver.count ≤ 8 }
    {
        for event in events {
            self.hand(*event)?;
        }
        self.hand(last)
    }

    // One event, whose slip is kept.
    fn hand(&mut self, event: Event) -> Result<Reply, Fault>
        ensures handed { Handed self.old event result self.new }
        ensures few { self.new.state.front.receiver.count ≤ 8 }
    {
        let reply = self.adapter.event(event)?;
        self.slips.push(reply.slip)?;
        Ok(reply)
    }
}

// What the last slip that names a character tells of it.
fn fate_in(slips: &[Slip], number: u32) -> ReceiveCode
    ensures { result ≡ fate_in number slips.now }
{
    slips.iter().fold(
        ReceiveCode::Nothing,
        |fate, slip| told_by(number, fate, slip),
    )
}

// What is told of a character after one more slip.
fn told_by(number: u32, fate: ReceiveCode, slip: &Slip) -> ReceiveCode
    ensures { result ≡ told_by number fate slip.now }
{
    if slip.received.all().contains(&number) {
        slip.receive
    } else {
        fate
    }
}
