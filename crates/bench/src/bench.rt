//! The bench: an adapter, the answer to its last event, and the bits that its last clocks showed.
ghost use Rattle.std.specs.Prelude.{◌≡◌, ◌≤◌};
ghost use Rattle.bench.specs.Bench.{new_seen, handed, reply_in, with_bit, clocked, clocks, heard, did, field_of, looked};

use crate::script::{Act, Field, Reading};
use serial::event::{Cycle, Event, Refusal};
use serial::queue::Numbers;
use serial::slip::Reply;
use ssda::adapter::Adapter;
use std::marker::Model;

// The bits on the line take one more only below this, so at most 31 bits fit.
const LINE_LIMIT: u32 = 1 << 30;

/// An adapter with what is seen at it. A contract sees it as `Seen`.
#[derive(Drop)]
pub struct Bench {
    adapter: Adapter,
    answer: Result<Reply, Refusal>,
    line: u32,
}

impl Model for Bench {
    ghost use Rattle.std.specs.Prelude.{◌≤◌};
    ghost use Rattle.bench.specs.Bench.{Seen};

    ghost Value = { Seen };

    ghost view = { λ b. record { state = b.adapter; answer = b.answer; line = b.line } };

    ghost invariant = { λ b. b.adapter.front.receiver.count ≤ 8 };
}

impl Bench {
    /// A new adapter, and nothing done yet.
    pub fn new() -> Bench
        ensures { result ≡ new_seen }
    {
        Bench {
            adapter: Adapter::new(),
            answer: Ok(Reply::default()),
            line: 0,
        }
    }

    /// Does one thing to the adapter.
    pub fn act(&mut self, act: Act)
        ensures seen { self.new ≡ did self.old act }
        ensures few { self.new.state.front.receiver.count ≤ 8 }
    {
        match act {
            Act::Idle => self.hand(Event::Bus(Cycle::Idle)),
            Act::Read { rs } => self.hand(Event::Bus(Cycle::Read { rs })),
            Act::Write { rs, byte } => self.hand(Event::Bus(Cycle::Write { rs, byte })),
            Act::Bit(bit) => self.hand(Event::ReceivedBit(bit)),
            Act::Character(byte) => self.receive(byte),
            Act::Clocks(count) => self.clocks(count),
            Act::Pin { pin, level } => self.hand(Event::PinLevel { pin, level }),
        }
    }

    /// What comes now, of the kind of the reading that is given, at its field or place. The value of that reading is not looked at.
    pub fn look(&self, like: Reading) -> Reading
        ensures reading { result ≡ looked self.now like }
        ensures few { self.now.state.front.receiver.count ≤ 8 }
    {
        let reply = self.reply();
        match like {
            Reading::Byte(_) => Reading::Byte(reply.value),
            Reading::Interrupt(_) => Reading::Interrupt(reply.interrupt),
            Reading::SmDtr(_) => Reading::SmDtr(reply.sm_dtr),
            Reading::Underflow(_) => Reading::Underflow(reply.underflow),
            Reading::Receive(_) => Reading::Receive(reply.slip.receive),
            Reading::Received(field, _) => Reading::Received(
                field,
                field_of(reply.slip.received, field),
            ),
            Reading::Queue(_) => Reading::Queue(reply.slip.queue),
            Reading::Queued(field, _) => Reading::Queued(field, field_of(reply.slip.queued, field)),
            Reading::Shift(_) => Reading::Shift(reply.slip.shift),
            Reading::Shifted(_) => Reading::Shifted(reply.slip.shifted),
            Reading::Refusal(_) => Reading::Refusal(self.answer.err()),
            Reading::Line(_) => Reading::Line(self.line),
            Reading::Waiting(place, _) => Reading::Waiting(
                place,
                self.adapter.question().received.at(place),
            ),
            Reading::Shifting(_) => Reading::Shifting(self.adapter.question().shifting),
        }
    }

    // The last reply; a blank one after a refusal.
    fn reply(&self) -> Reply
        ensures { result ≡ reply_in self.now.answer }
    {
        self.answer.unwrap_or_default()
    }

    // One event.
    fn hand(&mut self, event: Event)
        ensures seen { self.new ≡ handed self.old event }
        ensures few { self.new.state.front.receiver.count ≤ 8 }
    {
        self.answer = self.adapter.event(event);
    }

    // The eight bits of a character, lowest first.
    fn receive(&mut self, byte: u8)
        ensures seen { self.new ≡ heard self.old byte }
        ensures few { self.new.state.front.receiver.count ≤ 8 }
    {
        for event in &Event::character(byte) {
            self.hand(*event);
        }
    }

    // Transmit clocks, and the bits that they show.
    fn clocks(&mut self, count: u8)
        ensures seen { self.new ≡ clocks self.old count }
        ensures few { self.new.state.front.receiver.count ≤ 8 }
    {
        self.line = 0;
        for _turn in 0..count {
            self.clock();
        }
    }

    fn clock(&mut self)
        ensures seen { self.new ≡ clocked self.old }
        ensures few { self.new.state.front.receiver.count ≤ 8 }
    {
        let reply = self.adapter.transmit_clock();
        self.answer = Ok(reply);
        self.line = with_bit(self.line, reply.value);
    }
}

// The bits so far with one more, or the bits so far if no more fit.
fn with_bit(line: u32, bit: u8) -> u32
    ensures { result ≡ with_bit line bit }
{
    if line < LINE_LIMIT {
        line * 2 + u32::from(bit)
    } else {
        line
    }
}

fn field_of(numbers: Numbers, field: Field) -> u32
    ensures { result ≡ field_of numbers field }
{
    match field {
        Field::First => numbers.first,
        Field::Second => numbers.second,
        Field::Third => numbers.third,
    }
}
