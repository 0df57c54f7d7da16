//! The adapter: a state in which at most eight bits are counted toward a character, and the calls on it.
ghost use Rattle.std.specs.Prelude.{◌≡◌, ◌≤◌, Ok};
ghost use Rattle.serial.specs.declared.event.Event.TheVariants.{Bus, ReceivedBit, TransmitClock, PinLevel};
ghost use Rattle.ssda.specs.State.{new_state};
ghost use Rattle.ssda.specs.Stepped.{stepped, answered, UnchangedIfRefused, standing_in};

use crate::state::State;
use serial::event::{Cycle, Event, Refusal};
use serial::slip::{Reply, Standing};
use std::marker::Model;

/// The adapter. A contract sees it as its state.
#[derive(Drop)]
pub struct Adapter {
    state: State,
}

impl Model for Adapter {
    ghost use Rattle.std.specs.Prelude.{◌≤◌};
    ghost use Rattle.ssda.specs.declared.state.State.{State};

    ghost Value = { State };

    ghost view = { λ a. a.state };

    ghost invariant = { λ a. a.state.front.receiver.count ≤ 8 };
}

impl Adapter {
    /// A new adapter: RESET high, CTS and DCD low, Rx Rs and Tx Rs set, all else 0 and the queues empty.
    pub fn new() -> Adapter
        ensures { result ≡ new_state }
    {
        Adapter {
            state: State::new(),
        }
    }

    /// An event: the reply, or a refusal that changes nothing.
    pub fn event(&mut self, event: Event) -> Result<Reply, Refusal>
        ensures state { self.new ≡ stepped self.old event }
        ensures answer { result ≡ answered self.old event }
        ensures unchanged { UnchangedIfRefused result self.old self.new }
        ensures few { self.new.front.receiver.count ≤ 8 }
    {
        let answer = self.state.handle(event);
        // The receiver keeps the limit itself; this tells the check so.
        prove!(self.state.front.receiver.counted() <= 8);
        answer
    }

    /// A bus cycle.
    pub fn bus_cycle(&mut self, cycle: Cycle) -> Result<Reply, Refusal>
        ensures state { self.new ≡ stepped self.old (Bus cycle) }
        ensures answer { result ≡ answered self.old (Bus cycle) }
        ensures unchanged { UnchangedIfRefused result self.old self.new }
        ensures few { self.new.front.receiver.count ≤ 8 }
    {
        self.event(Event::Bus(cycle))
    }

    /// A received bit.
    pub fn received_bit(&mut self, bit: u8) -> Result<Reply, Refusal>
        ensures state { self.new ≡ stepped self.old (ReceivedBit bit) }
        ensures answer { result ≡ answered self.old (ReceivedBit bit) }
        ensures unchanged { UnchangedIfRefused result self.old self.new }
        ensures few { self.new.front.receiver.count ≤ 8 }
    {
        self.event(Event::ReceivedBit(bit))
    }

    /// A transmit clock, which is never declined.
    pub fn transmit_clock(&mut self) -> Reply
        ensures state { self.new ≡ stepped self.old TransmitClock }
        ensures answer { Ok result ≡ answered self.old TransmitClock }
        ensures few { self.new.front.receiver.count ≤ 8 }
    {
        // Not by `event`: `perform` would then be called in one place only and taken whole into it, and each event would cost a sixth to a third more.
        let reply = self.state.perform(Event::TransmitClock);
        prove!(self.state.front.receiver.counted() <= 8);
        reply
    }

    /// A level on a pin.
    pub fn pin_level(&mut self, pin: u8, level: u8) -> Result<Reply, Refusal>
        ensures state { self.new ≡ stepped self.old (PinLevel pin level) }
        ensures answer { result ≡ answered self.old (PinLevel pin level) }
        ensures unchanged { UnchangedIfRefused result self.old self.new }
        ensures few { self.new.front.receiver.count ≤ 8 }
    {
        self.event(Event::PinLevel { pin, level })
    }

    /// Which numbers wait, place by place, and which byte is being shifted. The question changes nothing. Whatever came before, at most eight
    /// bits are counted toward a character.
    pub fn question(&self) -> Standing
        ensures standing { result ≡ standing_in self.now }
        ensures few { self.now.front.receiver.count ≤ 8 }
    {
        self.state.standing()
    }
}
