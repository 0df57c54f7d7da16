//! The whole state of the adapter: the front, and beside it the queues, the word that is being shown and the flags.
ghost use Rattle.std.specs.Prelude.{◌≡◌};
ghost use Rattle.ssda.specs.State.{new_state, rda_of, tdra_of, marked_of, conditions_of, interrupt_of, status_of, sm_dtr_of};
ghost use Rattle.ssda.specs.Stepped.{standing_in};

use crate::front::Front;
use crate::receiver::Character;
use crate::status::{Conditions, Flags, interrupt, sm_dtr, status_byte};
use crate::transmitter::{Byte, Shift};
use serial::queue::{Place, Queue};
use serial::slip::Standing;

/// The whole state. `last` is the byte that was taken last.
#[derive(Clone, Copy, Debug, PartialEq, Eq)]
pub struct State {
    pub(crate) front: Front,
    pub(crate) receive: Queue<Character>,
    pub(crate) transmit: Queue<Byte>,
    pub(crate) shift: Shift,
    pub(crate) flags: Flags,
    pub(crate) last: u8,
}

impl State {
    // As in a new adapter.
    pub(crate) fn new() -> State
        ensures { result ≡ new_state }
    {
        State {
            front: Front::new(),
            receive: Queue::new(),
            transmit: Queue::new(),
            shift: Shift::new(),
            flags: Flags::new(),
            last: 0,
        }
    }

    // Received data is available: place 3 is full, and in two-byte mode place 2 too.
    fn rda(&self) -> bool
        ensures { result ≡ rda_of self.now }
    {
        self.receive.is_full(Place::Three)
            && (self.front.setup.one_byte || self.receive.is_full(Place::Two))
    }

    // Transmit data may be written: place 1 is empty, and in two-byte mode place 2 too. Never while Tx Rs is set, nor while
    // CTS is high unless external.
    fn tdra(&self) -> bool
        ensures { result ≡ tdra_of self.now }
    {
        let empty = !self.transmit.is_full(Place::One)
            && (self.front.setup.one_byte || !self.transmit.is_full(Place::Two));
        let inhibited = self.front.control.tx_reset
            || (self.front.pins.cts && !self.front.setup.external);
        empty && !inhibited
    }

    // The parity mark of what stands in place 3.
    fn marked(&self) -> bool
        ensures { result ≡ marked_of self.now }
    {
        self.receive
            .output()
            .is_some_and(|character| character.mark)
    }

    // What Status and the interrupt go by, besides the flags.
    fn conditions(&self) -> Conditions
        ensures { result ≡ conditions_of self.now }
    {
        Conditions {
            rda: self.rda(),
            tdra: self.tdra(),
            dcd_high: self.front.pins.dcd,
            cts_high: self.front.pins.cts,
            parity: self.marked(),
        }
    }

    // The interrupt.
    pub(crate) fn interrupt(&self) -> bool
        ensures { result ≡ interrupt_of self.now }
    {
        interrupt(
            self.front.control,
            self.front.setup,
            self.flags,
            self.conditions(),
        )
    }

    // The Status byte; its bit 7 is the interrupt.
    pub(crate) fn status(&self) -> u8
        ensures { result ≡ status_of self.now }
    {
        status_byte(self.flags, self.conditions(), self.interrupt())
    }

    // The SM/DTR pin.
    pub(crate) fn sm_dtr(&self) -> bool
        ensures { result ≡ sm_dtr_of self.now }
    {
        sm_dtr(self.front.setup, self.front.receiver.matched())
    }

    // Which numbers wait, place by place, and which byte is being shifted.
    pub(crate) fn standing(&self) -> Standing
        ensures { result ≡ standing_in self.now }
    {
        Standing {
            received: self.receive.numbers(),
            queued: self.transmit.numbers(),
            shifting: self.shift.number_at(self.front.timing),
        }
    }
}
