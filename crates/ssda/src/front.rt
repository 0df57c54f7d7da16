//! The front: all of the adapter that never looks at a queue. It decides what is framed, and when a word is loaded.
ghost use Rattle.std.specs.Prelude.{◌≡◌, ◌+◌, ◌<◌};
ghost use Rattle.std.specs.Fn.{FnOnceReturnsAtMut};
ghost use Rattle.ssda.specs.Receiver.{bit_value};
ghost use Rattle.ssda.specs.Front.{new_front, off_of, held_of, framed_room, written_room, checked_by, strips_of, settled_front, wrote_c1, wrote_c2, wrote_c3, wrote_code, counted_write, heard_front, framed_front, ticked_front, with_cts, with_dcd, reset_fell, reset_rose};

use crate::control::{Control, Setup, Target};
use crate::receiver::{Character, Mode, Receiver};
use crate::transmitter::Timing;
use serial::event::{Cycle, Event, Refusal};

// The most characters that are framed, and the most bytes that are written.
pub(crate) const NUMBER_LIMIT: u32 = 16_000_000;

/// The levels of the pins; true is high.
#[derive(Clone, Copy, Debug, PartialEq, Eq)]
pub struct Pins {
    pub(crate) reset: bool,
    pub(crate) cts: bool,
    pub(crate) dcd: bool,
}

/// All of the adapter that never looks at a queue.
#[derive(Clone, Copy, Debug, PartialEq, Eq)]
pub struct Front {
    pub(crate) control: Control,
    pub(crate) setup: Setup,
    pub(crate) code: u8,
    pub(crate) pins: Pins,
    pub(crate) receiver: Receiver,
    pub(crate) written: u32,
    pub(crate) timing: Timing,
}

impl Front {
    // As in a new adapter: RESET high, CTS and DCD low, both resets set.
    pub(crate) fn new() -> Front
        ensures { result ≡ new_front }
    {
        Front {
            control: Control::new(),
            setup: Setup::new(),
            code: 0,
            pins: Pins {
                reset: true,
                cts: false,
                dcd: false,
            },
            receiver: Receiver::new(),
            written: 0,
            timing: Timing::Held,
        }
    }

    // The receiver is off while Rx Rs is set, DCD is high or Clear Sync is set.
    fn is_off(&self) -> bool
        ensures { result ≡ off_of self.now }
    {
        self.control.rx_reset || self.pins.dcd || self.control.clear_sync
    }

    // How the receiver is set.
    fn mode(&self) -> Mode
        ensures off { result.off ≡ off_of self.now }
        ensures external { result.external ≡ self.now.setup.external }
    {
        Mode {
            off: self.is_off(),
            external: self.setup.external,
        }
    }

    // The transmitter is held while Tx Rs is set or CTS is high.
    fn is_held(&self) -> bool
        ensures { result ≡ held_of self.now }
    {
        self.control.tx_reset || self.pins.cts
    }

    // Why an event is declined: a field out of range; a received bit or a transmit data write when the numbers are used up.
    pub(crate) fn check(&self, event: Event) -> Result<(), Refusal>
        ensures { result ≡ checked_by self.now event }
    {
        event.check_range()?;
        match event {
            Event::ReceivedBit(_) => self.check_framed(),
            Event::Bus(Cycle::Write { rs: 1, .. }) => self.check_written(),
            _ => Ok(()),
        }
    }

    // The two checks differ in count, condition and refusal; what is common is one comparison.
    fn check_framed(&self) -> Result<(), Refusal>
        ensures { result ≡ framed_room self.now }
    {
        if self.receiver.framed() >= NUMBER_LIMIT {
            return Err(Refusal::FramedFull);
        }
        Ok(())
    }

    fn check_written(&self) -> Result<(), Refusal>
        ensures { result ≡ written_room self.now }
    {
        match self.control.target {
            Target::TransmitData if self.written >= NUMBER_LIMIT => Err(Refusal::WrittenFull),
            _ => Ok(()),
        }
    }

    // A byte written to C1.
    pub(crate) fn write_c1(&mut self, byte: u8)
        ensures { self.new ≡ wrote_c1 self.old byte }
    {
        self.change(|front| front.control = Control::from_byte(byte, front.pins.reset));
    }

    // A byte written to C2.
    pub(crate) fn write_c2(&mut self, byte: u8)
        ensures { self.new ≡ wrote_c2 self.old byte }
    {
        self.setup.write_c2(byte, self.pins.reset);
    }

    // A byte written to C3.
    pub(crate) fn write_c3(&mut self, byte: u8)
        ensures { self.new ≡ wrote_c3 self.old byte }
    {
        self.change(|front| front.setup.write_c3(byte, front.pins.reset));
    }

    // A byte written to the sync code.
    pub(crate) fn write_code(&mut self, byte: u8)
        ensures { self.new ≡ wrote_code self.old byte }
    {
        self.code = byte;
    }

    // A byte written to transmit data gets the next number.
    pub(crate) fn count_write(&mut self) -> u32
        requires room { self.old.written < NUMBER_LIMIT }
        ensures front { self.new ≡ counted_write self.old }
        ensures number { result ≡ self.old.written + 1 }
    {
        self.written += 1;
        self.written
    }

    // A received bit, and the character that it frames, if it frames one. Off, the receiver ignores it.
    pub(crate) fn hear(&mut self, bit: bool) -> Option<Character>
        requires room { self.old.receiver.framed < NUMBER_LIMIT }
        ensures front { self.new ≡ heard_front self.old (bit_value bit) }
        ensures character { result ≡ framed_front self.old (bit_value bit) }
    {
        if self.is_off() {
            return None;
        }
        self.receiver.hear(bit, &self.setup, self.code)
    }

    // Whether the character that the bit just heard has framed is stripped.
    pub(crate) fn strips(&self) -> bool
        ensures { result ≡ strips_of self.now }
    {
        self.control.strip_sync && self.receiver.matched()
    }

    // A transmit clock.
    pub(crate) fn tick(&mut self)
        ensures { self.new ≡ ticked_front self.old }
    {
        self.timing.tick(self.setup.form.total_bits());
    }

    // CTS gets a level.
    pub(crate) fn set_cts(&mut self, high: bool)
        ensures { self.new ≡ with_cts self.old high }
    {
        self.change(|front| front.pins.cts = high);
    }

    // DCD gets a level.
    pub(crate) fn set_dcd(&mut self, high: bool)
        ensures { self.new ≡ with_dcd self.old high }
    {
        self.change(|front| front.pins.dcd = high);
    }

    // RESET falls: both resets are set, and EIE, PC1, PC2 and external are cleared.
    pub(crate) fn fall_under_reset(&mut self)
        ensures { self.new ≡ reset_fell self.old }
    {
        self.change(|front| {
            front.pins.reset = false;
            front.control.fall_under_reset();
            front.setup.fall_under_reset();
        });
    }

    // RESET rises: what it held at 0 or 1 stays so until it is written.
    pub(crate) fn rise_from_reset(&mut self)
        ensures { self.new ≡ reset_rose self.old }
    {
        self.pins.reset = true;
    }

    // Sets something anew, with what that means for receiver and transmitter.
    fn change<F: FnOnce(&mut Front)>(&mut self, set: F)
        requires { F.IsAlwaysCallable set }
        ensures { (changed : _) × FnOnceReturnsAtMut F.FnOnce set self.old tt changed × (self.new ≡ settled_front self.old changed) }
    {
        let before = *self;
        set(self);
        self.settle(&before);
    }

    // What a new setting means for receiver and transmitter.
    fn settle(&mut self, before: &Front)
        ensures { self.new ≡ settled_front before.now self.old }
    {
        let mode = self.mode();
        let held = self.is_held();
        self.receiver.settle(before.mode(), mode);
        self.timing.settle(before.is_held(), held);
    }
}
