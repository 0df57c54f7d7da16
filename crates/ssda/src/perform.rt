//! An event handled: refused, or performed, with the state after it and the reply.
ghost use Rattle.std.specs.Prelude.{◌≡◌, Ok};
ghost use Rattle.serial.specs.Events.{pin_number};
ghost use Rattle.ssda.specs.Front.{checked_by, written_room};
ghost use Rattle.ssda.specs.Stepped.{stepped, answered};
ghost use Rattle.ssda.specs.Perform.{performed, wrote_to, wrote_to_tells, pin_set, pin_tells, tells, reply_with, replied};

use crate::control::Target;
use crate::state::State;
use crate::step::Told;
use serial::event::{Cycle, Event, Pin, Refusal};
use serial::slip::Reply;

impl State {
    // An event: the reply, or a refusal that changes nothing.
    pub(crate) fn handle(&mut self, event: Event) -> Result<Reply, Refusal>
        ensures state { self.new ≡ stepped self.old event }
        ensures answer { result ≡ answered self.old event }
    {
        self.front.check(event)?;
        Ok(self.perform(event))
    }

    // Performs an event that is not declined.
    pub(crate) fn perform(&mut self, event: Event) -> Reply
        requires { checked_by self.old.front event ≡ Ok tt }
        ensures state { self.new ≡ performed self.old event }
        ensures reply { result ≡ replied self.old event }
    {
        let told = self.carry_out(event);
        self.reply(told)
    }

    // Does what the event does, and tells what it tells besides the signals after it.
    fn carry_out(&mut self, event: Event) -> Told
        requires { checked_by self.old.front event ≡ Ok tt }
        ensures state { self.new ≡ performed self.old event }
        ensures told { result ≡ tells self.old event }
    {
        match event {
            Event::Bus(Cycle::Idle) => self.idle(),
            Event::Bus(Cycle::Read { rs: 0 }) => self.read_status(),
            Event::Bus(Cycle::Read { .. }) => self.read_data(),
            Event::Bus(Cycle::Write { rs: 0, byte }) => self.write_c1(byte),
            Event::Bus(Cycle::Write { byte, .. }) => self.write_target(byte),
            Event::ReceivedBit(bit) => self.receive_bit(bit == 1),
            Event::TransmitClock => self.clock(),
            Event::PinLevel { pin, level } => match Pin::try_from(pin) {
                Ok(pin) => self.set_pin(pin, level == 1),
                Err(_) => unreachable!(),
            },
        }
    }

    // A write with RS 1 goes by the address control bits.
    fn write_target(&mut self, byte: u8) -> Told
        requires { written_room self.old.front ≡ Ok tt }
        ensures state { self.new ≡ wrote_to self.old byte }
        ensures told { result ≡ wrote_to_tells self.old byte }
    {
        match self.front.control.target {
            Target::C2 => {
                self.front.write_c2(byte);
                Told::quiet()
            }
            Target::C3 => self.write_c3(byte),
            Target::SyncCode => {
                self.front.write_code(byte);
                Told::quiet()
            }
            Target::TransmitData => self.write_data(byte),
        }
    }

    // A pin gets a level; the present one changes nothing.
    fn set_pin(&mut self, pin: Pin, high: bool) -> Told
        ensures state { self.new ≡ pin_set self.old (pin_number pin) high }
        ensures told { result ≡ pin_tells self.old (pin_number pin) high }
    {
        let pins = self.front.pins;
        match pin {
            Pin::Reset if high != pins.reset => self.change_reset(high),
            Pin::Cts if high != pins.cts => self.change_cts(high),
            Pin::Dcd if high != pins.dcd => self.change_dcd(high),
            Pin::Reset | Pin::Cts | Pin::Dcd => Told::quiet(),
        }
    }

    // The reply, with the signals as they are now.
    fn reply(&self, told: Told) -> Reply
        ensures { result ≡ reply_with self.now told }
    {
        Reply {
            value: told.value,
            interrupt: self.interrupt(),
            sm_dtr: self.sm_dtr(),
            underflow: told.underflow,
            slip: told.slip,
        }
    }
}
