//! What the adapter remembers for its Status, and the Status byte.
ghost use Rattle.std.specs.Prelude.{◌≡◌, ◌^◌, ◌<◌, ◌≤◌, if◌then◌else◌};
ghost use Rattle.ssda.specs.Status.{happened, status_read, data_read, new_flags, after_loss, after_status_read, after_data_read, after_dcd_rise, after_cts_rise, after_underflow, after_c3, after_receiver_reset, after_transmitter_reset, status_byte, asks, sm_dtr};

use crate::control::{Control, Setup, bit_of};

/// What happened and is stored until it is cleared; armed, it is cleared by the next data read.
#[derive(Clone, Copy, Debug, Default, PartialEq, Eq)]
pub struct Stored {
    pub(crate) set: bool,
    pub(crate) armed: bool,
}

/// What is stored: a loss, a rise of DCD, a rise of CTS, a sync fill for want of a byte.
#[derive(Clone, Copy, Debug, Default, PartialEq, Eq)]
pub struct Flags {
    pub(crate) overrun: Stored,
    pub(crate) dcd: Stored,
    pub(crate) cts: bool,
    pub(crate) underflow: bool,
}

/// What Status and the interrupt go by, besides the flags.
#[derive(Clone, Copy, Debug, PartialEq, Eq)]
pub struct Conditions {
    pub(crate) rda: bool,
    pub(crate) tdra: bool,
    pub(crate) dcd_high: bool,
    pub(crate) cts_high: bool,
    pub(crate) parity: bool,
}

impl Stored {
    // It happens: it is stored, and an arm that it had is dropped.
    fn happen(&mut self)
        ensures { self.new ≡ happened }
    {
        *self = Stored {
            set: true,
            armed: false,
        };
    }

    // A Status read arms it if it is stored.
    fn read_status(&mut self)
        ensures { self.new ≡ status_read self.old }
    {
        self.armed = self.armed || self.set;
    }

    // A data read clears it if it is armed, and drops the arm.
    fn read_data(&mut self)
        ensures { self.new ≡ data_read self.old }
    {
        self.set = self.set && !self.armed;
        self.armed = false;
    }
}

impl Flags {
    // As in a new adapter.
    pub(crate) fn new() -> Flags
        ensures { result ≡ new_flags }
    {
        Flags::default()
    }

    // A character is lost: overrun is set, and its arm is dropped.
    pub(crate) fn lose(&mut self)
        ensures { self.new ≡ after_loss self.old }
    {
        self.overrun.happen();
    }

    // A Status read arms overrun if it shows it, and DCD if that is stored.
    pub(crate) fn read_status(&mut self)
        ensures { self.new ≡ after_status_read self.old }
    {
        self.overrun.read_status();
        self.dcd.read_status();
    }

    // A data read clears what is armed, and drops both arms.
    pub(crate) fn read_data(&mut self)
        ensures { self.new ≡ after_data_read self.old }
    {
        self.overrun.read_data();
        self.dcd.read_data();
    }

    // DCD rises: it is stored, and its arm is dropped.
    pub(crate) fn raise_dcd(&mut self)
        ensures { self.new ≡ after_dcd_rise self.old }
    {
        self.dcd.happen();
    }

    // CTS rises: it is stored.
    pub(crate) fn raise_cts(&mut self)
        ensures { self.new ≡ after_cts_rise self.old }
    {
        self.cts = true;
    }

    // A sync fill was loaded for want of a byte.
    pub(crate) fn underflow(&mut self)
        ensures { self.new ≡ after_underflow self.old }
    {
        self.underflow = true;
    }

    // What a byte written to C3 clears: CTUF the underflow, Clear CTS the stored CTS.
    pub(crate) fn write_c3(&mut self, byte: u8)
        ensures { self.new ≡ after_c3 self.old byte }
    {
        self.underflow = self.underflow && !bit_of(byte, 3);
        self.cts = self.cts && !bit_of(byte, 2);
    }

    // A reset of the receiver clears overrun, the stored DCD and both arms.
    pub(crate) fn reset_receiver(&mut self)
        ensures { self.new ≡ after_receiver_reset self.old }
    {
        self.overrun = Stored::default();
        self.dcd = Stored::default();
    }

    // A reset of the transmitter clears the underflow and the stored CTS.
    pub(crate) fn reset_transmitter(&mut self)
        ensures { self.new ≡ after_transmitter_reset self.old }
    {
        self.underflow = false;
        self.cts = false;
    }
}

// Whether the adapter asks for an interrupt. Its one caller has the four parts at hand.
pub(crate) fn interrupt(
    control: Control,
    setup: Setup,
    flags: Flags,
    conditions: Conditions,
) -> bool
    ensures { result ≡ asks control setup flags conditions }
{
    let errors = flags.underflow
        || flags.overrun.set
        || conditions.parity
        || flags.cts
        || flags.dcd.set;
    (control.rie && conditions.rda) || (control.tie && conditions.tdra) || (setup.eie && errors)
}

// The Status byte.
pub(crate) fn status_byte(flags: Flags, conditions: Conditions, interrupt: bool) -> u8
    ensures { result ≡ status_byte flags conditions interrupt }
{
    bit_if(conditions.rda, 0)
        + bit_if(conditions.tdra, 1)
        + bit_if(flags.dcd.set || conditions.dcd_high, 2)
        + bit_if(flags.cts || conditions.cts_high, 3)
        + bit_if(flags.underflow, 4)
        + bit_if(flags.overrun.set, 5)
        + bit_if(conditions.parity, 6)
        + bit_if(interrupt, 7)
}

// A byte with only the bit at this place set if the flag is, else 0.
fn bit_if(flag: bool, place: u8) -> u8
    requires { place < 8 }
    ensures value { result ≡ (if flag then 2 ^ place else 0) }
    ensures bound { result ≤ 2 ^ place }
{
    u8::from(flag) << place
}

// The SM/DTR pin, by PC2 and PC1 and the sync match.
pub(crate) fn sm_dtr(setup: Setup, matched: bool) -> bool
    ensures { result ≡ sm_dtr setup matched }
{
    match (setup.pc2, setup.pc1) {
        (false, false) => true,
        (false, true) => matched,
        (true, _) => false,
    }
}
