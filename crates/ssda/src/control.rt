//! The control registers: what each write leaves in them.
ghost use Rattle.std.specs.Prelude.{◌≡◌, ◌<◌};
ghost use Rattle.ssda.specs.Control.{bit_of, target_of, form_at, new_control, control_from, new_setup, from_c2, from_c3, control_under_reset, setup_under_reset};

use serial::word::Form;

/// Where a write with RS 1 goes, by the address control bits AC2 AC1.
#[derive(Clone, Copy, Debug, PartialEq, Eq)]
pub enum Target {
    C2,
    C3,
    SyncCode,
    TransmitData,
}

/// Control register 1.
#[derive(Clone, Copy, Debug, PartialEq, Eq)]
pub struct Control {
    pub(crate) target: Target,
    pub(crate) rie: bool,
    pub(crate) tie: bool,
    pub(crate) clear_sync: bool,
    pub(crate) strip_sync: bool,
    pub(crate) tx_reset: bool,
    pub(crate) rx_reset: bool,
}

/// What control registers 2 and 3 keep.
#[derive(Clone, Copy, Debug, PartialEq, Eq)]
pub struct Setup {
    pub(crate) eie: bool,
    pub(crate) tx_sync: bool,
    pub(crate) form: Form,
    pub(crate) one_byte: bool,
    pub(crate) pc2: bool,
    pub(crate) pc1: bool,
    pub(crate) one_sync: bool,
    pub(crate) external: bool,
}

impl Control {
    // As in a new adapter: both resets set, all else 0.
    pub(crate) fn new() -> Control
        ensures { result ≡ new_control }
    {
        Control {
            target: Target::C2,
            rie: false,
            tie: false,
            clear_sync: false,
            strip_sync: false,
            tx_reset: true,
            rx_reset: true,
        }
    }

    // What a byte written to C1 leaves there. While RESET is low both resets stay set.
    pub(crate) fn from_byte(byte: u8, reset_high: bool) -> Control
        ensures { result ≡ control_from reset_high byte }
    {
        Control {
            target: target_of(byte),
            rie: bit_of(byte, 5),
            tie: bit_of(byte, 4),
            clear_sync: bit_of(byte, 3),
            strip_sync: bit_of(byte, 2),
            tx_reset: bit_of(byte, 1) || !reset_high,
            rx_reset: bit_of(byte, 0) || !reset_high,
        }
    }

    // RESET falls: both resets are set.
    pub(crate) fn fall_under_reset(&mut self)
        ensures { self.new ≡ control_under_reset self.old }
    {
        self.tx_reset = true;
        self.rx_reset = true;
    }
}

impl Setup {
    // As in a new adapter: all 0. The form with select bits 000 is no natural default, so `Default` is not derived.
    pub(crate) fn new() -> Setup
        ensures { result ≡ new_setup }
    {
        Setup {
            eie: false,
            tx_sync: false,
            form: Form::SixEven,
            one_byte: false,
            pc2: false,
            pc1: false,
            one_sync: false,
            external: false,
        }
    }

    // A byte written to C2. While RESET is low EIE, PC2 and PC1 stay 0.
    pub(crate) fn write_c2(&mut self, byte: u8, reset_high: bool)
        ensures { self.new ≡ from_c2 self.old reset_high byte }
    {
        self.eie = bit_of(byte, 7) && reset_high;
        self.tx_sync = bit_of(byte, 6);
        self.form = form_at(byte);
        self.one_byte = bit_of(byte, 2);
        self.pc2 = bit_of(byte, 1) && reset_high;
        self.pc1 = bit_of(byte, 0) && reset_high;
    }

    // A byte written to C3; only what it keeps. While RESET is low external stays 0.
    pub(crate) fn write_c3(&mut self, byte: u8, reset_high: bool)
        ensures { self.new ≡ from_c3 self.old reset_high byte }
    {
        self.one_sync = bit_of(byte, 1);
        self.external = bit_of(byte, 0) && reset_high;
    }

    // RESET falls: EIE, PC2, PC1 and external are cleared.
    pub(crate) fn fall_under_reset(&mut self)
        ensures { self.new ≡ setup_under_reset self.old }
    {
        self.eie = false;
        self.pc2 = false;
        self.pc1 = false;
        self.external = false;
    }
}

// Whether a bit of a byte is set.
pub(crate) fn bit_of(byte: u8, place: u8) -> bool
    requires { place < 8 }
    ensures { result ≡ bit_of place byte }
{
    (byte >> place) % 2 == 1
}

// The two upper bits of C1.
fn target_of(byte: u8) -> Target
    ensures { result ≡ target_of byte }
{
    match (bit_of(byte, 7), bit_of(byte, 6)) {
        (false, false) => Target::C2,
        (false, true) => Target::C3,
        (true, false) => Target::SyncCode,
        (true, true) => Target::TransmitData,
    }
}

// The word select bits of C2.
fn form_at(byte: u8) -> Form
    ensures { result ≡ form_at byte }
{
    Form::from_select((byte >> 3) % 8).unwrap_or(Form::SixEven)
}
