//! The receiver: it finds the sync code in the received bits and frames characters. It has no queue in it.
ghost use Rattle.std.specs.Prelude.{◌≡◌, ◌+◌, ◌<◌, ◌≤◌, not};
ghost use Rattle.std.specs.Bool.{beq};
ghost use Rattle.serial.specs.Words.{bits_of, total_bits};
ghost use Rattle.ssda.specs.declared.front.TheConstants.{NUMBER_LIMIT};
ghost use Rattle.ssda.specs.Receiver.{character_number, character_of, new_receiver, turn_of, bit_value, slid, followed, heard, framed_by, restarted, settled};

use crate::control::Setup;
use serial::queue::Numbered;
use serial::word::Form;
use std::marker::Model;

/// What the receiver is doing: it searches for the sync code; it has seen one and expects a second; or it is in sync.
#[derive(Clone, Copy, Debug, PartialEq, Eq)]
pub enum Phase {
    Search,
    Second,
    InSync,
}

/// What happens to the receiver: a bit, which ends a character or not, or a restart.
#[derive(Clone, Copy, Debug, PartialEq, Eq)]
pub enum LineEvent {
    Bit { ends: bool },
    Restart { external: bool },
}

/// What follows from it: the phase, the bits counted toward a character, whether the sync match shows, and whether a
/// character is framed.
#[derive(Clone, Copy, Debug, PartialEq, Eq)]
pub struct Turn {
    phase: Phase,
    count: u8,
    matched: bool,
    framed: bool,
}

/// A framed character: its number, its data bits and its parity mark.
#[derive(Clone, Copy, Debug, PartialEq, Eq)]
pub struct Character {
    pub(crate) number: u32,
    pub(crate) byte: u8,
    pub(crate) mark: bool,
}

impl Numbered for Character {
    ghost number = { character_number };

    fn number(&self) -> u32 {
        self.number
    }
}

/// The window has the last nine bits, the oldest lowest. At most eight bits are counted toward a character.
#[derive(Clone, Copy, Debug, PartialEq, Eq)]
pub struct Receiver {
    phase: Phase,
    count: u8,
    window: u16,
    matched: bool,
    framed: u32,
}

impl Model for Receiver {
    ghost use Rattle.std.specs.Prelude.{◌≤◌};
    ghost use Rattle.ssda.specs.Reception.{Reception};

    ghost Value = { Reception };

    ghost view = { λ r. record { phase = r.phase; count = r.count; window = r.window; matched = r.matched; framed = r.framed } };

    ghost invariant = { λ r. r.count ≤ 8 };

    ghost inverse = { λ r. record { phase = r.phase; count = r.count; window = r.window; matched = r.matched; framed = r.framed } };
}

// Nine ones, as in a new window.
const ALL_ONES: u16 = 511;

/// How the receiver is set: whether it is off, and whether its sync is external.
#[derive(Clone, Copy, Debug, PartialEq, Eq)]
pub struct Mode {
    pub(crate) off: bool,
    pub(crate) external: bool,
}

impl Character {
    // The character that these bits are in this form.
    pub(crate) fn from_word(number: u32, form: Form, word: u16) -> Character
        ensures { result ≡ character_of number form (bits_of (total_bits form) word) }
    {
        let (byte, mark) = form.unpack(word);
        Character { number, byte, mark }
    }
}

impl Receiver {
    // As in a new adapter.
    pub(crate) fn new() -> Receiver
        ensures { result ≡ new_receiver }
    {
        Receiver {
            phase: Phase::Search,
            count: 0,
            window: ALL_ONES,
            matched: false,
            framed: 0,
        }
    }

    // How many characters are framed.
    pub(crate) fn framed(&self) -> u32
        ensures { result ≡ self.now.framed }
    {
        self.framed
    }

    // Whether the sync match shows.
    pub(crate) fn matched(&self) -> bool
        ensures { result ≡ self.now.matched }
    {
        self.matched
    }

    // How many bits are counted toward a character: at most eight.
    pub(crate) fn counted(&self) -> u8
        ensures count { result ≡ self.now.count }
        ensures few { result ≤ 8 }
    {
        self.count
    }

    // A received bit while the receiver is on, and the character that it frames, if it frames one.
    pub(crate) fn hear(&mut self, bit: bool, setup: &Setup, code: u8) -> Option<Character>
        requires room { self.old.framed < NUMBER_LIMIT }
        ensures receiver { self.new ≡ heard self.old (bit_value bit) setup.now.form code setup.now.one_sync }
        ensures character { result ≡ framed_by self.old (bit_value bit) setup.now.form code setup.now.one_sync }
    {
        self.slide(bit);
        let form = setup.form;
        let total = form.total_bits();
        let word = self.window >> (9 - total);
        let ends = self.count + 1 >= total;
        let matches = form.matches(word, code);
        let turn = self.decide(LineEvent::Bit { ends }, matches, setup.one_sync);
        self.follow(turn);
        if !turn.framed {
            return None;
        }
        self.framed += 1;
        Some(Character::from_word(self.framed, form, word))
    }

    // What a new setting means for the receiver: off, the match no longer shows; when it stops being off, and when external
    // changes while it is on, it restarts.
    pub(crate) fn settle(&mut self, before: Mode, after: Mode)
        ensures { self.new ≡ settled self.old before.off after.off (not (beq after.external before.external)) after.external }
    {
        if after.off {
            self.matched = false;
        } else if before.off || after.external != before.external {
            self.restart(after.external);
        }
    }

    // The window gets ones, the count 0, and the phase is in sync if external, else search.
    fn restart(&mut self, external: bool)
        ensures { self.new ≡ restarted self.old external }
    {
        self.window = ALL_ONES;
        let turn = self.decide(LineEvent::Restart { external }, false, false);
        self.follow(turn);
    }

    // The newest bit enters the window, and the oldest leaves it.
    fn slide(&mut self, bit: bool)
        ensures { self.new ≡ slid self.old (bit_value bit) }
    {
        self.window = self.window / 2 + u16::from(bit) * 256;
    }

    // The receiver goes on with the phase, the count and the match of a turn.
    fn follow(&mut self, turn: Turn)
        requires { turn.count ≤ 8 }
        ensures { self.new ≡ followed self.old turn }
    {
        self.phase = turn.phase;
        self.count = turn.count;
        self.matched = turn.matched;
    }

    // The phase, what happens and the match together decide.
    fn decide(&self, event: LineEvent, matches: bool, one_sync: bool) -> Turn
        ensures { result ≡ turn_of self.now.phase event matches one_sync self.now.count }
    {
        use LineEvent::{Bit, Restart};
        use Phase::{InSync, Search, Second};
        let count = self.count;
        match (self.phase, event, matches) {
            (_, Restart { external: true }, _) => to(InSync, 0, false, false),
            (_, Restart { external: false }, _) => to(Search, 0, false, false),
            (Search, Bit { .. }, false) => to(Search, count, false, false),
            (Search, Bit { .. }, true) if one_sync => to(InSync, 0, true, false),
            (Search, Bit { .. }, true) => to(Second, 0, true, false),
            (Second, Bit { ends: false }, _) => to(Second, count + 1, false, false),
            (Second, Bit { ends: true }, false) => to(Search, 0, false, false),
            (Second, Bit { ends: true }, true) => to(InSync, 0, true, false),
            (InSync, Bit { ends: false }, _) => to(InSync, count + 1, false, false),
            (InSync, Bit { ends: true }, _) => to(InSync, 0, matches, true),
        }
    }
}

// A turn to this phase, with so many bits counted.
fn to(phase: Phase, count: u8, matched: bool, framed: bool) -> Turn
    ensures { result ≡ record { phase = phase; count = count; matched = matched; framed = framed } }
{
    Turn {
        phase,
        count,
        matched,
        framed,
    }
}
