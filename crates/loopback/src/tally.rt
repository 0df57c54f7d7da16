//! What comes of an order on the line, counted.
ghost use Rattle.std.specs.Prelude.{◌≡◌, ◌+◌, ◌*◌, ◌<◌, length};
ghost use Rattle.serial.specs.Words.{total_bits};
ghost use Rattle.loopback.specs.declared.tally.Fault.TheVariants.{NoMemory};
ghost use Rattle.loopback.specs.Exchange.{Within, with_word, sum_of, exchanged, Tabled};

use serial::word::Form;
use std::alloc::{AllocFailed, Global};
use thiserror::Error;

/// The longest order, in bytes.
pub const LIMIT: usize = 4096;

/// Why there is no tally or no table.
#[derive(Clone, Copy, Debug, PartialEq, Eq, Error)]
pub enum Fault {
    #[error("The order is longer than {LIMIT} bytes, so nothing was sent.")]
    TooLong,
    #[error("There is no memory for the table.")]
    NoMemory,
}

// Written by hand, since a derived `From` has no contract.
impl<T: Drop> From<AllocFailed<T>> for Fault {
    ghost from_gives = { λ _ r. r ≡ NoMemory };

    fn from(_: AllocFailed<T>) -> Fault {
        Fault::NoMemory
    }
}

/// Words sent, their bits, how many were read back as their data bits with clean parity, and how many were
/// marked when one bit of each was flipped.
#[derive(Clone, Copy, Debug, Default, PartialEq, Eq)]
pub struct Tally {
    pub words: u32,
    pub bits: u32,
    pub clean: u32,
    pub marked: u32,
}

impl Tally {
    /// Nothing counted yet.
    pub fn new() -> Tally
        ensures { result ≡ record { words = 0; bits = 0; clean = 0; marked = 0 } }
    {
        Tally::default()
    }

    fn add(&mut self, other: Tally)
        requires small { (Within self.old 32768) × (Within other 4096) }
        ensures { self.new ≡ sum_of self.old other }
    {
        self.words += other.words;
        self.bits += other.bits;
        self.clean += other.clean;
        self.marked += other.marked;
    }

    // One more byte over the line, read back, and read with the bit at `place` flipped.
    fn carry(&mut self, form: Form, byte: u8, place: u8)
        requires few { Within self.old 4096 }
        requires within { place < total_bits form }
        ensures { self.new ≡ with_word form self.old }
    {
        let (_, count) = form.pack(byte);
        self.words += 1;
        self.bits += u32::from(count);
        let (data, mark) = form.read_back(byte);
        if data == form.keep(byte) && !mark {
            self.clean += 1;
        }
        if let Some((_, true)) = form.read_flipped(byte, place) {
            self.marked += 1;
        }
    }
}

/// An order over the line in one form; in the word at index i the bit at place i mod T is flipped.
pub fn exchange(form: Form, order: &[u8]) -> Result<Tally, Fault>
    ensures { result ≡ exchanged form order.now }
{
    if order.len() > LIMIT {
        return Err(Fault::TooLong);
    }
    let total = usize::from(form.total_bits());
    let mut tally = Tally::new();
    for (i, byte) in order.iter().enumerate() {
        tally.carry(form, *byte, (i % total) as u8);
    }
    Ok(tally)
}

/// One line of the table: a form, and what came of the order in it.
#[derive(Clone, Copy, Debug, PartialEq, Eq)]
pub struct Row {
    pub form: Form,
    pub tally: Tally,
}

/// The table: a row for each form, in the order of their select bits, and the total.
#[derive(Drop)]
pub struct Table {
    pub rows: Vec<Row>,
    pub total: Tally,
}

/// An order over the line in each of the eight forms.
pub fn tabulate(heap: Global, order: &[u8]) -> Result<Table, Fault>
    ensures { Tabled (length order.now) result }
{
    let forms = Form::all();
    let mut rows = Vec::new(heap);
    let mut total = Tally::new();
    for form in &forms {
        let tally = exchange(*form, order)?;
        total.add(tally);
        rows.push(Row { form: *form, tally })?;
    }
    Ok(Table { rows, total })
}
