//! The eight word forms: how a byte goes over the line as bits, and how bits are read as a byte.
ghost use Rattle.std.specs.Prelude.{◌≡◌, ◌+◌, ◌%◌, ◌^◌, ◌<◌, ◌==◌, cond, false, [], ◌∷◌, ◌++◌};
ghost use Rattle.serial.specs.Numbers.{Inverse, numbered};
ghost use Rattle.serial.specs.Words.{select_of, forms, form_of, data_bits, parity_of, total_bits, word_of, handed, value_of, ones_in, bits_of, marks, kept_of, read_of, same_bits, matches, sync_fill, mark_fill, flipped, read_flipped, OneWord, ReadsWords, ReadsBack, OneFlipMarks};

use std::fmt;

/// Six, seven or eight data bits, bare or followed by a parity bit. Each form's number is that of its word select bits.
#[derive(Clone, Copy, Debug, PartialEq, Eq)]
pub enum Form {
    SixEven = 0b000,
    SixOdd = 0b001,
    Seven = 0b010,
    Eight = 0b011,
    SevenEven = 0b100,
    SevenOdd = 0b101,
    EightEven = 0b110,
    EightOdd = 0b111,
}

/// What follows the data bits: nothing, or the bit that makes the count of ones even or odd.
#[derive(Clone, Copy, Debug, PartialEq, Eq)]
pub enum Parity {
    Bare,
    Even,
    Odd,
}

impl Form {
    /// The eight forms, in the order of their select bits.
    pub fn all() -> [Form; 8]
        ensures { result ≡ forms }
    {
        [
            Form::SixEven,
            Form::SixOdd,
            Form::Seven,
            Form::Eight,
            Form::SevenEven,
            Form::SevenOdd,
            Form::EightEven,
            Form::EightOdd,
        ]
    }

    /// The form that the word select bits WS3 WS2 WS1 choose; none above 7.
    pub fn from_select(select: u8) -> Option<Form>
        ensures form { result ≡ form_of select }
        ensures inverse { Inverse select_of form_of }
    {
        selected(&Form::all(), select)
    }

    /// The word select bits that choose this form.
    pub fn select(self) -> u8
        ensures { result ≡ select_of self }
    {
        self as u8
    }

    /// How many data bits a word has.
    pub fn data_bits(self) -> u8
        ensures { result ≡ data_bits self }
    {
        match self {
            Form::SixEven | Form::SixOdd => 6,
            Form::Seven | Form::SevenEven | Form::SevenOdd => 7,
            Form::Eight | Form::EightEven | Form::EightOdd => 8,
        }
    }

    /// What follows the data bits of a word.
    pub fn parity(self) -> Parity
        ensures { result ≡ parity_of self }
    {
        match self {
            Form::Seven | Form::Eight => Parity::Bare,
            Form::SixEven | Form::SevenEven | Form::EightEven => Parity::Even,
            Form::SixOdd | Form::SevenOdd | Form::EightOdd => Parity::Odd,
        }
    }

    /// How many bits a word has with its parity.
    pub fn total_bits(self) -> u8
        ensures { result ≡ total_bits self }
    {
        match self.parity() {
            Parity::Bare => self.data_bits(),
            Parity::Even | Parity::Odd => self.data_bits() + 1,
        }
    }

    /// The word of a byte: its bits as a number, the first one on the line lowest, and how many there are. By the rules packing answers this pair.
    pub fn pack(self, byte: u8) -> (u16, u8)
        ensures { result ≡ handed (word_of self byte) }
    {
        let data = self.data_of(u16::from(byte));
        match self.parity() {
            Parity::Bare => (data.lowest(), data.count),
            Parity::Even => (data.append(data.is_odd()), data.count + 1),
            Parity::Odd => (data.append(!data.is_odd()), data.count + 1),
        }
    }

    /// What the form takes of a byte: its data bits, with zeros above them.
    pub fn keep(self, byte: u8) -> u8
        ensures { result ≡ kept_of self byte }
    {
        self.data_of(u16::from(byte)).lowest() as u8
    }

    /// A word read: its data bits, with zeros above them, and its parity mark. Bits past the word's last don't matter.
    pub fn unpack(self, word: u16) -> (u8, bool)
        ensures { result ≡ read_of self (bits_of (total_bits self) word) }
    {
        let data = self.data_of(word).lowest() as u8;
        (data, self.parity().marks(self.word_in(word)))
    }

    /// Whether a word matches the sync code: its oldest bits, at most eight, are the code's lowest.
    pub fn matches(self, word: u16, code: u8) -> bool
        ensures { result ≡ matches self code (bits_of (total_bits self) word) }
    {
        same_lowest(word, u16::from(code), self.total_bits().min(8))
    }

    /// What goes out for want of a byte, if sync fill is chosen: the sync code.
    pub fn sync_fill(self, code: u8) -> (u16, u8)
        ensures { result ≡ handed (sync_fill self code) }
    {
        let total = self.total_bits();
        if total == 9 {
            self.pack(code)
        } else {
            (self.word_in(u16::from(code)).lowest(), total)
        }
    }

    /// What goes out for want of a byte otherwise: ones.
    pub fn mark_fill(self) -> (u16, u8)
        ensures { result ≡ handed (mark_fill self) }
    {
        let total = self.total_bits();
        ((1 << total) - 1, total)
    }

    /// A byte sent and read back: its data bits, with clean parity.
    pub fn read_back(self, byte: u8) -> (u8, bool)
        ensures value { result ≡ (kept_of self byte, false) }
        ensures one_word { OneWord }
        ensures reads_words { ReadsWords }
        ensures reads_back { ReadsBack }
    {
        self.unpack(self.send(byte))
    }

    /// A byte sent and read back with one bit flipped on the line; none where the word has no bit at that place.
    pub fn read_flipped(self, byte: u8, place: u8) -> Option<(u8, bool)>
        ensures value { result ≡ read_flipped self byte place }
        ensures one_flip_marks { OneFlipMarks }
    {
        if place >= self.total_bits() {
            return None;
        }
        Some(self.unpack(self.send_flipped(byte, place)))
    }

    // The data bits of a word.
    fn data_of(self, word: u16) -> Bits
        ensures value { result.value ≡ word }
        ensures count { result.count ≡ data_bits self }
    {
        Bits {
            value: word,
            count: self.data_bits(),
        }
    }

    // All bits of a word.
    fn word_in(self, word: u16) -> Bits
        ensures value { result.value ≡ word }
        ensures count { result.count ≡ total_bits self }
    {
        Bits {
            value: word,
            count: self.total_bits(),
        }
    }

    // What a byte puts on the line. Its promises bring the laws of words to the calls above.
    fn send(self, byte: u8) -> u16
        ensures word { bits_of (total_bits self) result ≡ word_of self byte }
        ensures one_word { OneWord }
        ensures reads_words { ReadsWords }
        ensures reads_back { ReadsBack }
    {
        let (word, _) = self.pack(byte);
        word
    }

    // What a byte puts on the line if the bit at one place is flipped there.
    fn send_flipped(self, byte: u8, place: u8) -> u16
        requires { place < total_bits self }
        ensures word { bits_of (total_bits self) result ≡ flipped place (word_of self byte) }
        ensures one_flip_marks { OneFlipMarks }
    {
        self.send(byte) ^ (1 << place)
    }
}

impl fmt::Display for Parity {
    ghost use Rattle.std.specs.Prelude.{Some};
    ghost use Rattle.std.specs.Fmt.{padded};
    ghost use Rattle.serial.specs.Words.{parity_name};

    ghost output = { λ parity. Some (parity_name parity) };

    ghost styled_output = { λ parity spec. Some (padded spec (parity_name parity)) };

    fn fmt<W: fmt::Write>(&self, f: &mut fmt::Formatter<W>) -> fmt::Result {
        f.pad(match self {
            Parity::Bare => "bare",
            Parity::Even => "even",
            Parity::Odd => "odd",
        })
    }
}

impl Parity {
    // Whether a word gets the parity mark.
    fn marks(self, word: Bits) -> bool
        ensures { result ≡ marks self (ones_in (bits_of word.count word.value)) }
    {
        match self {
            Parity::Bare => false,
            Parity::Even => word.is_odd(),
            Parity::Odd => !word.is_odd(),
        }
    }
}

// The `count` lowest bits of a number, the first one on the line lowest.
#[derive(Clone, Copy)]
struct Bits {
    value: u16,
    count: u8,
    ghost few: { count < 16 },
}

impl Bits {
    // Their number, with zeros above them.
    fn lowest(self) -> u16
        ensures value { result ≡ value_of (bits_of self.count self.value) }
        ensures rest { result ≡ self.value % 2 ^ self.count }
    {
        self.value % (1 << self.count)
    }

    // Whether the count of ones among them is odd.
    fn is_odd(self) -> bool
        ensures { result ≡ (ones_in (bits_of self.count self.value) % 2 == 1) }
    {
        self.lowest().count_ones() % 2 == 1
    }

    // The number of these bits and one more above them.
    fn append(self, bit: bool) -> u16
        requires { self.count < 15 }
        ensures { result ≡ value_of (bits_of self.count self.value ++ cond bit 1 0 ∷ []) }
    {
        self.lowest() | u16::from(bit) << self.count
    }
}

// The first of some forms that has these select bits.
fn selected(forms: &[Form], select: u8) -> Option<Form>
    ensures { result ≡ numbered select_of forms.now select }
{
    forms.iter().copied().find(|form| form.select() == select)
}

// Whether two words have the same `count` lowest bits.
fn same_lowest(a: u16, b: u16, count: u8) -> bool
    requires { count < 16 }
    ensures { result ≡ same_bits (bits_of count a) (bits_of count b) }
{
    Bits { value: a, count }.lowest() == Bits { value: b, count }.lowest()
}
