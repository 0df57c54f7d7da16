//! The three-place queue of each direction: things enter at place 1 and leave at place 3.
ghost use Rattle.std.specs.Prelude.{◌≡◌, ℕ, [], ◌∷◌, is_some};
ghost use Rattle.std.specs.Option.{option_map, unwrap_or};
ghost use Rattle.serial.specs.declared.queue.Place.TheVariants.{One, Three};
ghost use Rattle.serial.specs.Queue.{standing_at, placed, empty_queue, entered, risen, lifted, output_taken, numbers_by, waiting, fields, fields_of, none_in, list_of, last_empty, LastEmpty, place_number, place_of};

use crate::case::Case;

/// What a queue can hold: things that carry a number.
pub trait Numbered {
    ghost number: { Self → ℕ };

    fn number(&self) -> u32
        ensures { result ≡ number self.now };
}

// A number carries itself.
impl Numbered for u32 {
    ghost number = { λ n. n };

    fn number(&self) -> u32 {
        *self
    }
}

/// Place 1 is the input and place 3 the output.
#[derive(Clone, Copy, Debug, PartialEq, Eq)]
pub enum Place {
    One = 1,
    Two = 2,
    Three = 3,
}

impl Case for Place {
    ghost number_of = { place_number };

    ghost case_of = { place_of };

    fn number(self) -> u8 {
        self as u8
    }
}

/// Up to three numbers, from the first field on, with zeros after them: the rules of a slip name the fields, and 0 is an unused one.
#[derive(Clone, Copy, Debug, Default, PartialEq, Eq)]
pub struct Numbers {
    pub first: u32,
    pub second: u32,
    pub third: u32,
}

// One number alone.
impl From<u32> for Numbers {
    ghost from_gives = { λ number r. r ≡ fields (number ∷ []) };

    fn from(number: u32) -> Numbers {
        Numbers {
            first: number,
            ..Numbers::default()
        }
    }
}

// One number alone, or none.
impl From<Option<u32>> for Numbers {
    ghost from_gives = { λ number r. r ≡ fields (list_of number) };

    fn from(number: Option<u32>) -> Numbers {
        number.map_or(Numbers::default(), Numbers::from)
    }
}

impl Numbers {
    /// The three fields in order.
    pub fn all(self) -> [u32; 3]
        ensures { result ≡ fields_of self }
    {
        [self.first, self.second, self.third]
    }

    /// Whether there is none: 0 in the first field.
    pub fn is_empty(self) -> bool
        ensures { result ≡ none_in self }
    {
        self.first == 0
    }
}

/// A queue: place 1 is the input and place 3 the output. Three fields and no array, since the laws name them.
#[derive(Clone, Copy, Debug, PartialEq, Eq)]
pub struct Queue<T> {
    one: Option<T>,
    two: Option<T>,
    three: Option<T>,
}

impl<T: Numbered + Copy> Queue<T> {
    /// An empty queue. A derived `Default` would require one of the things in it.
    pub fn new() -> Queue<T>
        ensures { result ≡ empty_queue }
    {
        Queue {
            one: None,
            two: None,
            three: None,
        }
    }

    /// Puts a thing into place 1, and answers what it displaces there. Nothing moves.
    pub fn enter(&mut self, thing: T) -> Option<T>
        ensures queue { self.new ≡ entered self.old thing }
        ensures displaced { result ≡ standing_at self.old One }
    {
        self.one.replace(thing)
    }

    /// All things move up to the last empty places, in order.
    pub fn rise(&mut self)
        ensures { self.new ≡ risen self.old }
    {
        self.lift(Place::Two);
        self.lift(Place::One);
    }

    /// Takes what stands in place 3, if anything does. Nothing moves up.
    pub fn take(&mut self) -> Option<T>
        ensures queue { self.new ≡ output_taken self.old }
        ensures taken { result ≡ standing_at self.old Three }
    {
        self.three.take()
    }

    /// Empties the queue, and answers the numbers of what was in it, oldest first.
    pub fn clear(&mut self) -> Numbers
        ensures queue { self.new ≡ empty_queue }
        ensures cleared { result ≡ fields (waiting T.number self.old) }
    {
        self.rise();
        let cleared = Numbers {
            first: number_of(self.three),
            second: number_of(self.two),
            third: number_of(self.one),
        };
        *self = Queue::new();
        cleared
    }

    /// The number in each place.
    pub fn numbers(&self) -> Queue<u32>
        ensures { result ≡ numbers_by T.number self.now }
    {
        Queue {
            one: number_in(self.one),
            two: number_in(self.two),
            three: number_in(self.three),
        }
    }

    /// Whether something stands in a place.
    pub fn is_full(&self, place: Place) -> bool
        ensures { result ≡ is_some (standing_at self.now place) }
    {
        self.at(place).is_some()
    }

    /// What stands in place 3, which stays there.
    pub fn output(&self) -> Option<T>
        ensures { result ≡ standing_at self.now Three }
    {
        self.at(Place::Three)
    }

    /// What stands in a place, which stays there.
    pub fn at(&self, place: Place) -> Option<T>
        ensures { result ≡ standing_at self.now place }
    {
        match place {
            Place::One => self.one,
            Place::Two => self.two,
            Place::Three => self.three,
        }
    }

    /// The empty place with the highest number; none where all are full.
    pub fn last_empty(&self) -> Option<Place>
        ensures place { result ≡ last_empty self.now }
        ensures law { LastEmpty self.now result }
    {
        if self.three.is_none() {
            Some(Place::Three)
        } else if self.two.is_none() {
            Some(Place::Two)
        } else if self.one.is_none() {
            Some(Place::One)
        } else {
            None
        }
    }

    // What stands in a place goes to the last empty place, if that lies ahead of it.
    fn lift(&mut self, from: Place)
        ensures { self.new ≡ lifted self.old from }
    {
        let thing = self.at(from);
        self.put(from, None);
        if let Some(to) = self.last_empty() {
            self.put(to, thing);
        }
    }

    fn put(&mut self, place: Place, thing: Option<T>)
        ensures { self.new ≡ placed self.old place thing }
    {
        match place {
            Place::One => self.one = thing,
            Place::Two => self.two = thing,
            Place::Three => self.three = thing,
        }
    }
}

// The number of what stands in a place, if anything does.
fn number_in<T: Numbered + Copy>(place: Option<T>) -> Option<u32>
    ensures { result ≡ option_map T.number place }
{
    place.map(|thing| thing.number())
}

// The same, with 0 for nothing.
fn number_of<T: Numbered + Copy>(place: Option<T>) -> u32
    ensures { result ≡ unwrap_or (option_map T.number place) 0 }
{
    number_in(place).unwrap_or(0)
}
