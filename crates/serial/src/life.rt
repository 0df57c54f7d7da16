//! A queue's life from its beginning: a list of moves carried out on a new queue, with all that it tells on the way.
ghost use Rattle.std.specs.Prelude.{◌≡◌, ◌+◌, ◌<◌};
ghost use Rattle.serial.specs.declared.life.Stopped.TheVariants.{NoMemory};
ghost use Rattle.serial.specs.Queue.{empty_queue};
ghost use Rattle.serial.specs.Moves.{acted, act_of, tells, tells_of, enters_one, EveryLife, OneLife};
ghost use Rattle.serial.specs.Lived.{Lives};

use crate::queue::{Numbers, Queue};
use std::alloc::{AllocFailed, Global};

/// What can happen to a queue. What enters gets the next number, from 1 on.
#[derive(Clone, Copy, Debug, PartialEq, Eq)]
pub enum Move {
    Enter,
    Rise,
    Take,
    Clear,
    Nothing,
}

/// How a thing leaves a queue.
#[derive(Clone, Copy, Debug, PartialEq, Eq)]
pub enum Way {
    Displaced,
    Taken,
    Emptied,
}

/// What a queue tells at one move: in which way things left, if any did, and their numbers.
/// Two fields, since the law of telling takes a code and the three numbers.
#[derive(Clone, Copy, Debug, Default, PartialEq, Eq)]
pub struct Told {
    pub way: Option<Way>,
    pub who: Numbers,
}

/// A whole life: what was told, move by move, and the numbers that stand at the end.
#[derive(Drop)]
pub struct Life {
    pub told: Vec<Told>,
    pub standing: Queue<u32>,
}

/// Why there is no life: more moves than there are numbers, or no memory for what is told.
#[derive(Clone, Copy, Debug, PartialEq, Eq)]
pub enum Stopped {
    TooMany,
    NoMemory,
}

// Written by hand, since a derived `From` has no contract.
impl<T: Drop> From<AllocFailed<T>> for Stopped {
    ghost from_gives = { λ _ r. r ≡ NoMemory };

    fn from(_: AllocFailed<T>) -> Stopped {
        Stopped::NoMemory
    }
}

/// Carries out a list of moves on a new queue.
pub fn live(heap: Global, moves: &[Move]) -> Result<Life, Stopped>
    ensures run { Lives moves.now result }
    ensures law { EveryLife }
    ensures pinned { OneLife }
{
    let mut queue = begin();
    if moves.len() > u32::MAX as usize {
        return Err(Stopped::TooMany);
    }
    let mut entered = 0;
    let mut told = Vec::new(heap);
    for step in moves {
        told.push(carry_out(&mut queue, *step, entered + 1))?;
        entered += enters_one(*step);
    }
    Ok(Life {
        told,
        standing: queue,
    })
}

// A new queue of numbers. Its promises bring the law to `live`.
fn begin() -> Queue<u32>
    ensures queue { result ≡ empty_queue }
    ensures law { EveryLife }
    ensures pinned { OneLife }
{
    Queue::new()
}

// 1 for a move by which something enters, else 0.
fn enters_one(step: Move) -> u32
    ensures { result ≡ enters_one step }
{
    u32::from(step == Move::Enter)
}

// Carries out one move; what enters gets the number `next`.
fn carry_out(queue: &mut Queue<u32>, step: Move, next: u32) -> Told
    ensures queue { queue.new ≡ acted queue.old (act_of step next) }
    ensures told { result ≡ tells_of queue.old (act_of step next) }
{
    match step {
        Move::Enter => tell(Way::Displaced, queue.enter(next).into()),
        Move::Take => tell(Way::Taken, queue.take().into()),
        Move::Clear => tell(Way::Emptied, queue.clear()),
        Move::Rise => {
            queue.rise();
            Told::default()
        }
        Move::Nothing => Told::default(),
    }
}

// What is told of those who left in one way, if anybody did.
fn tell(way: Way, who: Numbers) -> Told
    ensures { result ≡ tells way who }
{
    Told {
        way: (!who.is_empty()).then_some(way),
        who,
    }
}
