//! Whole histories of one new adapter: a list of events replayed, and the law that its answers obey.
#![tactic(auto)]

ghost use Rattle.std.specs.Prelude.{◌≡◌, Ok};
ghost use Rattle.ssda.specs.State.{new_state};
ghost use Rattle.ssda.specs.Stepped.{stepped, answered};
ghost use Rattle.history.specs.Law.{AllSettled, Pinned};
ghost use Rattle.history.specs.Answering.{WritesByte, Replays, AnswersAll, EveryHistoryLawful, InterruptShown, LinesTied};

use serial::event::{Event, Refusal};
use serial::slip::{Reply, Standing};
use ssda::adapter::Adapter;
use std::alloc::{AllocError, Global};

/// What a replay comes to: the answer to each event, in order, and who waits or is being shifted at the end.
#[derive(Drop)]
pub struct Replayed {
    pub answers: Vec<Result<Reply, Refusal>>,
    pub standing: Standing,
}

/// Hands a list of events to one new adapter. Whatever the events, the law holds of the answers.
pub fn replay(heap: Global, events: &[Event]) -> Result<Replayed, AllocError>
    ensures run { Replays events.now result }
    ensures law { EveryHistoryLawful }
{
    let mut adapter = begin();
    let answers = answer_all(heap, &mut adapter, events)?;
    Ok(conclude(events, &adapter, answers))
}

// The answers of a new adapter to all events, one by one.
fn answer_all(
    heap: Global,
    adapter: &mut Adapter,
    events: &[Event],
) -> Result<Vec<Result<Reply, Refusal>>, AllocError>
    requires new { adapter.old ≡ new_state }
    ensures answers { AnswersAll events.now result adapter.new }
{
    let mut answers = Vec::new(heap);
    for event in events {
        answers.push(hand(adapter, *event))?;
    }
    Ok(answers)
}

// One event handed to the adapter. What the event writes, if anything, is a byte.
fn hand(adapter: &mut Adapter, event: Event) -> Result<Reply, Refusal>
    ensures state { adapter.new ≡ stepped adapter.old event }
    ensures answer { result ≡ answered adapter.old event }
    ensures byte { WritesByte event }
{
    adapter.event(event)
}

// The answers to all events, with the question put at the end.
fn conclude(events: &[Event], adapter: &Adapter, answers: Vec<Result<Reply, Refusal>>) -> Replayed
    requires answered { AnswersAll events.now (Ok answers) adapter.now }
    ensures run { Replays events.now (Ok result) }
{
    Replayed {
        answers,
        standing: adapter.question(),
    }
}

// A new adapter. Its promises bring the law to `replay`.
fn begin() -> Adapter
    ensures adapter { result ≡ new_state }
    ensures law { EveryHistoryLawful }
{
    Adapter::new()
}

/// Does nothing: its contract states what holds whatever is run:
/// - the rules settle every fate, whatever an adapter answers;
/// - the law leaves no choice: the history fixes what each answer tells;
/// - the interrupt in a reply is bit 7 of a Status read made next;
/// - the adapter's receiver and transmitter go by the rules of framing and sending, at every moment of every history whose writes are bytes.
pub fn theorems()
    ensures settled { AllSettled }
    ensures pinned { Pinned }
    ensures shown { InterruptShown }
    ensures tied { LinesTied }
{}

// What the four calls below answer, each of which states one of these theorems: the number means nothing.
const NOTHING: u8 = 0;

/// The rules settle every fate, whatever an adapter answers.
pub fn fates_settled() -> u8
    ensures settled { AllSettled }
    ensures value { result ≡ 0 }
{
    theorems();
    NOTHING
}

/// The law leaves no choice: the history fixes what each answer tells.
pub fn law_pins() -> u8
    ensures pinned { Pinned }
    ensures value { result ≡ 0 }
{
    theorems();
    NOTHING
}

/// The interrupt in a reply is bit 7 of a Status read made next.
pub fn interrupt_shown() -> u8
    ensures shown { InterruptShown }
    ensures value { result ≡ 0 }
{
    theorems();
    NOTHING
}

/// The adapter's receiver and transmitter go by the rules of framing and sending, at every moment of every history whose writes are bytes.
pub fn lines_tied() -> u8
    ensures tied { LinesTied }
    ensures value { result ≡ 0 }
{
    theorems();
    NOTHING
}

#[cfg(test)]
mod tests;
