// That a replay can succeed, at the worked history of docs/LAW.md, and at events that are declined.
use crate::replay;
use serial::event::{Cycle, Event, Refusal};
use serial::queue::Place;
use serial::slip::{ReceiveCode, Reply};
use std::test::Fail;

// Two characters come with no idle cycle between them, so the first one is lost.
const EVENTS: [Event; 26] = [
    Event::Bus(Cycle::Write { rs: 0, byte: 0x43 }),
    Event::Bus(Cycle::Write { rs: 1, byte: 0x01 }),
    Event::Bus(Cycle::Write { rs: 0, byte: 0x03 }),
    Event::Bus(Cycle::Write { rs: 1, byte: 0x1c }),
    Event::Bus(Cycle::Write { rs: 0, byte: 0x00 }),
    Event::ReceivedBit(1),
    Event::ReceivedBit(0),
    Event::ReceivedBit(0),
    Event::ReceivedBit(0),
    Event::ReceivedBit(0),
    Event::ReceivedBit(0),
    Event::ReceivedBit(0),
    Event::ReceivedBit(0),
    Event::ReceivedBit(0),
    Event::ReceivedBit(1),
    Event::ReceivedBit(0),
    Event::ReceivedBit(0),
    Event::ReceivedBit(0),
    Event::ReceivedBit(0),
    Event::ReceivedBit(0),
    Event::ReceivedBit(0),
    Event::Bus(Cycle::Read { rs: 0 }),
    Event::Bus(Cycle::Read { rs: 1 }),
    Event::Bus(Cycle::Read { rs: 0 }),
    Event::Bus(Cycle::Idle),
    Event::Bus(Cycle::Read { rs: 1 }),
];

// The value, the receive code and its first number that must come at an event.
fn wanted(event: usize) -> (u8, ReceiveCode, u32) {
    match event {
        20 => (0x00, ReceiveCode::Lost, 1),
        21 => (0x22, ReceiveCode::Nothing, 0),
        23 => (0x02, ReceiveCode::Nothing, 0),
        25 => (0x02, ReceiveCode::Delivered, 2),
        _ => (0x00, ReceiveCode::Nothing, 0),
    }
}

fn told(reply: Reply) -> (u8, ReceiveCode, u32) {
    (reply.value, reply.slip.receive, reply.slip.received.first)
}

#[test]
fn the_worked_history_goes_as_written(rt: HostRuntime) -> Result<(), Fail> {
    let run = replay(rt.alloc(), &EVENTS)?;
    assert_eq!(rt; run.answers.len(), 26);
    for (event, answer) in run.answers.iter().enumerate() {
        assert_eq!(rt;
            answer.ok().map(told),
            Some(wanted(event)),
            "at event {event}"
        );
    }
    for place in [Place::One, Place::Two, Place::Three] {
        assert!(rt; run.standing.received.at(place).is_none());
    }
    assert!(rt; run.standing.shifting.is_none());
    Ok(())
}

#[test]
fn declined_events_are_answered_in_their_place(rt: HostRuntime) -> Result<(), Fail> {
    let events = [
        Event::ReceivedBit(2),
        Event::TransmitClock,
        Event::PinLevel { pin: 3, level: 2 },
    ];
    let run = replay(rt.alloc(), &events)?;
    assert_eq!(rt; run.answers.len(), 3);
    assert_eq!(rt; run.answers[0].err(), Some(Refusal::NotABit));
    assert_eq!(rt; run.answers[1].err(), None);
    assert_eq!(rt; run.answers[2].err(), Some(Refusal::NoSuchPin));
    Ok(())
}
