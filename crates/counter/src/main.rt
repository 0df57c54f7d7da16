//! Plays the story of one order at the paint counter, and tells the fate of each character.
#![tactic(auto)]

mod desk;
mod story;
mod words;

use desk::Desk;
use serial::queue::Place;
use story::{CLOSING, Step, one_order};
use words::{Closing, Played, Totals, Waiting};

fn main(rt: HostRuntime) -> anyhow::Result<()> {
    run(&rt)
}

fn run(rt: &HostRuntime) -> anyhow::Result<()> {
    let mut desk = Desk::new(rt.alloc());
    let mut closing = None;
    println!(rt;
        "The counter, event by event (a character is eight bits): an order comes over the line, and the valve closes on '{}'.",
        char::from(CLOSING)
    )?;
    for step in &one_order() {
        let reply = desk.play(*step)?;
        let standing = desk.standing();
        if let Step::Character(CLOSING) = *step {
            closing = standing.received.at(Place::One);
        }
        rt.println(Played {
            step: *step,
            reply,
            standing,
        })?;
    }
    print_end(rt, &desk, closing)
}

// Which characters still wait, the account, and what became of the closing character.
fn print_end(rt: &HostRuntime, desk: &Desk, closing: Option<u32>) -> anyhow::Result<()> {
    rt.println(Waiting(desk.standing()))?;
    rt.println(Totals(desk.account()?))?;
    if let Some(number) = closing {
        let fate = desk.fate(number);
        rt.println(Closing { number, fate })?;
    }
    Ok(())
}
