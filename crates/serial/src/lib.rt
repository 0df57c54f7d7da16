//! What every serial part shares: the word forms of the line with worked examples; the three-place queue and its life; events,
//! refusals, slips and replies; enums whose cases have numbers; and the account.
#![tactic(auto)]

pub mod account;
pub mod case;
pub mod event;
pub mod example;
pub mod life;
pub mod queue;
pub mod slip;
pub mod word;
