//! The EF6852 synchronous serial data adapter. `adapter` has its calls; the other modules are its parts, whose methods are not public.
#![tactic(auto)]

pub mod adapter;
pub mod control;
pub mod front;
pub mod perform;
pub mod receiver;
pub mod state;
pub mod status;
pub mod step;
pub mod transmitter;
