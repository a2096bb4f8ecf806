//! Registers to go back to, as a value that is given back or let go exactly once.
#![tactic(auto)]

mod checkpoint;

pub use checkpoint::Checkpoint;
