//! Tries of kernels, the causes that end them, and the law that a committed one is an atomic step.
#![tactic(auto)]

mod laws;
mod limits;

pub use laws::{
    portions_are_serial, tries_are_never_idle, tries_depend_on_reads, tries_end_after_an_act,
    tries_store_in_memory,
};
pub use limits::Limits;
