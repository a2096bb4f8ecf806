//! The parts of a machine without portions: harts, cores and memory under caches, with the notes of
//! traffic; events of harts, and acts of kernels.
#![tactic(auto)]

mod events;
mod loaded;
mod plain;
mod starts;

pub use plain::Plain;
