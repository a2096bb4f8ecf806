//! The lines of an order, read back in whatever pieces it comes.
#![tactic(auto)]

mod fed;
mod reader;

pub use fed::{Fed, Last, NO_ENTRY};
pub use reader::OrderReader;

#[cfg(test)]
mod tests;
