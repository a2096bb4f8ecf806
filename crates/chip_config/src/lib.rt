//! The configuration of a chip, read from JSON.
#![tactic(auto)]

mod config;
mod fault;
mod keys;
mod reading;

pub use config::Config;
pub use fault::ConfigFault;
pub use reading::read;
