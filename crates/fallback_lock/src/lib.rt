//! The fallback lock: how often each core rolled back in a row, and whose locked try holds all others.
#![tactic(auto)]

mod lock;

pub use lock::{Lock, Mode};
