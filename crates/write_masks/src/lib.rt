//! A line's bytes with a mask: the bytes that a try stored hide those that the line was filled with.
#![tactic(auto)]

mod masked;

pub use masked::Masked;
