//! A near-data cache: the lines of a try, each with its bytes and the marks of those that the try stored.
#![tactic(auto)]

mod cache;
mod slots;

pub use cache::{Look, NdaCache, Stored};
