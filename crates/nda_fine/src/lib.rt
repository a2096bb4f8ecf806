//! The fine-grained baseline: near-data cores are holders of the shared memory, as harts are, and run
//! without portions.
#![tactic(auto)]

mod fine;
mod machine;

pub use fine::{FineChip, FineEvent};
