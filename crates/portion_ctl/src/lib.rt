//! A near-data core's portion: a kernel's acts on memory's own copies of lines, held back until
//! they are ruled on.
#![tactic(auto)]

mod accesses;
mod acts;
mod body;
mod exchange;
mod portion;
mod walks;

pub use portion::{
    Acted, Clash, Clear, Ended, Flushed, Flushing, Kept, Open, Ready, Undone, Verdict,
};
