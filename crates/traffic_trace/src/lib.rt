//! Traffic of lines: a total for each kind of note, and the last notes.
#![tactic(auto)]

mod note;
mod traffic;

pub use note::{Kind, Note};
pub use traffic::Traffic;
