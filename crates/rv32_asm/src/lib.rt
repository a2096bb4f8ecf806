//! Assembly text as programs, in two passes: the labels, and then the words.
#![tactic(auto)]

mod assembling;
mod cutting;
mod fault;
mod image;
mod integer;
mod judging;
mod labels;
mod laws;
mod limits;
mod lines;
mod place;
mod reading;
mod statement;
mod survey;

pub use assembling::{Program, assemble};
pub use fault::AsmFault;
pub use image::plain;
pub use laws::{line_says_one_thing, plain_program_is_loaded, program_text_is_assembled};
