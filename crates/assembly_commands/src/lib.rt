//! The commands that turn assembly text into an image and back.
#![tactic(auto)]

mod assembling;
mod disassembling;
mod laws;

pub use assembling::asm;
pub use disassembling::dis;
pub use laws::image_text_comes_back;
