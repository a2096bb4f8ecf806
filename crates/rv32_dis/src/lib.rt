//! Instructions of RV32IM and the word atomics as assembly text.
#![tactic(auto)]

mod mnemonic;
mod naming;
mod text;

pub use mnemonic::Mnemonic;
pub use naming::{MNEMONICS, named};
pub use text::{Line, instr_text, word_text};
