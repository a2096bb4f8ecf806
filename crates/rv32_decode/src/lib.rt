//! RV32IM and the word atomics: 32-bit words as instructions, and back.
#![tactic(auto)]

mod decoding;
mod encoding;
mod fields;
mod instr;
mod tables;

pub use decoding::decode;
pub use encoding::encode;
pub use instr::{AmoOp, BranchOp, ImmOp, Instr, LoadOp, RegOp, StoreOp};
