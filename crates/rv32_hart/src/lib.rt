//! A hart's registers and its instructions, each as a plan and its effect.
#![tactic(auto)]

mod act;
mod arithmetic;
mod code;
mod regs;

pub use act::{Access, Planned, finish, plan};
pub use arithmetic::amo_result;
pub use code::Code;
pub use regs::{Regs, Trap};
