//! The words of the command line: one table of options a command, and one reading for all of them.
#![tactic(auto)]

mod command;
mod number;
mod options;
mod table;

pub use command::{Command, Mode, ProgramFiles, RunFiles, command_of, run_files};
