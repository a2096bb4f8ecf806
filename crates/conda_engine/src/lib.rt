//! The commands, from their words to their files: one relation says what a command answers and
//! leaves, and each command is a row of it.
#![tactic(auto)]

mod command;
mod driving;
mod files;
mod generated;
mod laws;
mod prepared;

pub use assembly_commands::image_text_comes_back;
pub use command::conda;
pub use command_answers::{Status, status_text};
pub use driving::drive;
pub use generated::self_run;
pub use laws::{
    of_drive_answers, of_drive_files, of_every_command, of_run_answers, of_run_files,
    of_run_refusals,
};
pub use prepared::{Prepared, prepare};
