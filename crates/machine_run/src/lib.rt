//! A machine runs a schedule over streams, whatever the machine is.
#![tactic(auto)]

mod ending;
mod filing;
mod lines;
mod machine;
mod new_sinks;
mod recording;
mod run;
mod schedule_run;
mod simulator;
mod task;

pub use ending::Ending;
pub use filing::run_files;
pub use machine::Machine;
pub use new_sinks::report_sinks;
pub use run::Run;
pub use schedule_run::run_schedule;
pub use simulator::Simulator;
pub use task::Task;
