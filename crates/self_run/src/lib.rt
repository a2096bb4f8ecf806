//! Generated workloads are run: each event's actor is drawn when it is run.
#![tactic(auto)]

mod generated;
mod loading;
mod running;

pub use running::run_workload;
