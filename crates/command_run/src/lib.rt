//! A run over the files of a host: what `run`, `fine` and `coarse` do from where the schedule is
//! opened.
#![tactic(auto)]

mod calls;
mod driving;
mod names;
mod reporting;

pub use driving::carry_out;
pub use names::RunNames;
pub use reporting::write_report;
