//! The report of a run: the text that shows how harts, cores and memory stand.
#![tactic(auto)]

mod hex;
mod laws;
mod line;
mod report;
mod report_file;
mod shown;
mod target;

pub use laws::reports_have_flat_parts;
pub use report::{write, write_flat, write_report};
pub use shown::Shown;
pub use target::ReportTarget;

#[cfg(test)]
mod tests;
