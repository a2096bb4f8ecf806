//! Harts and near-data cores: how they stand, what their calls do, and their acts on flat memory.
#![tactic(auto)]

mod serve;
mod status;

pub use serve::{Kernel, Served, is_put, serve_core, serve_hart, waits};
pub use status::{Core, CoreStatus, Hart, HartStatus};
