//! What the events of harts and kernels have in common, whatever the machine: the part that touches
//! no memory, and acts on memory under caches.
#![tactic(auto)]

mod accesses;
mod acts;
mod calls;
mod plans;

pub use acts::act;
pub use calls::{Launch, hart_call, kernel_call};
pub use plans::{Turn, hart_turn, kernel_turn};
