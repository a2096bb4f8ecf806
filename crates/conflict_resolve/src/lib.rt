//! The end of a try that was ruled on: what it stored goes into memory, or it is taken back.
#![tactic(auto)]

ghost use Rattle.conflict_resolve.specs.InRange.{StoresInRange};

mod merging;
mod undoing;

pub use merging::commit;
pub use undoing::back;

/// A portion stores to lines of its memory alone.
pub fn portions_store_in_range()
    ensures { StoresInRange }
{}
