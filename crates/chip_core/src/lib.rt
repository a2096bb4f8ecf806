//! The whole chip: harts under MESI caches, and near-data cores with their portions; one event at
//! a time.
#![tactic(auto)]

ghost use Rattle.chip_core.specs.Entries.{BacksAreEntries, CommitsAreEntries};
ghost use Rattle.chip_core.specs.Reports.{ReportsAreOfEvents};

mod chip;
mod cores;
mod event;
mod exchange;
mod harts;
mod loaded;
mod machine;
mod reporting;
mod stage;
mod turns;

pub use chip::Chip;
pub use event::Event;

/// The report of a chip is that of the events that it stands for.
pub fn reports_are_of_events()
    ensures { ReportsAreOfEvents }
{}

/// A commit leaves flat memory, tags, copies and notes as the entry Commit of a chip's world does.
pub fn commits_are_entries()
    ensures { CommitsAreEntries }
{}

/// A rollback leaves the core as the entry Back of a chip's world does.
pub fn backs_are_entries()
    ensures { BacksAreEntries }
{}
