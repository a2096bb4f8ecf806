//! The world of a chip, folded over the list of its events, and the laws of it.
#![tactic(auto)]

ghost use Rattle.chip_laws.specs.Balance.{AlwaysBalanced};
ghost use Rattle.chip_laws.specs.Bounded.{AlwaysBounded};
ghost use Rattle.chip_laws.specs.Facts.{AlwaysEntryFacts};
ghost use Rattle.chip_laws.specs.Flushes.{AlwaysWrittenBack};
ghost use Rattle.chip_laws.specs.Fresh.{Fresh};
ghost use Rattle.chip_laws.specs.Lawful.{AlwaysLawful};
ghost use Rattle.chip_laws.specs.Owners.{AlwaysOwners};
ghost use Rattle.chip_laws.specs.Places.{AlwaysEnds, AlwaysOpenings};
ghost use Rattle.chip_laws.specs.Rollbacks.{AlwaysRollbacks};
ghost use Rattle.chip_laws.specs.Runs.{AlwaysGrows, FlatIsRun};
ghost use Rattle.chip_laws.specs.Sound.{AlwaysSound};
ghost use Rattle.chip_laws.specs.Untouched.{AlwaysUntouched};

/// A try that doesn't conflict read lines as flat memory has them.
pub fn tries_are_fresh()
    ensures { Fresh }
{}

/// Each committed portion has its opening, and no byte that it loaded from outside was stored to
/// since.
pub fn portions_are_untouched()
    ensures { AlwaysUntouched }
{}

/// Rollbacks, acts, flushes and locks are bounded.
pub fn portions_are_bounded()
    ensures { AlwaysBounded }
{}

/// A line that a hart has in M or E is held by no other hart.
pub fn lines_have_one_owner()
    ensures { AlwaysOwners }
{}

/// What came into a cache left it or is there.
pub fn traffic_balances()
    ensures { AlwaysBalanced }
{}

/// A Lock writes back each dirty line once, and a Flush one line.
pub fn flushes_write_back()
    ensures { AlwaysWrittenBack }
{}

/// Lines that an entry doesn't change stay, tries that are open are told of those that it changes,
/// and cores stay.
pub fn entries_change_little()
    ensures { AlwaysEntryFacts }
{}

/// The open tries are those that the entries before opened and didn't end.
pub fn openings_have_places()
    ensures { AlwaysOpenings }
{}

/// Each commit and each rollback ends the try that was opened last, with as many acts as were made
/// since.
pub fn ends_have_openings()
    ensures { AlwaysEnds }
{}

/// A core with no open try has rollbacks counted exactly where its last try was rolled back.
pub fn rollbacks_are_counted()
    ensures { AlwaysRollbacks }
{}

/// What every list of events keeps: bounds, locks, cores that are Run, tags and copies.
pub fn worlds_are_sound()
    ensures { AlwaysSound }
{}

/// One event more is one entry more.
pub fn worlds_grow()
    ensures { AlwaysGrows }
{}

/// All of this at once, for the events of a run.
pub fn events_are_lawful()
    ensures { AlwaysLawful }
{}

/// Flat memory is one memory that executes the written order alone.
pub fn journals_run_flat()
    ensures { FlatIsRun }
{}
