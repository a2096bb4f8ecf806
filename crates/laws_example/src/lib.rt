//! Runs of the definitions of a chip, computed: each law is one worked example.
#![tactic(auto)]

ghost use Rattle.laws_example.specs.Atomics.{AStaleAtomic, AnAtomic};
ghost use Rattle.laws_example.specs.Locks.{ALateFlush, TheLock};
ghost use Rattle.laws_example.specs.SilentStores.{ASilentStore};
ghost use Rattle.laws_example.specs.TwoCores.{TwoCores};
ghost use Rattle.laws_example.specs.TwoHarts.{TwoHarts};

/// A commit of another core rolls a portion back.
pub fn two_cores()
    ensures { TwoCores }
{}

/// After two rollbacks a try is locked.
pub fn the_lock()
    ensures { TheLock }
{}

/// A flush comes late.
pub fn a_late_flush()
    ensures { ALateFlush }
{}

/// A store of the same value rolls a portion back.
pub fn a_silent_store()
    ensures { ASilentStore }
{}

/// An atomic in a portion commits.
pub fn an_atomic()
    ensures { AnAtomic }
{}

/// An atomic in a portion rolls back.
pub fn a_stale_atomic()
    ensures { AStaleAtomic }
{}

/// Two harts take a line from one another.
pub fn two_harts()
    ensures { TwoHarts }
{}
