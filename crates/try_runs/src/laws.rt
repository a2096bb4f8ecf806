// The laws of tries. Each is a function that does nothing; its contract is the law.
ghost use Rattle.try_runs.specs.Laws.{
  DependsOnReads,
  EndsAfterAnAct,
  IsNeverIdle,
  StoresInMemory,
};
ghost use Rattle.try_runs.specs.Serial.{Serial};

/// A portion that read lines as memory has them is one atomic step of flat memory.
pub fn portions_are_serial()
    ensures { Serial }
{}

/// What a try comes to depends on the fills of no line but those that it reads.
pub fn tries_depend_on_reads()
    ensures { DependsOnReads }
{}

/// A try stores to no address outside memory.
pub fn tries_store_in_memory()
    ensures { StoresInMemory }
{}

/// A try's core runs, or is done, or has trapped.
pub fn tries_are_never_idle()
    ensures { IsNeverIdle }
{}

/// A try that ends has made an act.
pub fn tries_end_after_an_act()
    ensures { EndsAfterAnAct }
{}
