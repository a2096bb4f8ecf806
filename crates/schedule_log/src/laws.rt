// Laws over whole schedules and orders, each proved as the contract of a function that does nothing.
ghost use Rattle.schedule_log.specs.Laws.{FindsItsChip, FineRunsAll, OneTextOneEntry, PiecesJoin, WholeIsFound};

/// A schedule says the same in whatever pieces it comes.
pub fn pieces_join()
    ensures joins { PiecesJoin }
    ensures whole { WholeIsFound }
{}

/// Every event of a schedule runs where no line is bad and no limit is passed.
pub fn fine_runs_all()
    ensures { FineRunsAll }
{}

/// A reader lets only actors of its chip through.
pub fn actors_are_on_chip()
    ensures { FindsItsChip }
{}

/// A line of an order is the text of one entry.
pub fn one_text_one_entry()
    ensures { OneTextOneEntry }
{}
