// What follows for the files of a host, and for what a command uses of it.
ghost use Rattle.streams.specs.Laws.{AreKept, FrontsAreHeld, WholeTextsAreHeld};
ghost use Rattle.streams.specs.Using.{Uses};

/// Where nothing is pending, the file of a role's sink holds the text so far.
pub fn whole_texts_are_held()
    ensures { WholeTextsAreHeld }
{}

/// After any calls the file of a role's sink holds a front of its text.
pub fn fronts_are_held()
    ensures { FrontsAreHeld }
{}

/// Steps that each keep to what a command uses keep to it together.
pub fn steps_keep_to_uses()
    ensures { (u : Uses) → AreKept u }
{}
