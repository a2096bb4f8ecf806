// Laws over every backing, each proved as the contract of a function that does nothing.
ghost use Rattle.line_memory.specs.Laws.{FlushNotesOneBack};

/// A flush of a dirty line notes exactly one write-back, by the holder that has it modified.
pub fn a_flush_notes_one_back()
    ensures { FlushNotesOneBack }
{}
