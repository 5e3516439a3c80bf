//! What is kept of two runs of events to compare them. No function here does anything.
ghost use Rattle.yl_piece_names.specs.KeptNames.{NamesOfRuns};
ghost use Rattle.yl_piece_names.specs.OpeningEvents.{GoalsOpen};

/// A law: where the same is kept of two runs that begin where the same collections are open, they
/// leave the same keys and ask for the same names.
pub fn names_of_runs()
    ensures { NamesOfRuns }
{}

/// A law: what goals of a parser say one by one of the open collections is what they say together.
pub fn goals_open()
    ensures { GoalsOpen }
{}
