//! The keys of a run of a document's events. No function here does anything.
ghost use Rattle.yl_pieces.specs.KeysOfRuns.{KeysOfRuns};

/// A law: the keys of the open collections after a run of events are those that the run alone
/// gives, and in each collection that was open before the run and was never closed in it, the keys
/// that it had before. So a key of the run repeats an earlier one exactly if it repeats one of the
/// run, or one that its collection had before the run.
pub fn keys_of_runs()
    ensures { KeysOfRuns }
{}
