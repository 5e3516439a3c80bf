//! What the rule key-duplicates finds at a run of a document's events. No function here does
//! anything.
ghost use Rattle.yl_pieces.specs.DuplicatesOfRuns.{DuplicatesOfRuns};
ghost use Rattle.yl_tree.specs.declared.options.KeyDuplicatesOptions.{KeyDuplicatesOptions};

/// A law: what key-duplicates finds in a document is told run by run, by the collections that are
/// open before each. Of the keys from before a run it matters alone whether they have the names
/// that keys of the run ask for. Findings move with the lines of the events.
pub fn duplicates_of_runs()
    ensures { (o : KeyDuplicatesOptions) → DuplicatesOfRuns o }
{}
