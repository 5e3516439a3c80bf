//! What the rule key-ordering finds at a run of a document's events. No function here does
//! anything.
ghost use Rattle.yl_pieces.specs.OrderingOfRuns.{OrderingOfRuns};

/// A law: what key-ordering finds in a document is told run by run, by the collections that are
/// open before each and the greatest key of each. Findings move with the lines of the events.
pub fn ordering_of_runs()
    ensures { OrderingOfRuns }
{}
