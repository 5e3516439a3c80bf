//! Two runs of events that leave the same keys. No function here does anything.
ghost use Rattle.yl_piece_names.specs.SameNames.{SameNames};

/// A law: where a run of events comes in place of another, and both leave the same keys in the
/// collections that are open after them, the rules on keys find behind it what they found, moved.
pub fn same_names()
    ensures { SameNames }
{}
