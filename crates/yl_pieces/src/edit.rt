//! Where it stands what rows report, and rows in place of others. No function here does anything.
ghost use Rattle.yl_pieces.specs.Edit.{EditIsTold};
ghost use Rattle.yl_pieces.specs.Within.{ToldIsWithin};

/// A law: what is told of rows stands in them, whatever the state before them.
pub fn told_is_within()
    ensures { ToldIsWithin }
{}

/// A law: where rows of a section come in place of others, and the state after them is the same,
/// the rows before and after them report what they did, the latter so many lines further down. A
/// section without a fault has none then, and leaves the same state.
pub fn edit_is_told()
    ensures { EditIsTold }
{}
