//! Laws of rows after one another. No function here does anything.

ghost use Rattle.yl_pieces.specs.Laws.{FaultEndsRows, RowsAreJoined};

/// Laws: where a piece may begin after some rows without a fault, they and the rows after them
/// report what the former do, and then what the latter do by the state between (`joined`). Rows
/// after a fault report nothing (`ended`).
pub fn rows_are_joined()
    ensures joined { RowsAreJoined }
    ensures ended { FaultEndsRows }
{}
