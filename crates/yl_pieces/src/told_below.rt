//! Laws of the same rows further down. No function here does anything.
ghost use Rattle.yl_pieces.specs.Laws.{RowsAreToldBelow};
ghost use Rattle.yl_pieces.specs.StartBelow.{StartIsToldBelow};

/// A law: the same rows so many lines further down report the same, so many lines below, and leave
/// the same state after them. They begin below line 0, in which the latest lexeme above them
/// stands.
pub fn rows_are_told_below()
    ensures { RowsAreToldBelow }
{}

/// A law: the same holds of the rows at a document's start below any line, line 0 too, since no
/// lexeme stands above them.
pub fn start_is_told_below()
    ensures { StartIsToldBelow }
{}
