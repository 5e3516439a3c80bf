//! What is found in pieces. The function here does nothing.
ghost use Rattle.yl_piece_reports.specs.Plain.{PiecesArePlain};

/// A law: what is found in pieces is found by rules by which it is found in the sections. So pieces
/// are plain, as sections are, where all that is kept of each stands in the piece's own lines.
pub fn pieces_are_plain()
    ensures { PiecesArePlain }
{}
