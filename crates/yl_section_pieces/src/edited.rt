//! An edit within one piece of a section. No function here does anything.
ghost use Rattle.yl_section_pieces.specs.Edit.{PieceIsEdited};

/// A law: where rows come in place of those of a piece, the state after them is the same, and so are
/// the names that other pieces ask for, the section is kept in the same pieces, but for this one, of
/// which is kept what is told of the new rows alone.
pub fn piece_is_edited()
    ensures { PieceIsEdited }
{}
