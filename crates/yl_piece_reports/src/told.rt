//! Pieces, by what is told of their rows. No function here does anything.
ghost use Rattle.yl_piece_reports.specs.Told.{FaultlessSectionIsCut, PieceIsCut, SectionIsPiece};
ghost use Rattle.yl_piece_reports.specs.Within.{PiecesStandWithin};

/// A law: where another piece may begin in a piece, the two parts are pieces of it: what is told of
/// the rows before that border, and what is told of those after it by the state between. What the
/// rules on keys and anchors find goes with the lines in which it stands.
pub fn piece_is_cut()
    ensures { PieceIsCut }
{}

/// Laws: a section without a fault is a piece (`piece`), and is cut where another may begin (`cut`).
pub fn faultless_section_is_cut()
    ensures piece { SectionIsPiece }
    ensures cut { FaultlessSectionIsCut }
{}

/// Laws: what is kept of a piece stands in the piece's own lines, if so does what the rules on keys
/// and anchors find in it. It does in a section without a fault, and in both parts of a piece that
/// is cut.
pub fn pieces_stand_within()
    ensures { PiecesStandWithin }
{}
