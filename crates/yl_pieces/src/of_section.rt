//! What the rows of a whole section report.
ghost use Rattle.yl_pieces.specs.Laws.{SectionIsTold};

/// A law: all that is kept of a section, but what the rules on keys and anchors find, is told of
/// its rows from the state at a document's start.
pub fn section_is_told()
    ensures { SectionIsTold }
{}
