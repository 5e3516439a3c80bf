//! A section of a text, of which rows are edited. No function here does anything.
ghost use Rattle.yl_pieces.specs.SectionEdited.{SectionIsEdited, SectionIsReplaced};

/// A law: where rows of a section come in place of others, and it is one section still, the
/// sections of the text are those that they were, but for this one, which has the new rows.
pub fn section_is_replaced()
    ensures { SectionIsReplaced }
{}

/// A law: the same holds where a piece of a section without a fault is edited, and the state after
/// the piece is the same. Nothing need be known of the rows above and below the section.
pub fn section_is_edited()
    ensures { SectionIsEdited }
{}
