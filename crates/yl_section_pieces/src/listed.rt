//! The pieces of all sections of a text in one list. No function here does anything.
ghost use Rattle.yl_section_pieces.specs.Sections.{SectionsAreFound, SectionsAreListed};

/// Laws of pieces in one list: sections one after another have each its own pieces, others may come
/// in place of some, and the summaries of all pieces are cut from those of the sections.
pub fn sections_are_listed()
    ensures { SectionsAreListed }
{}

/// Laws of where sections begin in the list: with a piece that has no state before it. So the
/// section of a piece is found there, and its rows, and another piece may come in place of it.
pub fn sections_are_found()
    ensures { SectionsAreFound }
{}
