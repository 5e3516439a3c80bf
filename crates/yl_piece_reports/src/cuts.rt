//! Cuts of some sections among others. The function here does nothing.
ghost use Rattle.yl_piece_reports.specs.Laws.{CutsAreLocal};

/// A law: each section is cut by itself. Cuts of sections that stand one after another are cuts of
/// all of them, and the other way round; a section in place of another brings its own; and pieces
/// of pieces are pieces of the section.
pub fn cuts_are_local()
    ensures { CutsAreLocal }
{}
