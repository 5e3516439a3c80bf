//! The starts of documents.
ghost use Rattle.yl_dump.specs.Cut.{TextsCutByTwo};

/// A law: the kinds of two successive lexemes of a text say whether a document starts between them.
pub fn texts_cut_by_two()
    ensures { TextsCutByTwo }
{}
