//! A document's anchors and aliases are those of its lexemes. No function here calls anything.
ghost use Rattle.yl_pieces.specs.References.{AliasesHaveNoAnchors, AnchorsAreLexemes, ReferencesAreLexemes};

/// A law: where symbols give a document's events, the anchors and aliases of these are the lexemes of those kinds among the symbols, in
/// order. Lexemes go by their index in the document.
pub fn references_are_lexemes()
    ensures { ReferencesAreLexemes }
{}

/// A law: the anchors and aliases of a document's events, with names and places, are its lexemes of those kinds, in order. No event is both.
pub fn anchors_are_lexemes()
    ensures lexemes { AnchorsAreLexemes }
    ensures apart { AliasesHaveNoAnchors }
{}
