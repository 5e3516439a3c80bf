//! A law of the places of directives.
ghost use Rattle.yl_row.specs.Directives.{DirectivesStandInPlace};

/// A law: each directive of a text is its first lexeme, or the lexeme directly before it is the end
/// of a document or another directive.
pub fn directives_stand_in_place()
    ensures { DirectivesStandInPlace }
{}
