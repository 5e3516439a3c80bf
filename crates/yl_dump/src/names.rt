//! The names of kinds.
ghost use Rattle.std.specs.Prelude.{◌≡◌};
ghost use Rattle.yl_dump.specs.Names.{kind_name, scalar_name, value_opening};

use yl_lexeme::{Kind, Style};

/// Returns the name of the kind of a lexeme.
pub fn kind_name(kind: Kind) -> &'static str
    ensures { result.now ≡ kind_name kind }
{
    match kind {
        Kind::Directive => "Directive",
        Kind::DocStart => "DocStart",
        Kind::DocEnd => "DocEnd",
        Kind::Entry => "Entry",
        Kind::Key => "Key",
        Kind::Value => "Value",
        Kind::Comma => "Comma",
        Kind::SeqOpen => "SeqOpen",
        Kind::SeqClose => "SeqClose",
        Kind::MapOpen => "MapOpen",
        Kind::MapClose => "MapClose",
        Kind::Alias => "Alias",
        Kind::Anchor => "Anchor",
        Kind::Tag => "Tag",
        Kind::Scalar(style) => scalar_name(style),
    }
}

// Returns the name of the kind of a scalar.
fn scalar_name(style: Style) -> &'static str
    ensures { result.now ≡ scalar_name style }
{
    match style {
        Style::Plain => "Scalar(Plain)",
        Style::Single => "Scalar(Single)",
        Style::Double => "Scalar(Double)",
        Style::Literal => "Scalar(Literal)",
        Style::Folded => "Scalar(Folded)",
    }
}

/// Returns the text before the value of a scalar in an event: a space, the sign of its style, and a
/// quote.
pub fn value_opening(style: Style) -> &'static str
    ensures { result.now ≡ value_opening style }
{
    match style {
        Style::Plain => " :\"",
        Style::Single => " '\"",
        Style::Double => " \"\"",
        Style::Literal => " |\"",
        Style::Folded => " >\"",
    }
}
