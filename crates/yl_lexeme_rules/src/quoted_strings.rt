//! The rule `quoted-strings`.
ghost use Rattle.std.specs.Prelude.{◌≡◌, ◌++◌, ◌+◌, ◌<◌, ◌^◌, true, Some, OnOk};
ghost use Rattle.yl_lexeme_rules.specs.QuotedStrings.{is_misquoted, quoted_strings};

use crate::report::report;
use crate::span::Span;
use crate::strings::is_string;
use std::alloc::{AllocError, Allocator};
use yl_lexeme::{Kind, Style};
use yl_marks::KeyFacts;
use yl_text::{Finding, Pos, RuleId};

/// The quotes that a quoted string must have.
#[derive(Clone, Copy)]
pub enum QuoteType {
    /// Any quotes.
    Any,
    /// Single quotes.
    Single,
    /// Double quotes.
    Double,
}

impl QuoteType {
    ghost use Rattle.std.specs.Prelude.{◌≡◌};
    ghost use Rattle.yl_lexeme_rules.specs.QuotedStrings.{misquoted_text};

    /// Returns the message about a string that has other quotes, or none.
    fn text(self) -> &'static str
        ensures { result.now ≡ misquoted_text self }
    {
        match self {
            QuoteType::Any => "string value is not quoted with any quotes",
            QuoteType::Single => "string value is not quoted with single quotes",
            QuoteType::Double => "string value is not quoted with double quotes",
        }
    }
}

/// The options of the rule `quoted-strings`.
#[derive(Clone, Copy)]
pub struct QuotedStringsOptions {
    /// The quotes that a quoted string must have.
    pub quote_type: QuoteType,
    /// Whether a plain scalar that is a string is a problem.
    pub required: bool,
}

impl QuotedStringsOptions {
    /// Returns the options that yamllint takes if a configuration sets none: any quotes, and each
    /// string must be quoted.
    pub fn standard() -> QuotedStringsOptions
        ensures { result ≡ record { quote_type = QuoteType.Any; required = true } }
    {
        QuotedStringsOptions {
            quote_type: QuoteType::Any,
            required: true,
        }
    }
}

/// Returns whether a scalar of this style is quoted differently from what the options require.
fn is_misquoted_style(options: &QuotedStringsOptions, style: Style, value: &[u8]) -> bool
    ensures { result ≡ is_misquoted options.now.required options.now.quote_type (Kind.Scalar style) value.now }
{
    match style {
        Style::Plain => options.required && is_string(value),
        Style::Single => matches!(options.quote_type, QuoteType::Double),
        Style::Double => matches!(options.quote_type, QuoteType::Single),
        Style::Literal | Style::Folded => false,
    }
}

/// Returns whether a lexeme is a scalar that is quoted differently from what the options require.
fn is_misquoted(options: &QuotedStringsOptions, kind: Kind, value: &[u8]) -> bool
    ensures { result ≡ is_misquoted options.now.required options.now.quote_type kind value.now }
{
    match kind {
        Kind::Scalar(style) => is_misquoted_style(options, style, value),
        _ => false,
    }
}

fn push_quoted_strings_by<A: Allocator>(
    problems: &mut Vec<Finding<A>, A>,
    options: &QuotedStringsOptions,
    x: &Span,
    value: &str,
    key: KeyFacts,
) -> Result<(), AllocError>
    ensures { OnOk result (problems.new.items ≡ problems.old.items
        ++ quoted_strings (Some options.now) x.now value.now key) }
{
    if key.has_tag || key.is_key || !is_misquoted(options, x.kind, value.as_bytes()) {
        return Ok(());
    }
    let Pos { line, col } = x.start;
    let line = u64::from(line) + 1;
    let column = u64::from(col) + 1;
    report(
        problems,
        RuleId::QuotedStrings,
        line,
        column,
        options.quote_type.text(),
    )
}

/// Appends the problem that the rule finds at a lexeme with this value. Appends nothing if the rule
/// is off. The only error is out of memory.
pub(crate) fn push_quoted_strings<A: Allocator>(
    problems: &mut Vec<Finding<A>, A>,
    options: &Option<QuotedStringsOptions>,
    x: &Span,
    value: &str,
    key: KeyFacts,
) -> Result<(), AllocError>
    ensures { OnOk result (problems.new.items ≡ problems.old.items
        ++ quoted_strings options.now x.now value.now key) }
{
    match options {
        None => Ok(()),
        Some(options) => push_quoted_strings_by(problems, options, x, value, key),
    }
}
