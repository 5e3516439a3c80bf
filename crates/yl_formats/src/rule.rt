//! Prints the rule of a problem.
ghost use Rattle.std.specs.Prelude.{◌≡◌, ◌++◌};
ghost use Rattle.yl_formats.specs.Formats.{rule_between, syntax_mark};

use yl_report::is_syntax;
use yl_text::RuleId;

/// Returns the text after the message of a problem of this rule. It is empty unless the rule is
/// `Syntax`.
pub(crate) fn mark_of(rule: RuleId) -> &'static [u8]
    ensures { result.now ≡ syntax_mark rule }
{
    if is_syntax(rule) { b" (syntax)" } else { b"" }
}

/// The name of a rule, with the texts before and after it.
#[derive(Clone, Copy)]
pub(crate) struct NameParts {
    /// The text before the name.
    pub(crate) before: &'static [u8],
    /// The name of the rule.
    pub(crate) name: &'static [u8],
    /// The text after the name.
    pub(crate) after: &'static [u8],
}

/// Returns the name of a rule between two texts. All three are empty if the rule is `Syntax`.
pub(crate) fn name_between(before: &'static [u8], rule: RuleId, after: &'static [u8]) -> NameParts
    ensures { result.before.now ++ (result.name.now ++ result.after.now) ≡ rule_between before.now rule after.now }
{
    if is_syntax(rule) {
        NameParts {
            before: b"",
            name: b"",
            after: b"",
        }
    } else {
        NameParts {
            before,
            name: rule.name().as_bytes(),
            after,
        }
    }
}
