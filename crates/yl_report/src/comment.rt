//! Reads what a comment says about a rule.
ghost use Rattle.std.specs.Prelude.{◌≡◌, codes};
ghost use Rattle.yl_report.specs.Directive as spec;
ghost use Rattle.yl_lexeme.specs.PlacedComments.{placed_comment_value};

use crate::directive::{speaks, without_end};
use yl_lexeme::PlacedComment;
use yl_text::RuleId;

// Returns `true` if the comment consists of `words`, followed by nothing or by a list of rules that
// contains `rule`.
pub fn says(words: &[u8], rule: RuleId, comment: &PlacedComment<'_>) -> bool
    ensures { result ≡ spec.says words.now rule (placed_comment_value comment.now) }
{
    let text = without_end(comment.text.as_bytes());
    speaks(text, words, rule.name().as_bytes())
}

/// Returns `true` if the comment switches the rule off from its line on.
pub fn disables(rule: RuleId, comment: &PlacedComment<'_>) -> bool
    ensures { result ≡ spec.disables rule (placed_comment_value comment.now) }
{
    says(b"# yamllint disable", rule, comment)
}

/// Returns `true` if the comment switches the rule on from its line on.
pub fn enables(rule: RuleId, comment: &PlacedComment<'_>) -> bool
    ensures { result ≡ spec.says (codes "# yamllint enable") rule (placed_comment_value comment.now) }
{
    says(b"# yamllint enable", rule, comment)
}

/// Returns the line that a `disable-line` comment silences: its own line if it stands after a
/// lexeme, else the next line. Lines count from 0.
pub fn own_line(comment: &PlacedComment<'_>) -> u64
    ensures { result ≡ spec.own_line (placed_comment_value comment.now) }
{
    let line = u64::from(comment.line);
    if comment.behind.is_some() {
        line
    } else {
        line + 1
    }
}

/// Returns `true` if the first line of a text silences the whole file.
pub fn disables_file(first_row: &str) -> bool
    ensures { result ≡ spec.disables_file first_row.now }
{
    without_end(first_row.as_bytes()) == b"# yamllint disable-file".as_slice()
}
