//! Comments that are addressed to the linter.
ghost use Rattle.std.specs.Prelude.{◌≡◌};
ghost use Rattle.yl_lexeme.specs.PlacedComments.{placed_comment_value};
ghost use Rattle.yl_rules.specs.Addressed as spec;

use yl_lexeme::PlacedComment;

/// Returns whether a comment begins with `# yamllint `, as each comment does that silences a rule.
pub fn is_addressed(comment: &PlacedComment<'_>) -> bool
    ensures { result ≡ spec.is_addressed (placed_comment_value comment.now) }
{
    comment.text.as_bytes().starts_with(b"# yamllint ")
}
