//! Comments that switch rules, and comments that silence one line.
ghost use Rattle.std.specs.Prelude.{◌≡◌, true, map};
ghost use Rattle.std.specs.List.{AllByRecursion, filter};
ghost use Rattle.yl_lexeme.specs.PlacedComments.{placed_comment_value};
ghost use Rattle.yl_edited_lines.specs.Switches.{SpeaksWithin};
ghost use Rattle.yl_edited_lines.specs.Switches as spec;

use std::alloc::Allocator;
use yl_lexeme::PlacedComment;
use yl_report::own_line;

/// Returns `true` if a comment may switch rules. A comment that starts with `# yamllint
/// disable-line` silences one line only.
fn may_switch(comment: &PlacedComment<'_>) -> bool
    ensures { result ≡ spec.may_switch (placed_comment_value comment.now) }
{
    !comment
        .text
        .as_bytes()
        .starts_with(b"# yamllint disable-line")
}

/// Returns `true` only if a comment may switch rules or silences one of the first `rows` lines.
fn speaks_within(comment: &PlacedComment<'_>, rows: u32) -> bool
    ensures { result ≡ true → SpeaksWithin rows (placed_comment_value comment.now) }
{
    may_switch(comment) || own_line(comment) < u64::from(rows)
}

/// Returns `true` only if each `disable-line` comment silences one of the first `rows` lines.
/// `false` implies nothing.
pub fn speak_within(comments: &[PlacedComment<'_>], rows: u32) -> bool
    ensures { result ≡ true → AllByRecursion (SpeaksWithin rows) (map placed_comment_value comments.now) }
{
    for comment in comments {
        if !speaks_within(comment, rows) {
            return false;
        }
    }
    true
}

/// Retains only the comments that may switch rules.
pub fn retain_switches<A: Allocator>(comments: &mut Vec<PlacedComment<'_>, A>)
    ensures { map placed_comment_value comments.new.items ≡ filter spec.may_switch (map placed_comment_value comments.old.items) }
{
    comments.retain(|comment| may_switch(comment));
}

/// Returns `true` only if two comments have the same text.
fn is_same_text(one: &PlacedComment<'_>, other: &PlacedComment<'_>) -> bool
    ensures { result ≡ true → (placed_comment_value one.now).text ≡ (placed_comment_value other.now).text }
{
    one.text == other.text
}

/// Returns `true` only if the two lists of comments have the same texts in the same order.
pub fn have_same_texts(one: &[PlacedComment<'_>], other: &[PlacedComment<'_>]) -> bool
    ensures { result ≡ true → map (λ c. c.text) (map placed_comment_value one.now) ≡ map (λ c. c.text) (map placed_comment_value other.now) }
{
    if one.len() != other.len() {
        return false;
    }
    for i in 0..one.len() {
        if !is_same_text(&one[i], &other[i]) {
            return false;
        }
    }
    true
}
