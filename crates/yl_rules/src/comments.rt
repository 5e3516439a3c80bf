//! The rule comments.
ghost use Rattle.std.specs.Prelude.{◌≡◌, ◌+◌, ◌==◌, not, ◌<◌, ◌≤◌, ◌++◌, [], length, drop, true, Some, if◌then◌else◌, IfOk, OnOk, OnErr};
ghost use Rattle.std.specs.List.{flat_map, prefix_len};
ghost use Rattle.std.specs.Option.{option_to_list};
ghost use Rattle.std.specs.Str.{chars};
ghost use Rattle.yl_text.specs.Character.{is_non_space, starts_by};
ghost use Rattle.yl_rules.specs.Comments.{comment_findings, is_shebang, is_too_near, lacks_space, near_findings, starting_space_in};
ghost use Rattle.yl_lexeme.specs.PlacedComments.{placed_comment_value};

use crate::bytes::{count_front, past};
use crate::pushes::push_both;
use std::alloc::{AllocError, Allocator};
use yl_lexeme::PlacedComment;
use yl_text::{Finding, RuleId};

/// The options of the rule comments.
#[derive(Clone, Copy)]
pub struct CommentsOptions {
    /// Whether a space has to follow the `#` characters.
    pub require_starting_space: bool,
    /// Whether a comment such as `#!/bin/sh` at the start of a text needs no space.
    pub ignore_shebangs: bool,
    /// The minimum number of characters between a lexeme and a comment after it in its line. `None`
    /// sets no minimum.
    pub min_spaces_from_content: Option<u32>,
}

impl CommentsOptions {
    /// Returns the options of yamllint's default configuration.
    pub fn standard() -> CommentsOptions
        ensures { result ≡ record { require_starting_space = true; ignore_shebangs = true; min_spaces_from_content = Some 2 } }
    {
        CommentsOptions {
            require_starting_space: true,
            ignore_shebangs: true,
            min_spaces_from_content: Some(2),
        }
    }
}

/// Returns whether there is a first byte, and it is not a space.
fn starts_with_no_space(bytes: &[u8]) -> bool
    ensures { result ≡ starts_by (λ c. not (c == 32)) bytes.now }
{
    match bytes {
        [] => false,
        [first, ..] => *first != b' ',
    }
}

/// Returns whether what follows the `#` characters of a comment names an interpreter.
fn is_shebang(rest: &[u8]) -> bool
    ensures { result ≡ is_shebang rest.now }
{
    match rest {
        [b'!', second, ..] => *second != b' ' && *second != b'\t',
        _ => false,
    }
}

/// Returns whether `rest`, which follows the `#` characters of a comment, has to begin with a space
/// and does not. Lines and columns count from 0.
fn lacks_space(options: &CommentsOptions, line: u32, col: u32, rest: &[u8]) -> bool
    ensures { result ≡ lacks_space options.now line col rest.now }
{
    options.require_starting_space
        && starts_with_no_space(rest)
        && !(options.ignore_shebangs && line == 0 && col == 0 && is_shebang(rest))
}

/// Returns whether fewer than `least` characters are between the column `end` and the column `col`.
/// Returns `false` if there is no minimum or no end.
fn is_too_near(least: Option<u32>, end: Option<u32>, col: u32) -> bool
    ensures { result ≡ is_too_near least end col }
{
    match (least, end) {
        (Some(least), Some(end)) => col.saturating_sub(end) < least,
        _ => false,
    }
}

/// Returns the finding of a comment that is too near to the lexeme before it in its line, if it is.
fn nearness_problem<A: Allocator>(
    comment: &PlacedComment<'_>,
    options: &CommentsOptions,
) -> Option<Finding<A>>
    ensures { option_to_list result ≡ near_findings options.now (placed_comment_value comment.now) }
{
    if !is_too_near(options.min_spaces_from_content, comment.behind, comment.col) {
        return None;
    }
    let line = comment.line as u64 + 1;
    let column = comment.col as u64 + 1;
    Some(Finding::fixed(
        line,
        column,
        RuleId::Comments,
        "too few spaces before comment",
    ))
}

/// Returns the finding of a comment whose `#` characters no space follows, if one has to. Lines and
/// columns count from 0.
fn starting_space_problem<A: Allocator>(
    line: u32,
    col: u32,
    text: &str,
    options: &CommentsOptions,
) -> Option<Finding<A>>
    ensures { option_to_list result ≡ starting_space_in options.now line col (chars text.now) }
{
    let bytes = text.as_bytes();
    let hashes = count_front(bytes, b'#');
    if !lacks_space(options, line, col, past(bytes, hashes)) {
        return None;
    }
    let column = col as u64 + hashes as u64 + 1;
    Some(Finding::fixed(
        line as u64 + 1,
        column,
        RuleId::Comments,
        "missing starting space in comment",
    ))
}

/// Appends the findings of the rule comments in a comment. The only error is out of memory: then
/// nothing is appended.
pub fn push_comment_problems<A: Allocator>(
    comment: &PlacedComment<'_>,
    options: &CommentsOptions,
    found: &mut Vec<Finding<A>, A>,
) -> Result<(), AllocError>
    ensures ok { OnOk result (found.new.items ≡ found.old.items ++ comment_findings options.now (placed_comment_value comment.now)) }
    ensures err { OnErr result (found.new.items ≡ found.old.items) }
{
    let near = nearness_problem(comment, options);
    let bare = starting_space_problem(comment.line, comment.col, comment.text, options);
    push_both(found, near, bare)
}

/// Returns the findings of the rule comments in these comments. The only error is out of memory.
pub fn comment_problems<A: Allocator + Copy>(
    alloc: A,
    comments: &[PlacedComment<'_>],
    options: &CommentsOptions,
) -> Result<Vec<Finding<A>, A>, AllocError>
    ensures { IfOk result (λ v. v.items ≡ flat_map (λ c. comment_findings options.now (placed_comment_value c)) comments.now) }
{
    let mut found = Vec::new(alloc);
    for comment in comments {
        push_comment_problems(comment, options, &mut found)?;
    }
    Ok(found)
}
