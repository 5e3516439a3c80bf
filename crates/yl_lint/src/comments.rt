//! Moves the comments of the sections that are shown to their positions in the text.
ghost use Rattle.std.specs.Prelude.{◌≡◌, ◌++◌, ◌∷◌, [], map, IfOk, OnOk};
ghost use Rattle.yl_lexeme.specs.PlacedComments.{placed_comment_value};
ghost use Rattle.yl_lint.specs.TextReport.{moved_comment, comments_in_sections};

use crate::moving::line_below;
use std::alloc::{AllocError, Allocator};
use yl_lexeme::PlacedComment;
use yl_sections::{Kept, KeptComment};

/// Returns a comment of a section that begins at `line`, moved to its position in the text. Returns
/// `AllocError` if the number of its line does not fit in 32 bits.
fn moved_comment<A: Allocator>(
    line: u32,
    comment: &KeptComment<A>,
) -> Result<PlacedComment<'_>, AllocError>
    ensures { IfOk result (λ c. placed_comment_value c ≡ moved_comment line comment.now) }
{
    Ok(PlacedComment {
        line: line_below(line, comment.line())?,
        col: comment.col(),
        text: comment.text(),
        behind: comment.behind(),
    })
}

/// Appends the comments of a section that begins at `line`, moved to their positions in the text.
/// The only error is out of memory.
pub fn push_comments<'a, A: Allocator>(
    line: u32,
    from: &'a [KeptComment<A>],
    comments: &mut Vec<PlacedComment<'a>, A>,
) -> Result<(), AllocError>
    ensures { OnOk result (map placed_comment_value comments.new.items ≡ map placed_comment_value comments.old.items ++ map (moved_comment line) from.now) }
{
    for one in from {
        comments.push(moved_comment(line, one)?)?;
    }
    Ok(())
}

/// Returns the comments of these sections, at their positions in the text. The first section begins
/// at line 0. The only error is out of memory.
pub fn comments_in_sections<'a, A: Allocator + Copy>(
    alloc: A,
    kept: &[&'a Kept<A>],
) -> Result<Vec<PlacedComment<'a>, A>, AllocError>
    ensures { IfOk result (λ v. map placed_comment_value v.items ≡ comments_in_sections 0 (map (λ k. k.now) kept.now)) }
{
    let mut comments = Vec::new(alloc);
    let mut line = 0;
    for one in kept {
        push_comments(line, one.comments(), &mut comments)?;
        line = line_below(line, one.rows())?;
    }
    Ok(comments)
}
