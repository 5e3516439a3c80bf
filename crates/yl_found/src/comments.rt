//! The comments of some sections that may silence rules.
ghost use Rattle.std.specs.Prelude.{◌≡◌, ◌≤◌, ◌-◌, length, map, take, drop, IfOk};
ghost use Rattle.yl_lexeme.specs.PlacedComments.{placed_comment_value};
ghost use Rattle.yl_lint.specs.TextReport.{comments_in_sections};
ghost use Rattle.yl_summary.specs.Survey.{IsSurvey};

use crate::gathered::{Gathered, push_among};
use std::alloc::{AllocError, Allocator};
use yl_chunks::Spliced;
use yl_lexeme::PlacedComment;
use yl_sections::Kept;
use yl_summary::Survey;

/// Returns the comments of the sections with the indices `from..end`, counted from 0. The first of
/// these sections begins at line `row`. The only error is out of memory.
pub fn comments_among<'a, A: Allocator + Copy>(
    alloc: A,
    sections: &Spliced<'a, Kept<A>, A>,
    from: usize,
    end: usize,
    row: u32,
) -> Result<Vec<PlacedComment<'a>, A>, AllocError>
    requires { end ≤ length sections.now }
    ensures { IfOk result (λ v. map placed_comment_value v.items ≡ comments_in_sections row (take (end - from) (drop from sections.now))) }
{
    let mut comments = Vec::new(alloc);
    push_among(sections, from, end, row, &mut comments)?;
    Ok(comments)
}

/// Returns the comments of the first `count` sections. Skips the sections of an overview in which
/// no section may silence a rule. Does not allocate if no section of the text may silence a rule.
/// The only error is out of memory.
pub fn comments_upto<'a, A: Allocator + Copy>(
    alloc: A,
    survey: &Survey<'a, A>,
    count: usize,
) -> Result<Vec<PlacedComment<'a>, A>, AllocError>
    requires survey { IsSurvey survey.now }
    requires within { count ≤ length survey.now.sections }
    ensures { IfOk result (λ v. map placed_comment_value v.items ≡ comments_in_sections 0 (take count survey.now.sections)) }
{
    let mut gathered = Gathered::none(alloc);
    if survey.all.is_silent() {
        return Ok(gathered.comments);
    }
    let (above, below) = (survey.above, survey.below);
    for upper in above {
        gathered.go_on(&survey.sections, *upper, count)?;
    }
    gathered.go_on(&survey.sections, survey.near, count)?;
    for lower in below {
        gathered.go_on(&survey.sections, *lower, count)?;
    }
    Ok(gathered.comments)
}
