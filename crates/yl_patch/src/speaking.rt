//! Decides whether comments say the same of all lines below their sections.
ghost use Rattle.std.specs.Prelude.{◌≡◌, ◌-◌, true, map, take, drop, IfOk};
ghost use Rattle.yl_lexeme.specs.PlacedComments.{placed_comment_value};
ghost use Rattle.yl_lint.specs.TextReport.{comments_in_sections};
ghost use Rattle.yl_summary.specs.Edit.{IsSectionEdit};
ghost use Rattle.yl_patch.specs.Speaking.{AllSpeakAlike, SpeakAlike};

use std::alloc::{AllocError, Allocator};
use yl_chunks::Spliced;
use yl_edited_lines::{have_same_texts, retain_switches, speak_within};
use yl_found::comments_among;
use yl_lexeme::PlacedComment;
use yl_summary::SectionEdit;

/// Returns the comments of the sections that the edit removes. Lines count from 0, from the first
/// line of these sections. The only error is out of memory.
fn comments_gone<'a, A: Allocator + Copy>(
    alloc: A,
    edit: &SectionEdit<'a, A>,
) -> Result<Vec<PlacedComment<'a>, A>, AllocError>
    requires { IsSectionEdit edit.now }
    ensures { IfOk result (λ v. map placed_comment_value v.items ≡ comments_in_sections 0 (take (edit.now.end - edit.now.from) (drop edit.now.from edit.now.sections.now.items))) }
{
    let before = Spliced::new(edit.sections, 0, 0, &[]);
    comments_among(alloc, &before, edit.from, edit.end, 0)
}

/// Returns the comments of the sections that the edit inserts. Lines count from 0, from the first
/// line of these sections. The only error is out of memory.
fn comments_come<'a, A: Allocator + Copy>(
    alloc: A,
    edit: &SectionEdit<'a, A>,
) -> Result<Vec<PlacedComment<'a>, A>, AllocError>
    requires { IsSectionEdit edit.now }
    ensures { IfOk result (λ v. map placed_comment_value v.items ≡ comments_in_sections 0 edit.now.kept.now) }
{
    let end = edit.from + edit.kept.len();
    comments_among(alloc, &edit.spliced(), edit.from, end, 0)
}

/// Returns `true` only if all comments of the removed sections and all comments of the inserted
/// ones say the same of all lines below them. The only error is out of memory.
fn all_speak_alike<A: Allocator + Copy>(
    alloc: A,
    edit: &SectionEdit<'_, A>,
) -> Result<bool, AllocError>
    requires { IsSectionEdit edit.now }
    ensures { IfOk result (λ alike. alike ≡ true → AllSpeakAlike (take (edit.now.end - edit.now.from) (drop edit.now.from edit.now.sections.now.items)) edit.now.kept.now) }
{
    let mut gone = comments_gone(alloc, edit)?;
    let mut here = comments_come(alloc, edit)?;
    if !speak_within(&gone, edit.gone.rows) || !speak_within(&here, edit.come.rows) {
        return Ok(false);
    }
    retain_switches(&mut gone);
    retain_switches(&mut here);
    Ok(have_same_texts(&gone, &here))
}

/// Returns `true` only if the shown comments of the removed sections and the shown comments of the
/// inserted ones say the same of all lines below them. If one of these sections has a fault,
/// returns `true` only if no comment of them may silence a rule. The only error is out of memory.
pub fn speak_alike<A: Allocator + Copy>(
    alloc: A,
    edit: &SectionEdit<'_, A>,
) -> Result<bool, AllocError>
    requires { IsSectionEdit edit.now }
    ensures { IfOk result (λ alike. alike ≡ true → SpeakAlike (take (edit.now.end - edit.now.from) (drop edit.now.from edit.now.sections.now.items)) edit.now.kept.now) }
{
    let comes_faulty = edit.come.has_fault();
    let was_faulty = edit.gone.has_fault();
    if comes_faulty || was_faulty {
        return Ok(edit.come.is_silent() && edit.gone.is_silent());
    }
    all_speak_alike(alloc, edit)
}
