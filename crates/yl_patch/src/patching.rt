//! What an edit makes of the problems that are found in a text.
ghost use Rattle.std.specs.Prelude.{◌≡◌, ◌&&◌, true, false, is_none, take, IfOk, MatchOption};
ghost use Rattle.std.specs.List.{AllByRecursion, splice};
ghost use Rattle.yl_config.specs.Config.{levels_of};
ghost use Rattle.yl_report.specs.Heard.{nothing_silenced};
ghost use Rattle.yl_report.specs.Report.{report_of};
ghost use Rattle.yl_problem_lists.specs.Changes.{parts_in, patch_in, patched};
ghost use Rattle.yl_problem_lists.specs.Parts.{parted, with_fault, without_fault};
ghost use Rattle.yl_problem_lists.specs.Rooms.{IsReadyFor};
ghost use Rattle.yl_problem_lists.specs.Showing.{is_shown_by};
ghost use Rattle.yl_sections.specs.Kept.{rows_kept};
ghost use Rattle.yl_summary.specs.Edit.{IsSectionEdit};
ghost use Rattle.yl_summary.specs.Survey.{IsSurvey};
ghost use Rattle.yl_edited_lines.specs.Edit.{IsTextEdit};
ghost use Rattle.yl_found.specs.Faultless.{faultless};
ghost use Rattle.yl_found.specs.Found.{all_parts, is_shown};
ghost use Rattle.yl_found.specs.Plain.{IsPlain};
ghost use Rattle.yl_found.specs.ShownUpto.{is_shown_upto};
ghost use Rattle.yl_patch.specs.Cut.{IsApart};

use crate::below::stays_shown;
use crate::indentation::indentation_below;
use crate::seen::{SeenEdit, see_edit};
use std::alloc::AllocError;
use yl_config::Config;
use yl_edited_lines::TextEdit;
use yl_found::{fault_of, showing_of};
use yl_problem_lists::{FoundProblems, LinesPatch, Showing};
use yl_report::{Silences, arrange};
use yl_summary::{SectionEdit, Survey};
use yl_text::{Finding, LineStore, Lines};

/// Splits the findings in some lines into those that are shown and those that are suppressed, by
/// the comments of the first `upto` sections. The only error is out of memory.
fn part_found<L: Lines>(
    alloc: L::Alloc,
    config: &Config,
    lines: &L,
    survey: &Survey<'_, L::Alloc>,
    upto: usize,
    found: Vec<Finding<L::Alloc>, L::Alloc>,
) -> Result<FoundProblems<L::Alloc>, AllocError>
    requires { IsSurvey survey.now }
    ensures { IfOk result (λ f. parts_in f ≡ parted (is_shown_upto upto (L.rows lines.now) survey.now.sections) (report_of (levels_of config.now) false nothing_silenced found.items)) }
{
    let showing = showing_of(alloc, lines, survey, upto)?;
    let there = arrange(alloc, found, config.levels(), &Silences::none(alloc))?;
    FoundProblems::part(alloc, &showing, there)
}

/// Returns `true` if it is known which problems below are shown: `stays` says that they are the
/// same as before, and no indentation is judged again.
fn is_known_below<T>(stays: bool, anew: &Option<T>) -> bool
    ensures { result ≡ (stays && is_none anew.now) }
{
    stays && anew.is_none()
}

/// Returns what decides which problems are shown, or `None` if `is_known` is set. The only error is
/// out of memory.
fn showing_unless<L: Lines>(
    alloc: L::Alloc,
    is_known: bool,
    lines: &L,
    survey: &Survey<'_, L::Alloc>,
) -> Result<Option<Showing<L::Alloc>>, AllocError>
    requires { IsSurvey survey.now }
    ensures { IfOk result (λ o. MatchOption o (is_known ≡ true) (λ s. is_shown_by s ≡ is_shown (L.rows lines.now) survey.now.sections)) }
{
    if is_known {
        return Ok(None);
    }
    let showing = showing_of(alloc, lines, survey, survey.sections.len())?;
    Ok(Some(showing))
}

/// Returns what an edit makes of the problems that are found in a text. The sections must be plain
/// before and after the edit, their faults aside, and the lines of the edit must be in the touched
/// sections. If the indentation below is judged otherwise after the edit, it is found again from
/// the facts in the summaries. The only error is out of memory.
pub fn patched_problems<S: LineStore>(
    alloc: S::Alloc,
    config: &Config,
    text: &TextEdit<'_, S>,
    edit: &SectionEdit<'_, S::Alloc>,
) -> Result<LinesPatch<S::Alloc>, AllocError>
    requires text { IsTextEdit (S.rows text.now.store.now) text.now.a text.now.b text.now.rows.now }
    requires edit { IsSectionEdit edit.now }
    requires apart { IsApart (S.rows text.now.store.now) text.now.rows.now text.now.a text.now.b (rows_kept (take edit.now.from edit.now.sections.now.items)) (rows_kept (take edit.now.end edit.now.sections.now.items)) (rows_kept edit.now.kept.now) }
    requires plain { AllByRecursion IsPlain (faultless edit.now.sections.now.items) }
    requires plain_then { AllByRecursion IsPlain (faultless (splice edit.now.sections.now.items edit.now.from edit.now.end edit.now.kept.now)) }
    ensures ready { IfOk result (λ p. IsReadyFor p (all_parts config.now (S.rows text.now.store.now) edit.now.sections.now.items)) }
    ensures parts { IfOk result (λ p. with_fault p.fault (patched (patch_in p) (without_fault (all_parts config.now (S.rows text.now.store.now) edit.now.sections.now.items)))
        ≡ all_parts config.now (splice (S.rows text.now.store.now) text.now.a text.now.b text.now.rows.now) (splice edit.now.sections.now.items edit.now.from edit.now.end edit.now.kept.now)) }
{
    let seen = see_edit(alloc, config, text, edit)?;
    let SeenEdit { touched, found } = seen;
    let before = edit.before();
    let edited = text.edited();
    let survey = edit.survey();
    let upto = edit.from + edit.kept.len();
    let parts = part_found(alloc, config, &edited, &survey, upto, found)?;
    let indentation = indentation_below(alloc, config, edit, touched.old_end)?;
    let stays = stays_shown(alloc, text.store, &edited, edit)?;
    let is_known = is_known_below(stays, &indentation);
    let below = showing_unless(alloc, is_known, &edited, &survey)?;
    let fault = fault_of(alloc, config, &edited, &survey)?;
    let FoundProblems { shown, suppressed } = parts;
    Ok(LinesPatch {
        first: touched.first,
        old_end: touched.old_end,
        new_end: touched.new_end,
        shown,
        suppressed,
        indentation,
        below,
        had_fault: before.has_fault(),
        fault,
    })
}
