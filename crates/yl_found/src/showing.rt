//! Decides which problems of a text are shown.
ghost use Rattle.std.specs.Prelude.{◌≡◌, ◌≤◌, length, take, IfOk};
ghost use Rattle.yl_problem_lists.specs.Showing.{is_shown_by};
ghost use Rattle.yl_sections.specs.Kept.{rows_kept};
ghost use Rattle.yl_lint.specs.TextReport.{shown};
ghost use Rattle.yl_summary.specs.Overview.{IsFirstFault};
ghost use Rattle.yl_summary.specs.Survey.{IsSurvey};
ghost use Rattle.yl_found.specs.ShownUpto.{is_shown_upto};

use crate::comments::comments_upto;
use std::alloc::{AllocError, Allocator};
use yl_chunks::Spliced;
use yl_lint::first_text;
use yl_problem_lists::Showing;
use yl_report::Silences;
use yl_sections::Kept;
use yl_summary::{Overview, Survey};
use yl_text::Lines;

/// Returns the number of sections that are shown: those up to and including the first one with a
/// fault.
fn count_shown<A: Allocator + Copy>(sections: &Spliced<'_, Kept<A>, A>, overview: Overview) -> usize
    requires { IsFirstFault sections.now overview.sound overview.row }
    ensures within { result ≤ length sections.now }
    ensures shown { take result sections.now ≡ shown sections.now }
{
    if overview.sound < sections.len() {
        overview.sound + 1
    } else {
        overview.sound
    }
}

/// Returns the number of lines of the sections that are shown.
fn rows_shown<A: Allocator + Copy>(sections: &Spliced<'_, Kept<A>, A>, overview: Overview) -> u64
    requires { IsFirstFault sections.now overview.sound overview.row }
    ensures { result ≡ rows_kept (shown sections.now) }
{
    let above = u64::from(overview.row);
    if overview.sound < sections.len() {
        above + u64::from(sections.get(overview.sound).rows())
    } else {
        above
    }
}

/// Returns what decides which problems of a text with these lines are shown, by the comments of the
/// first `upto` sections alone. For the problems in these sections it decides the same as by all
/// comments. Skips the sections of an overview in which no section may silence a rule. Does not
/// allocate if no section of the text may silence a rule. The only error is out of memory.
pub fn showing_of<L: Lines>(
    alloc: L::Alloc,
    lines: &L,
    survey: &Survey<'_, L::Alloc>,
    upto: usize,
) -> Result<Showing<L::Alloc>, AllocError>
    requires { IsSurvey survey.now }
    ensures { IfOk result (λ s. is_shown_by s ≡ is_shown_upto upto (L.rows lines.now) survey.now.sections) }
{
    let count = upto.min(count_shown(&survey.sections, survey.all));
    let comments = comments_upto(alloc, survey, count)?;
    let silences = Silences::read(alloc, first_text(lines), &comments)?;
    let last = rows_shown(&survey.sections, survey.all);
    Ok(Showing { silences, last })
}
