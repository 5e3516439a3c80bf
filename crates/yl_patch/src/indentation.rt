//! Judges the indentation below an edit again, by the facts in the summaries of the sections. Reads
//! no line.
ghost use Rattle.std.specs.Prelude.{◌≡◌, ◌≤◌, ◌++◌, false, length, map, drop, IfOk, MatchOption, OnOk};
ghost use Rattle.yl_config.specs.Config.{levels_of, options_of};
ghost use Rattle.yl_indentation.specs.Onward.{CountsEntriesOnceSeen, onward_problems};
ghost use Rattle.yl_report.specs.Heard.{nothing_silenced};
ghost use Rattle.yl_report.specs.Report.{report_of};
ghost use Rattle.yl_lint.specs.Onward.{indentation_in_sections};
ghost use Rattle.yl_lint.specs.TextReport.{moved};
ghost use Rattle.yl_summary.specs.Edit.{IsSectionEdit};
ghost use Rattle.yl_patch.specs.Seen.{AreFoundAlike, measure_upto, sections_between};

use crate::measures::leaves_below;
use std::alloc::{AllocError, Allocator};
use yl_chunks::Chunks;
use yl_config::Config;
use yl_indentation::{IndentationOptions, Measure};
use yl_lint::{line_below, push_indentation};
use yl_report::{Problem, Silences, arrange};
use yl_sections::Kept;
use yl_summary::SectionEdit;
use yl_text::Finding;

/// Appends the findings of the rule indentation in a section that begins at `line`. Judges them by
/// the facts before the section, which have the measure `before`, and by its own facts. The only
/// error is out of memory.
fn push_indentation_onward<A: Allocator + Copy>(
    alloc: A,
    options: &IndentationOptions,
    line: u32,
    before: Measure,
    one: &Kept<A>,
    found: &mut Vec<Finding<A>, A>,
) -> Result<(), AllocError>
    requires { CountsEntriesOnceSeen before }
    ensures { OnOk result (found.new.items ≡ found.old.items ++ map (moved line) (onward_problems options.now before one.now.facts)) }
{
    let upto = before.and_later(one.measure());
    push_indentation(alloc, options, upto, line, before, one, found)
}

/// Returns the findings of the rule indentation in the sections from index `end` on. The first of
/// these begins at the line `first`, and the facts before it have the measure `before`. The only
/// error is out of memory.
fn find_from<A: Allocator + Copy>(
    alloc: A,
    options: &IndentationOptions,
    kept: &Chunks<Kept<A>, A>,
    end: usize,
    first: u32,
    before: Measure,
) -> Result<Vec<Finding<A>, A>, AllocError>
    requires within { end ≤ length kept.now.items }
    requires counts { CountsEntriesOnceSeen before }
    ensures { IfOk result (λ v. v.items ≡ indentation_in_sections options.now first before (drop end kept.now.items)) }
{
    let mut found = Vec::new(alloc);
    let mut line = first;
    let mut here = before;
    for i in end..kept.len() {
        let one = kept.get(i);
        push_indentation_onward(alloc, options, line, here, one, &mut found)?;
        line = line_below(line, one.rows())?;
        here = here.and_later(one.measure());
    }
    Ok(found)
}

/// Returns the problems of the rule indentation below an edit, judged again. Returns `None` only if
/// the edit leaves them, except for their lines. The sections below begin at `line`, which is their
/// line before the edit. The only error is out of memory.
pub fn indentation_below<A: Allocator + Copy>(
    alloc: A,
    config: &Config,
    edit: &SectionEdit<'_, A>,
    line: u32,
) -> Result<Option<Vec<Problem<A>, A>>, AllocError>
    requires { IsSectionEdit edit.now }
    ensures { IfOk result (λ o. MatchOption o
        (AreFoundAlike (measure_upto edit.now.above.whole (sections_between edit.now.from edit.now.end edit.now.sections.now.items)) (measure_upto edit.now.above.whole edit.now.kept.now) (drop edit.now.end edit.now.sections.now.items))
        (λ v. v.items ≡ report_of (levels_of config.now) false nothing_silenced (indentation_in_sections (options_of config.now).indentation line (measure_upto edit.now.above.whole edit.now.kept.now) (drop edit.now.end edit.now.sections.now.items)))) }
{
    if leaves_below(edit) {
        return Ok(None);
    }
    let options = config.indentation_options();
    let before = edit.above.whole.and_later(edit.come.whole);
    let found = find_from(alloc, options, edit.sections, edit.end, line, before)?;
    let told = arrange(alloc, found, config.levels(), &Silences::none(alloc))?;
    Ok(Some(told))
}
