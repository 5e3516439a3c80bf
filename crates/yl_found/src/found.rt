//! Finds all problems of a text.
ghost use Rattle.std.specs.Prelude.{◌≡◌, ◌++◌, IfOk, OnOk};
ghost use Rattle.yl_text.specs.Store.{AreLines};
ghost use Rattle.yl_indentation.specs.Measures.{empty_measure, measure_of};
ghost use Rattle.yl_problem_lists.specs.Changes.{parts_in};
ghost use Rattle.yl_lint.specs.TextReport.{facts_in_sections, findings_in_sections};
ghost use Rattle.yl_summary.specs.Survey.{IsSurvey};
ghost use Rattle.yl_found.specs.Found.{all_parts, found_by};

use crate::fault::fault_of;
use crate::showing::showing_of;
use std::alloc::{AllocError, Allocator};
use yl_chunks::Spliced;
use yl_config::Config;
use yl_indentation::{IndentationOptions, Measure};
use yl_lint::{find_in_lines, line_below, push_section};
use yl_problem_lists::FoundProblems;
use yl_report::{Problem, Silences, arrange};
use yl_sections::Kept;
use yl_summary::Survey;
use yl_text::{Finding, Lines};

/// Appends the findings in all sections, whose facts have the measure `whole`. The only error is
/// out of memory.
fn push_all<A: Allocator + Copy>(
    alloc: A,
    options: &IndentationOptions,
    whole: Measure,
    sections: &Spliced<'_, Kept<A>, A>,
    found: &mut Vec<Finding<A>, A>,
) -> Result<(), AllocError>
    ensures { OnOk result (found.new.items ≡ found.old.items ++ findings_in_sections options.now whole 0 empty_measure sections.now) }
{
    let mut line = 0;
    let mut before = Measure::empty();
    for i in 0..sections.len() {
        let one = sections.get(i);
        push_section(alloc, options, whole, line, before, one, found)?;
        line = line_below(line, one.rows())?;
        before = before.and_later(one.measure());
    }
    Ok(())
}

/// Returns all problems of a text with these lines and sections, except for its fault. The facts of
/// the sections have the measure `whole`. The only error is out of memory.
fn find_all<L: Lines>(
    alloc: L::Alloc,
    config: &Config,
    lines: &L,
    sections: &Spliced<'_, Kept<L::Alloc>, L::Alloc>,
    whole: Measure,
) -> Result<Vec<Problem<L::Alloc>, L::Alloc>, AllocError>
    requires { whole ≡ measure_of (facts_in_sections sections.now) }
    ensures { IfOk result (λ v. v.items ≡ found_by config.now (L.rows lines.now) sections.now) }
{
    let mut found = find_in_lines(alloc, config, lines)?;
    let options = config.indentation_options();
    push_all(alloc, options, whole, sections, &mut found)?;
    arrange(alloc, found, config.levels(), &Silences::none(alloc))
}

/// Returns all problems of a text with these lines and sections: those that its report shows, with
/// the text's fault in its place, and the suppressed ones. The only error is out of memory.
pub fn found_problems<L: Lines>(
    alloc: L::Alloc,
    config: &Config,
    lines: &L,
    survey: &Survey<'_, L::Alloc>,
) -> Result<FoundProblems<L::Alloc>, AllocError>
    requires lines { AreLines (L.rows lines.now) }
    requires survey { IsSurvey survey.now }
    ensures { IfOk result (λ f. parts_in f ≡ all_parts config.now (L.rows lines.now) survey.now.sections) }
{
    let sections = &survey.sections;
    let found = find_all(alloc, config, lines, sections, survey.all.whole)?;
    let showing = showing_of(alloc, lines, survey, sections.len())?;
    let mut parts = FoundProblems::part(alloc, &showing, found)?;
    let fault = fault_of(alloc, config, lines, survey)?;
    parts.add_fault(fault)?;
    Ok(parts)
}
