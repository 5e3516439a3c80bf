//! Assembles the report of a text from the summaries of its sections.
ghost use Rattle.std.specs.Prelude.{◌≡◌, ◌≤◌, ◌++◌, length, map, take, IfOk, OnOk};
ghost use Rattle.yl_indentation.specs.Measures.{empty_measure, measure_of};
ghost use Rattle.yl_indentation.specs.Problems.{indent_problems};
ghost use Rattle.yl_lint.specs.TextReport.{facts_in_sections, findings_in_section, findings_in_sections, found_of_kept, moved, report_of_kept, shown};

use crate::comments::comments_in_sections;
use crate::fault::push_fault;
use crate::moving::{line_below, push_copies, push_moved};
use std::alloc::{AllocError, Allocator};
use yl_config::Config;
use yl_indentation::{IndentationOptions, Measure, indent_problems};
use yl_report::{Problem, Silences, arrange};
use yl_sections::Kept;
use yl_text::{Finding, Pos};

/// Returns the number of sections that are shown: those up to and including the first with a fault.
fn count_shown<A: Allocator>(kept: &[&Kept<A>]) -> usize
    ensures within { result ≤ length kept.now }
    ensures shown { map (λ k. k.now) (take result kept.now) ≡ shown (map (λ k. k.now) kept.now) }
{
    for (i, one) in kept.iter().enumerate() {
        if one.fault().is_some() {
            return i + 1;
        }
    }
    kept.len()
}

/// Returns the measure of all facts of these sections.
fn measure_of<A: Allocator>(kept: &[&Kept<A>]) -> Measure
    ensures { result ≡ measure_of (facts_in_sections (map (λ k. k.now) kept.now)) }
{
    let mut measure = Measure::empty();
    for one in kept {
        measure = measure.and_later(one.measure());
    }
    measure
}

/// Appends the findings of the rule `indentation` in a section that begins at `line`. `before` is
/// the measure of the facts of the sections before it, and `whole` is the measure of all facts that
/// are shown. The only error is out of memory.
pub fn push_indentation<A: Allocator + Copy>(
    alloc: A,
    options: &IndentationOptions,
    whole: Measure,
    line: u32,
    before: Measure,
    kept: &Kept<A>,
    found: &mut Vec<Finding<A>, A>,
) -> Result<(), AllocError>
    ensures { OnOk result (found.new.items ≡ found.old.items ++ map (moved line) (indent_problems options.now before whole kept.now.facts)) }
{
    let indented = indent_problems(alloc, kept.facts(), options, before, whole)?;
    push_moved(line, indented, found)
}

/// Appends the findings in a section that begins at `line`. `before` is the measure of the facts of
/// the sections before it, and `whole` is the measure of all facts that are shown. The only error
/// is out of memory.
pub fn push_section<A: Allocator + Copy>(
    alloc: A,
    options: &IndentationOptions,
    whole: Measure,
    line: u32,
    before: Measure,
    kept: &Kept<A>,
    found: &mut Vec<Finding<A>, A>,
) -> Result<(), AllocError>
    ensures { OnOk result (found.new.items ≡ found.old.items ++ findings_in_section options.now whole line before kept.now) }
{
    push_copies(alloc, line, kept.found(), found)?;
    push_indentation(alloc, options, whole, line, before, kept, found)
}

/// Appends the findings in these sections. The first one begins at line 0. `whole` is the measure
/// of all facts that are shown. The only error is out of memory.
fn push_sections<A: Allocator + Copy>(
    alloc: A,
    options: &IndentationOptions,
    whole: Measure,
    kept: &[&Kept<A>],
    found: &mut Vec<Finding<A>, A>,
) -> Result<(), AllocError>
    ensures { OnOk result (found.new.items ≡ found.old.items ++ findings_in_sections options.now whole 0 empty_measure (map (λ k. k.now) kept.now)) }
{
    let mut line = 0;
    let mut before = Measure::empty();
    for one in kept {
        push_section(alloc, options, whole, line, before, one, found)?;
        line = line_below(line, one.rows())?;
        before = before.and_later(one.measure());
    }
    Ok(())
}

/// Returns all findings in a text. `found` holds the findings of the rules on lines, `end` is the
/// end of the text, and `kept` holds the summaries of its sections, in order. The only error is out
/// of memory.
fn found_of_kept<A: Allocator + Copy>(
    alloc: A,
    config: &Config,
    mut found: Vec<Finding<A>, A>,
    end: Pos,
    kept: &[&Kept<A>],
) -> Result<Vec<Finding<A>, A>, AllocError>
    ensures { IfOk result (λ v. v.items ≡ found_of_kept config.now found.items end (map (λ k. k.now) kept.now)) }
{
    let seen = &kept[..count_shown(kept)];
    push_fault(alloc, end, kept, &mut found)?;
    let options = config.indentation_options();
    push_sections(alloc, options, measure_of(seen), seen, &mut found)?;
    Ok(found)
}

/// Returns the report of a text. `found` holds the findings of the rules on lines, `first` is the
/// first line of the text, `end` is its end, and `kept` holds the summaries of its sections, in
/// order. The only error is out of memory.
pub fn report_of_kept<A: Allocator + Copy>(
    alloc: A,
    config: &Config,
    found: Vec<Finding<A>, A>,
    first: &str,
    end: Pos,
    kept: &[&Kept<A>],
) -> Result<Vec<Problem<A>, A>, AllocError>
    ensures { IfOk result (λ problems. problems.items ≡ report_of_kept config.now found.items first.now end (map (λ k. k.now) kept.now)) }
{
    let comments = comments_in_sections(alloc, &kept[..count_shown(kept)])?;
    let silences = Silences::read(alloc, first, &comments)?;
    let found = found_of_kept(alloc, config, found, end, kept)?;
    arrange(alloc, found, config.levels(), &silences)
}
