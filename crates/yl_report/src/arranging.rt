ghost use Rattle.std.specs.Prelude.{◌≡◌, ◌++◌, IfOk, OnOk, option_to_list};
ghost use Rattle.std.specs.List.{filter_map};
ghost use Rattle.yl_rules.specs.LevelOf.{level_of};
ghost use Rattle.yl_report.specs.Report.{finding_order, order_in_line, order_in_place, sorted_once, is_reported, with_level, report_of};
ghost use Rattle.yl_report.specs.Report as spec;
ghost use Rattle.yl_report.specs.Arranged.{OneArrangement, SortedOnceArranges};
ghost use Rattle.yl_report.specs.Silence.{is_file_silenced_by, is_silenced_at};

use crate::problem::Problem;
use crate::silence::Silences;
use std::alloc::{AllocError, Allocator};
use std::cmp::Ordering;
use yl_rules::RuleLevels;
use yl_text::{Finding, RuleId};

// Compares two findings by rule name and message.
fn compare_in_place<A: Allocator>(a: &Finding<A>, b: &Finding<A>) -> Ordering
    ensures { result ≡ order_in_place a.now b.now }
{
    match a.rule().name().cmp(b.rule().name()) {
        Ordering::Equal => a.message().cmp(b.message()),
        apart => apart,
    }
}

// Compares two findings by column, rule name and message.
fn compare_in_line<A: Allocator>(a: &Finding<A>, b: &Finding<A>) -> Ordering
    ensures { result ≡ order_in_line a.now b.now }
{
    match a.column().cmp(&b.column()) {
        Ordering::Equal => compare_in_place(a, b),
        apart => apart,
    }
}

/// Compares two findings in the order of a report: by line, then by column, then by rule name in
/// ASCII order, then by message.
pub fn compare<A: Allocator>(a: &Finding<A>, b: &Finding<A>) -> Ordering
    ensures { result ≡ finding_order a.now b.now }
{
    match a.line().cmp(&b.line()) {
        Ordering::Equal => compare_in_line(a, b),
        apart => apart,
    }
}

/// A law: a list has exactly one arrangement, and `sorted_once` returns it.
pub fn one_arrangement()
    ensures unique { OneArrangement }
    ensures exists { SortedOnceArranges }
{}

/// Returns `true` if the rule is `syntax`, which is the rule of a text's fault.
pub fn is_syntax(rule: RuleId) -> bool
    ensures { result ≡ spec.is_syntax rule }
{
    matches!(rule, RuleId::Syntax)
}

// Returns `true` if the rule of the finding is on and no comment silences it at its line. Comments
// never silence the rule `syntax` at a line.
fn is_reported<A: Allocator>(
    levels: &RuleLevels,
    silences: &Silences<A>,
    found: &Finding<A>,
) -> bool
    ensures { result ≡ is_reported (level_of levels.now) (is_silenced_at silences.now) found.now }
{
    let is_on = levels.level_of(found.rule()).is_some();
    let is_free = is_syntax(found.rule());
    is_on && (is_free || !silences.is_silenced(found.rule(), found.line().saturating_sub(1)))
}

// Sorts the findings and removes duplicates. Takes linear time if they are sorted already.
fn sort_once<A: Allocator>(found: &mut Vec<Finding<A>, A>)
    ensures { found.new.items ≡ sorted_once found.old.items }
{
    found.sort_unstable_by(|a, b| compare(a, b));
    found.dedup_by(|a, b| compare(a, b) == Ordering::Equal);
}

// Appends the finding to the problems if its rule is on.
fn push_with_level<A: Allocator>(
    problems: &mut Vec<Problem<A>, A>,
    found: Finding<A>,
    levels: &RuleLevels,
) -> Result<(), AllocError>
    ensures { OnOk result (problems.new.items ≡ problems.old.items
        ++ option_to_list (with_level (level_of levels.now) found)) }
{
    if let Some(level) = levels.level_of(found.rule()) {
        problems.push(Problem::new(found, level))?;
    }
    Ok(())
}

// Returns the findings whose rules are on, each with its level.
fn with_levels<A: Allocator + Copy>(
    alloc: A,
    found: Vec<Finding<A>, A>,
    levels: &RuleLevels,
) -> Result<Vec<Problem<A>, A>, AllocError>
    ensures { IfOk result (λ v. v.items ≡ filter_map (with_level (level_of levels.now)) found.items) }
{
    let mut problems = Vec::with_capacity(alloc, found.len())?;
    for one in found {
        push_with_level(&mut problems, one, levels)?;
    }
    Ok(problems)
}

/// Returns the report of these findings: the problems whose rules are on and not silenced, with
/// their levels and without duplicates, sorted by line, column, rule name and message. Allocates
/// only for the result, and only once. The only error is out of memory.
pub fn arrange<A: Allocator + Copy>(
    alloc: A,
    mut found: Vec<Finding<A>, A>,
    levels: &RuleLevels,
    silences: &Silences<A>,
) -> Result<Vec<Problem<A>, A>, AllocError>
    ensures { IfOk result (λ v. v.items ≡ report_of (level_of levels.now)
        (is_file_silenced_by silences.now) (is_silenced_at silences.now) found.items) }
{
    if silences.is_file_silenced() {
        return Ok(Vec::new(alloc));
    }
    found.retain(|one| is_reported(levels, silences, one));
    sort_once(&mut found);
    with_levels(alloc, found, levels)
}
