//! The problems of the rule `indentation`.
ghost use Rattle.std.specs.Prelude.{◌≡◌, ◌++◌, ◌+◌, [], codes, decimal, false, if◌then◌else◌, nat_lt, IfOk, OnOk, string_bytes};
ghost use Rattle.yl_text.specs.declared.finding.RuleId.TheVariants.{Indentation};
ghost use Rattle.yl_text.specs.Finding.{one_finding};
ghost use Rattle.yl_indentation.specs.Problems.{is_indented, width_by_spaces, not_as_expected, finding_by_width, finding_by, finding_at, indent_problems};

use crate::fact::{Expectation, Fact};
use crate::measure::Measure;
use crate::options::{IndentSequences, IndentationOptions, Spaces};
use std::alloc::{AllocError, Allocator};
use yl_text::{Finding, RuleId};

/// Returns whether an entry in a mapping must be indented from the mapping's column. `flush` says
/// whether the first such entry in the text stands in its mapping's column, and `at_base` whether
/// this one does.
fn is_indented(choice: IndentSequences, flush: bool, at_base: bool) -> bool
    ensures { result ≡ is_indented choice flush at_base }
{
    match choice {
        IndentSequences::Indented => true,
        IndentSequences::NotIndented => false,
        IndentSequences::Whatever => !at_base,
        IndentSequences::Consistent => !flush,
    }
}

/// Returns the width of an indentation at a place, if one is known. `here` is the measure of the
/// facts up to the place.
fn width(options: &IndentationOptions, here: Measure, flush: bool) -> Option<u32>
    ensures { result ≡ width_by_spaces options.now.spaces
        (is_indented options.now.indent_sequences flush false) here }
{
    match options.spaces {
        Spaces::Every(width) => Some(width),
        Spaces::Consistent if is_indented(options.indent_sequences, flush, false) => {
            here.step_with_entries
        }
        Spaces::Consistent => here.step,
    }
}

/// Enough bytes for a message with columns below 1000, so that its text is allocated only once.
const MESSAGE_BYTES: usize = 48;

/// Returns the message about a lexeme that is not in the expected column. The only error is out of
/// memory.
fn other_column_text<A: Allocator + Copy>(
    alloc: A,
    expected: u64,
    column: u32,
) -> Result<String<A>, AllocError>
    ensures { IfOk result (λ text. string_bytes text
        ≡ codes "wrong indentation: expected "
        ++ (decimal expected ++ (codes " but found " ++ decimal column))) }
{
    let mut text = String::with_capacity(alloc, MESSAGE_BYTES)?;
    write!(
        text,
        "wrong indentation: expected {expected} but found {column}"
    )?;
    Ok(text)
}

/// Returns the message about a lexeme before the first allowed column. The only error is out of
/// memory.
fn least_column_text<A: Allocator + Copy>(alloc: A, least: u64) -> Result<String<A>, AllocError>
    ensures { IfOk result (λ text. string_bytes text
        ≡ codes "wrong indentation: expected at least " ++ decimal least) }
{
    let mut text = String::with_capacity(alloc, MESSAGE_BYTES)?;
    write!(text, "wrong indentation: expected at least {least}")?;
    Ok(text)
}

/// Appends a problem if the fact is not in the column `expected`. The only error is out of memory.
fn push_not_as_expected<A: Allocator + Copy>(
    alloc: A,
    expected: u64,
    fact: Fact,
    found: &mut Vec<Finding<A>, A>,
) -> Result<(), AllocError>
    ensures { OnOk result (found.new.items ≡ found.old.items ++ not_as_expected expected fact) }
{
    let Fact { line, column, .. } = fact;
    if expected == u64::from(column) {
        return Ok(());
    }
    let message = other_column_text(alloc, expected, column)?;
    let line = u64::from(line) + 1;
    let column = u64::from(column) + 1;
    found.push(Finding::new(line, column, RuleId::Indentation, message))?;
    Ok(())
}

/// Appends a problem if the fact is before the column `least`. The only error is out of memory.
fn push_not_beyond<A: Allocator + Copy>(
    alloc: A,
    least: u64,
    fact: Fact,
    found: &mut Vec<Finding<A>, A>,
) -> Result<(), AllocError>
    ensures { OnOk result (found.new.items ≡ found.old.items
        ++ (if nat_lt fact.column least then one_finding Indentation (fact.line + 1) (fact.column + 1)
        (codes "wrong indentation: expected at least " ++ decimal least) else [])) }
{
    let Fact { line, column, .. } = fact;
    if least <= u64::from(column) {
        return Ok(());
    }
    let message = least_column_text(alloc, least)?;
    let line = u64::from(line) + 1;
    let column = u64::from(column) + 1;
    found.push(Finding::new(line, column, RuleId::Indentation, message))?;
    Ok(())
}

/// Appends a problem if the fact is not `width` characters beyond its base. Without a width, any
/// column beyond the base is allowed. The only error is out of memory.
fn push_by_width<A: Allocator + Copy>(
    alloc: A,
    width: Option<u32>,
    base: u32,
    fact: Fact,
    found: &mut Vec<Finding<A>, A>,
) -> Result<(), AllocError>
    ensures { OnOk result (found.new.items ≡ found.old.items ++ finding_by_width width base fact) }
{
    let base = u64::from(base);
    match width {
        None => push_not_beyond(alloc, base + 1, fact, found),
        Some(width) => push_not_as_expected(alloc, base + u64::from(width), fact, found),
    }
}

/// Appends the problem of a fact, if it has one. `width` is the width of an indentation at its
/// place. The only error is out of memory.
fn push_by<A: Allocator + Copy>(
    alloc: A,
    choice: IndentSequences,
    flush: bool,
    width: Option<u32>,
    fact: Fact,
    found: &mut Vec<Finding<A>, A>,
) -> Result<(), AllocError>
    ensures { OnOk result (found.new.items
        ≡ found.old.items ++ finding_by choice flush width fact fact.expectation) }
{
    match fact.expectation {
        Expectation::At(column) => push_not_as_expected(alloc, u64::from(column), fact, found),
        Expectation::Beyond(base) => push_by_width(alloc, width, base, fact, found),
        Expectation::EntryIn(base) if is_indented(choice, flush, fact.column == base) => {
            push_by_width(alloc, width, base, fact, found)
        }
        Expectation::EntryIn(base) => push_not_as_expected(alloc, u64::from(base), fact, found),
    }
}

/// Appends the problem of a fact, if it has one. `here` is the measure of the facts up to it. The
/// only error is out of memory.
fn push_found<A: Allocator + Copy>(
    alloc: A,
    options: &IndentationOptions,
    here: Measure,
    flush: bool,
    fact: Fact,
    found: &mut Vec<Finding<A>, A>,
) -> Result<(), AllocError>
    ensures { OnOk result (found.new.items ≡ found.old.items
        ++ finding_at options.now here flush fact) }
{
    let width = width(options, here, flush);
    push_by(alloc, options.indent_sequences, flush, width, fact, found)
}

/// Returns the problems of the facts of one document. `before` is the measure of the facts of all
/// earlier documents of the text, and `whole` is the measure of all facts of the text. Lines and
/// columns of problems count from 1. The only error is out of memory.
pub fn indent_problems<A: Allocator + Copy>(
    alloc: A,
    facts: &[Fact],
    options: &IndentationOptions,
    before: Measure,
    whole: Measure,
) -> Result<Vec<Finding<A>, A>, AllocError>
    ensures { IfOk result (λ v. v.items ≡ indent_problems options.now before whole facts.now) }
{
    let flush = whole.is_flush();
    let mut here = before;
    let mut found = Vec::new(alloc);
    for fact in facts {
        here = here.and_later(Measure::at(*fact));
        push_found(alloc, options, here, flush, *fact, &mut found)?;
    }
    Ok(found)
}
