//! The rules that look at one line.
ghost use Rattle.std.specs.Prelude.{◌≡◌, ◌++◌, [], ℕ, true, false, IfOk, OnOk, OnErr};
ghost use Rattle.std.specs.Str.{chars};
ghost use Rattle.yl_rules.specs.Rows.{line_findings, row_findings};

use crate::line_length::line_length_problem;
use crate::options::RowOptions;
use crate::pushes::push_both;
use crate::trailing_spaces::{end_white, trailing_spaces_problem};
use std::alloc::{AllocError, Allocator};
use yl_text::{Finding, Row};

/// Returns whether the rules may find something in a line: it ends in white space, or has more
/// bytes than it may have characters.
fn is_suspect(text: &str, options: &RowOptions) -> bool
    ensures { result ≡ false → (line : ℕ) → line_findings options.now line (chars text.now) ≡ [] }
{
    text.len() > options.max as usize || end_white(text.as_bytes()) > 0
}

/// Appends the findings of the rules that look at one line, in a line in which they may find
/// something. The number of the line counts from 1. The only error is out of memory: then nothing
/// is appended.
#[inline(never)]
fn push_suspect_problems<A: Allocator + Copy>(
    alloc: A,
    line: u64,
    text: &str,
    options: &RowOptions,
    found: &mut Vec<Finding<A>, A>,
) -> Result<(), AllocError>
    ensures ok { OnOk result (found.new.items ≡ found.old.items ++ line_findings options.now line (chars text.now)) }
    ensures err { OnErr result (found.new.items ≡ found.old.items) }
{
    let trailing = trailing_spaces_problem(line, text);
    let long = line_length_problem(alloc, line, text, options)?;
    push_both(found, trailing, long)
}

/// Appends the findings of the rules that look at one line, in a line of this text. The number of
/// the line counts from 1. Does not allocate if nothing is found. The only error is out of memory:
/// then nothing is appended.
#[inline(always)]
pub fn push_line_problems<A: Allocator + Copy>(
    alloc: A,
    line: u64,
    text: &str,
    options: &RowOptions,
    found: &mut Vec<Finding<A>, A>,
) -> Result<(), AllocError>
    ensures ok { OnOk result (found.new.items ≡ found.old.items ++ line_findings options.now line (chars text.now)) }
    ensures err { OnErr result (found.new.items ≡ found.old.items) }
{
    if !is_suspect(text, options) {
        return Ok(());
    }
    push_suspect_problems(alloc, line, text, options, found)
}

/// Appends the findings of the rules that look at one line, in this row. The number of the line
/// counts from 1. Does not allocate if nothing is found. The only error is out of memory: then
/// nothing is appended.
pub fn push_row_problems<A: Allocator + Copy>(
    alloc: A,
    line: u64,
    row: &Row<A>,
    options: &RowOptions,
    found: &mut Vec<Finding<A>, A>,
) -> Result<(), AllocError>
    ensures ok { OnOk result (found.new.items ≡ found.old.items ++ row_findings options.now line row.now) }
    ensures err { OnErr result (found.new.items ≡ found.old.items) }
{
    push_line_problems(alloc, line, row.as_str(), options, found)
}

/// Returns the findings of the rules that look at one line, in this row. The number of the line
/// counts from 1. The only error is out of memory.
pub fn row_problems<A: Allocator + Copy>(
    alloc: A,
    line: u64,
    row: &Row<A>,
    options: &RowOptions,
) -> Result<Vec<Finding<A>, A>, AllocError>
    ensures { IfOk result (λ v. v.items ≡ row_findings options.now line row.now) }
{
    let mut found = Vec::new(alloc);
    push_row_problems(alloc, line, row, options, &mut found)?;
    Ok(found)
}
