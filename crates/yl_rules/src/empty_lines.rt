//! The rule empty-lines.
ghost use Rattle.std.specs.Prelude.{◌≡◌, ◌+◌, ◌<◌, ◌≤◌, ◌^◌, ◌++◌, ◌∷◌, [], if◌then◌else◌, IfOk, OnErr, OnOk};
ghost use Rattle.std.specs.Option.{option_to_list};
ghost use Rattle.yl_rules.specs.EmptyLines.{at_end_of_run, is_break_only, is_text_end, run_findings_of, too_many_blank_lines};
ghost use Rattle.yl_rules.specs.RunsLeft.{next_run};

use crate::pushes::push_found;
use std::alloc::{AllocError, Allocator};
use yl_text::{Break, Finding, RuleId};

/// The maximum numbers of successive lines that consist of a break only.
#[derive(Clone, Copy)]
pub struct EmptyLinesOptions {
    /// The maximum, except at the start and at the end of a text.
    pub max: u32,
    /// The maximum at the start of a text.
    pub max_start: u32,
    /// The maximum at the end of a text.
    pub max_end: u32,
}

/// Returns whether the line consists of a break only.
fn is_break_only(text: &str, end: Break) -> bool
    ensures { result ≡ is_break_only (record { text = text.now; end = end }) }
{
    text.is_empty() && end != Break::No
}

/// Returns whether the line is the last one of a text, and empty.
fn is_end(text: &str, end: Break) -> bool
    ensures { result ≡ is_text_end (record { text = text.now; end = end } ∷ []) }
{
    text.is_empty() && end == Break::No
}

/// Returns the maximum for a run at the start of a text, at its end, or elsewhere.
fn most(options: &EmptyLinesOptions, at_start: bool, at_end: bool) -> u32
    ensures { result ≡ (if at_end then (options.now).max_end else if at_start then (options.now).max_start else (options.now).max) }
{
    if at_end {
        options.max_end
    } else if at_start {
        options.max_start
    } else {
        options.max
    }
}

/// The capacity of a message, in bytes. It is enough for runs of fewer than ten million lines, so
/// that the message is allocated once.
const MESSAGE_BYTES: usize = 40;

/// Returns the finding of a run of `run` lines, if these are more than `most`. `line` is the number
/// of its last line, counted from 1. It is a function of its own, so that the code for each line
/// stays short. The only error is out of memory.
#[inline(never)]
fn too_many<A: Allocator + Copy>(
    alloc: A,
    run: usize,
    most: u32,
    line: usize,
) -> Result<Option<Finding<A>>, AllocError>
    ensures { IfOk result (λ o. option_to_list o ≡ too_many_blank_lines run most line) }
{
    if run <= most as usize {
        return Ok(None);
    }
    let mut message = String::with_capacity(alloc, MESSAGE_BYTES)?;
    write!(message, "too many blank lines ({run} > {most})")?;
    Ok(Some(Finding::new(line as u64, 1, RuleId::EmptyLines, message)))
}

/// Returns the finding of a run of `run` lines, by its position in the text, if it is too long.
/// `line` is the number of its last line, counted from 1, and `at_end` is set if the empty last
/// line follows. A text that consists of one break has no finding. The only error is out of memory.
fn judge<A: Allocator + Copy>(
    alloc: A,
    options: &EmptyLinesOptions,
    run: usize,
    line: usize,
    at_end: bool,
) -> Result<Option<Finding<A>>, AllocError>
    ensures { IfOk result (λ o. option_to_list o ≡ run_findings_of options.now run line at_end) }
{
    if line == 1 && at_end {
        return Ok(None);
    }
    too_many(alloc, run, most(options, run == line, at_end), line)
}

/// Returns the number of lines at the end of the lines up to this one that consist of a break only.
/// `run` is this number for the lines before.
pub(crate) fn next_run(run: usize, text: &str, end: Break) -> usize
    requires { run + 1 < 2 ^ 64 }
    ensures value { result ≡ next_run run (record { text = text.now; end = end }) }
    ensures small { result ≤ run + 1 }
{
    if is_break_only(text, end) { run + 1 } else { 0 }
}

/// Appends the finding of the run of `run` lines at the end of the first `count` lines, if the next
/// line does not continue the run and the run is too long. The only error is out of memory: then
/// nothing is appended.
pub(crate) fn push_run_before<A: Allocator + Copy>(
    alloc: A,
    options: &EmptyLinesOptions,
    run: usize,
    count: usize,
    text: &str,
    end: Break,
    found: &mut Vec<Finding<A>, A>,
) -> Result<(), AllocError>
    ensures ok { OnOk result (found.new.items ≡ found.old.items ++ at_end_of_run options.now run count (record { text = text.now; end = end } ∷ [])) }
    ensures err { OnErr result (found.new.items ≡ found.old.items) }
    ensures some { OnErr result (0 < run) }
{
    if run == 0 || is_break_only(text, end) {
        return Ok(());
    }
    push_found(found, judge(alloc, options, run, count, is_end(text, end))?)
}

/// Appends the finding of the run of `run` lines at the end of `count` lines, if no line follows
/// and the run is too long. The only error is out of memory.
pub(crate) fn push_last_run<A: Allocator + Copy>(
    alloc: A,
    options: &EmptyLinesOptions,
    run: usize,
    count: usize,
    found: &mut Vec<Finding<A>, A>,
) -> Result<(), AllocError>
    ensures { OnOk result (found.new.items ≡ found.old.items ++ at_end_of_run options.now run count []) }
{
    if run == 0 {
        return Ok(());
    }
    push_found(found, judge(alloc, options, run, count, false)?)
}
