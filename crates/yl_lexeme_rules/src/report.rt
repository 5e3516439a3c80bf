//! Appends problems.
ghost use Rattle.std.specs.Prelude.{◌≡◌, ◌++◌, ◌+◌, ◌<◌, ◌^◌, OnOk};
ghost use Rattle.yl_text.specs.Finding.{one_finding};
ghost use Rattle.yl_lexeme_rules.specs.Spans.{too_few, too_many, too_many_behind};

use crate::span::{Place, Span, distance, is_less};
use std::alloc::{AllocError, Allocator};
use yl_text::{Finding, RuleId};

/// Appends a problem. Its line and column count from 1. The only error is out of memory.
pub(crate) fn report<A: Allocator>(
    problems: &mut Vec<Finding<A>, A>,
    rule: RuleId,
    line: u64,
    column: u64,
    message: &'static str,
) -> Result<(), AllocError>
    ensures { OnOk result (problems.new.items ≡ problems.old.items
        ++ one_finding rule line column message.now) }
{
    problems.push(Finding::fixed(line, column, rule, message))?;
    Ok(())
}

/// Appends a problem if two lexemes are in one line and more than `most` characters are between
/// them. It is reported at the character before the second lexeme. The only error is out of memory.
pub(crate) fn report_too_many<A: Allocator>(
    problems: &mut Vec<Finding<A>, A>,
    rule: RuleId,
    most: Option<u32>,
    x: &Span,
    y: &Span,
    message: &'static str,
) -> Result<(), AllocError>
    ensures { OnOk result (problems.new.items ≡ problems.old.items
        ++ too_many rule most x.now y.now message.now) }
{
    if !is_less(most, distance(x, y)) {
        return Ok(());
    }
    let line = u64::from(y.start.line) + 1;
    report(problems, rule, line, u64::from(y.start.col), message)
}

/// Appends a problem if two lexemes are in one line and fewer than `least` characters are between
/// them. It is reported at the second lexeme. The only error is out of memory.
pub(crate) fn report_too_few<A: Allocator>(
    problems: &mut Vec<Finding<A>, A>,
    rule: RuleId,
    least: Option<u32>,
    x: &Span,
    y: &Span,
    message: &'static str,
) -> Result<(), AllocError>
    ensures { OnOk result (problems.new.items ≡ problems.old.items
        ++ too_few rule least x.now y.now message.now) }
{
    if !is_less(distance(x, y), least) {
        return Ok(());
    }
    let line = u64::from(y.start.line) + 1;
    let column = u64::from(y.start.col) + 1;
    report(problems, rule, line, column, message)
}

/// Appends a problem if the next lexeme is in the same line and more than `most` characters are
/// between the two. It is reported at the character before the next lexeme. The only error is out
/// of memory.
pub(crate) fn report_too_many_behind<A: Allocator>(
    problems: &mut Vec<Finding<A>, A>,
    rule: RuleId,
    most: Option<u32>,
    place: &Place,
    message: &'static str,
) -> Result<(), AllocError>
    ensures { OnOk result (problems.new.items ≡ problems.old.items
        ++ too_many_behind rule most place.now.here place.now.after message.now) }
{
    match &place.after {
        None => Ok(()),
        Some(y) => report_too_many(problems, rule, most, &place.here, y, message),
    }
}
