//! The rule `commas`.
ghost use Rattle.std.specs.Prelude.{◌≡◌, ◌++◌, ◌+◌, ◌<◌, ◌^◌, Some, OnOk};
ghost use Rattle.yl_lexeme_rules.specs.Commas.{before_comma, behind_comma, commas, first_comma};

use crate::report::{report, report_too_few, report_too_many};
use crate::span::{Place, Span};
use std::alloc::{AllocError, Allocator};
use yl_lexeme::Kind;
use yl_text::{Finding, RuleId};

/// The options of the rule `commas`. Each bound is on the number of characters between two lexemes
/// of one line. `None` is no bound.
#[derive(Clone, Copy)]
pub struct CommasOptions {
    /// The maximum before a `,`. If there is one, a `,` must not be the first lexeme of its line.
    pub max_spaces_before: Option<u32>,
    /// The minimum after a `,`.
    pub min_spaces_after: Option<u32>,
    /// The maximum after a `,`.
    pub max_spaces_after: Option<u32>,
}

impl CommasOptions {
    /// Returns the options of yamllint's default configuration.
    pub fn standard() -> CommasOptions
        ensures { result ≡ record {
          max_spaces_before = Some 0;
          min_spaces_after = Some 1;
          max_spaces_after = Some 1;
        } }
    {
        CommasOptions {
            max_spaces_before: Some(0),
            min_spaces_after: Some(1),
            max_spaces_after: Some(1),
        }
    }
}

/// Appends the problem of a comma that is the first lexeme of its line, if there is a maximum
/// before commas. It is reported at the character before the comma, or at the first one of the
/// line. The only error is out of memory.
fn push_first_comma<A: Allocator>(
    problems: &mut Vec<Finding<A>, A>,
    options: &CommasOptions,
    y: &Span,
) -> Result<(), AllocError>
    ensures { OnOk result (problems.new.items ≡ problems.old.items
        ++ first_comma options.now y.now) }
{
    if options.max_spaces_before.is_none() {
        return Ok(());
    }
    let line = u64::from(y.start.line) + 1;
    let column = u64::from(y.start.col.max(1));
    report(
        problems,
        RuleId::Commas,
        line,
        column,
        "too many spaces before comma",
    )
}

fn push_before_comma<A: Allocator>(
    problems: &mut Vec<Finding<A>, A>,
    options: &CommasOptions,
    place: &Place,
) -> Result<(), AllocError>
    ensures { OnOk result (problems.new.items ≡ problems.old.items
        ++ before_comma options.now place.now.before place.now.here) }
{
    let Some(x) = &place.before else {
        return Ok(());
    };
    let y = &place.here;
    if x.end_line < u64::from(y.start.line) {
        return push_first_comma(problems, options, y);
    }
    let most = options.max_spaces_before;
    report_too_many(
        problems,
        RuleId::Commas,
        most,
        x,
        y,
        "too many spaces before comma",
    )
}

fn push_between<A: Allocator>(
    problems: &mut Vec<Finding<A>, A>,
    options: &CommasOptions,
    x: &Span,
    y: &Span,
) -> Result<(), AllocError>
    ensures { OnOk result (problems.new.items ≡ problems.old.items
        ++ behind_comma options.now x.now (Some y.now)) }
{
    let least = options.min_spaces_after;
    report_too_few(
        problems,
        RuleId::Commas,
        least,
        x,
        y,
        "too few spaces after comma",
    )?;
    let most = options.max_spaces_after;
    report_too_many(
        problems,
        RuleId::Commas,
        most,
        x,
        y,
        "too many spaces after comma",
    )?;
    Ok(())
}

fn push_behind_comma<A: Allocator>(
    problems: &mut Vec<Finding<A>, A>,
    options: &CommasOptions,
    place: &Place,
) -> Result<(), AllocError>
    ensures { OnOk result (problems.new.items ≡ problems.old.items
        ++ behind_comma options.now place.now.here place.now.after) }
{
    match &place.after {
        None => Ok(()),
        Some(y) => push_between(problems, options, &place.here, y),
    }
}

fn push_commas_by<A: Allocator>(
    problems: &mut Vec<Finding<A>, A>,
    options: &CommasOptions,
    place: &Place,
) -> Result<(), AllocError>
    ensures { OnOk result (problems.new.items ≡ problems.old.items
        ++ commas (Some options.now) place.now.before place.now.here place.now.after) }
{
    if !matches!(place.here.kind, Kind::Comma) {
        return Ok(());
    }
    push_before_comma(problems, options, place)?;
    push_behind_comma(problems, options, place)?;
    Ok(())
}

/// Appends the problems that the rule finds at a lexeme between its neighbours. Appends nothing if
/// the rule is off. The only error is out of memory.
pub(crate) fn push_commas<A: Allocator>(
    problems: &mut Vec<Finding<A>, A>,
    options: &Option<CommasOptions>,
    place: &Place,
) -> Result<(), AllocError>
    ensures { OnOk result (problems.new.items ≡ problems.old.items
        ++ commas options.now place.now.before place.now.here place.now.after) }
{
    match options {
        None => Ok(()),
        Some(options) => push_commas_by(problems, options, place),
    }
}
