//! The rule `colons`.
ghost use Rattle.std.specs.Prelude.{◌≡◌, ◌++◌, codes, Some, OnOk};
ghost use Rattle.yl_lexeme_rules.specs.Colons.{before_colon, colons};
ghost use Rattle.yl_lexeme_rules.specs.Spans.{too_many_behind};

use crate::report::{report_too_many, report_too_many_behind};
use crate::span::{Place, distance};
use std::alloc::{AllocError, Allocator};
use yl_lexeme::Kind;
use yl_text::{Finding, RuleId};

/// The options of the rule `colons`. Each bound is on the number of characters between two lexemes
/// of one line. `None` is no bound.
#[derive(Clone, Copy)]
pub struct ColonsOptions {
    /// The maximum before a `:`.
    pub max_spaces_before: Option<u32>,
    /// The maximum after a `:` or a `?`.
    pub max_spaces_after: Option<u32>,
}

impl ColonsOptions {
    /// Returns the options of yamllint's default configuration.
    pub fn standard() -> ColonsOptions
        ensures { result ≡ record { max_spaces_before = Some 0; max_spaces_after = Some 1 } }
    {
        ColonsOptions {
            max_spaces_before: Some(0),
            max_spaces_after: Some(1),
        }
    }
}

fn push_before_colon<A: Allocator>(
    problems: &mut Vec<Finding<A>, A>,
    options: &ColonsOptions,
    place: &Place,
) -> Result<(), AllocError>
    ensures { OnOk result (problems.new.items ≡ problems.old.items
        ++ before_colon options.now place.now.before place.now.here) }
{
    let Some(x) = &place.before else {
        return Ok(());
    };
    let y = &place.here;
    // One space after an alias is needed, since its name may contain a colon.
    if matches!(x.kind, Kind::Alias) && distance(x, y) == Some(1) {
        return Ok(());
    }
    let most = options.max_spaces_before;
    report_too_many(
        problems,
        RuleId::Colons,
        most,
        x,
        y,
        "too many spaces before colon",
    )
}

fn push_round_colon<A: Allocator>(
    problems: &mut Vec<Finding<A>, A>,
    options: &ColonsOptions,
    place: &Place,
) -> Result<(), AllocError>
    ensures { OnOk result (problems.new.items ≡ problems.old.items
        ++ (before_colon options.now place.now.before place.now.here
        ++ too_many_behind RuleId.Colons options.now.max_spaces_after place.now.here place.now.after
        (codes "too many spaces after colon"))) }
{
    push_before_colon(problems, options, place)?;
    let most = options.max_spaces_after;
    let message = "too many spaces after colon";
    report_too_many_behind(problems, RuleId::Colons, most, place, message)?;
    Ok(())
}

fn push_colons_by<A: Allocator>(
    problems: &mut Vec<Finding<A>, A>,
    options: &ColonsOptions,
    place: &Place,
) -> Result<(), AllocError>
    ensures { OnOk result (problems.new.items ≡ problems.old.items
        ++ colons (Some options.now) place.now.before place.now.here place.now.after) }
{
    let most = options.max_spaces_after;
    let message = "too many spaces after question mark";
    match place.here.kind {
        Kind::Value => push_round_colon(problems, options, place),
        Kind::Key => report_too_many_behind(problems, RuleId::Colons, most, place, message),
        _ => Ok(()),
    }
}

/// Appends the problems that the rule finds at a lexeme between its neighbours. Appends nothing if
/// the rule is off. The only error is out of memory.
pub(crate) fn push_colons<A: Allocator>(
    problems: &mut Vec<Finding<A>, A>,
    options: &Option<ColonsOptions>,
    place: &Place,
) -> Result<(), AllocError>
    ensures { OnOk result (problems.new.items ≡ problems.old.items
        ++ colons options.now place.now.before place.now.here place.now.after) }
{
    match options {
        None => Ok(()),
        Some(options) => push_colons_by(problems, options, place),
    }
}
