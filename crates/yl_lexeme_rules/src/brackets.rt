//! The rules `braces` and `brackets`, which are one rule for two kinds of flow collections.
ghost use Rattle.std.specs.Prelude.{◌≡◌, ◌++◌, ◌+◌, ◌<◌, ◌^◌, Some, OnOk};
ghost use Rattle.yl_lexeme_rules.specs.Brackets.{before_closing, behind_opening_at, brackets, forbidden_finding, inside, inside_empty};

use crate::report::{report, report_too_few, report_too_many};
use crate::span::{Place, Span};
use std::alloc::{AllocError, Allocator};
use yl_lexeme::Kind;
use yl_text::{Finding, Pos, RuleId};

/// The flow collections that are forbidden.
#[derive(Clone, Copy, PartialEq, Eq)]
pub enum Forbid {
    /// None of them.
    Nothing,
    /// Collections that are not empty.
    NonEmpty,
    /// All of them.
    Everything,
}

/// The options of the rules `braces` and `brackets`. Each bound is on the number of characters
/// between a bracket and its neighbour inside the brackets, if both are in one line. `None` is no
/// bound.
#[derive(Clone, Copy)]
pub struct BracketsOptions {
    /// The flow collections that are forbidden.
    pub forbid: Forbid,
    /// The minimum inside brackets that are not empty.
    pub min_spaces_inside: Option<u32>,
    /// The maximum inside brackets that are not empty.
    pub max_spaces_inside: Option<u32>,
    /// The minimum inside empty brackets. If it is `None`, `min_spaces_inside` applies.
    pub min_spaces_inside_empty: Option<u32>,
    /// The maximum inside empty brackets. If it is `None`, `max_spaces_inside` applies.
    pub max_spaces_inside_empty: Option<u32>,
}

impl BracketsOptions {
    ghost use Rattle.std.specs.Prelude.{◌≡◌};
    ghost use Rattle.yl_lexeme_rules.specs.Standard.{standard_brackets};

    /// Returns the options of yamllint's default configuration.
    pub fn standard() -> BracketsOptions
        ensures { result ≡ standard_brackets }
    {
        BracketsOptions {
            forbid: Forbid::Nothing,
            min_spaces_inside: Some(0),
            max_spaces_inside: Some(0),
            min_spaces_inside_empty: None,
            max_spaces_inside_empty: None,
        }
    }
}

/// The two kinds of flow collections, each of which has its own rule.
#[derive(Clone, Copy)]
pub(crate) enum Flow {
    /// Mappings in braces.
    Mapping,
    /// Sequences in brackets.
    Sequence,
}

impl Flow {
    ghost use Rattle.std.specs.Prelude.{◌≡◌, ◌++◌, codes};
    ghost use Rattle.yl_text.specs.Finding.{rule_name};
    ghost use Rattle.yl_lexeme_rules.specs.Brackets.{closes, forbidden_text, opens, rule_of};

    /// Returns the rule on this kind.
    fn rule(self) -> RuleId
        ensures { result ≡ rule_of self }
    {
        match self {
            Flow::Mapping => RuleId::Braces,
            Flow::Sequence => RuleId::Brackets,
        }
    }

    /// Returns whether a lexeme opens a collection of this kind.
    fn opens(self, kind: Kind) -> bool
        ensures { result ≡ opens self kind }
    {
        match self {
            Flow::Mapping => matches!(kind, Kind::MapOpen),
            Flow::Sequence => matches!(kind, Kind::SeqOpen),
        }
    }

    /// Returns whether a lexeme closes a collection of this kind.
    fn closes(self, kind: Kind) -> bool
        ensures { result ≡ closes self kind }
    {
        match self {
            Flow::Mapping => matches!(kind, Kind::MapClose),
            Flow::Sequence => matches!(kind, Kind::SeqClose),
        }
    }

    fn forbidden_text(self) -> &'static str
        ensures { result.now ≡ forbidden_text self }
    {
        match self {
            Flow::Mapping => "forbidden flow mapping",
            Flow::Sequence => "forbidden flow sequence",
        }
    }

    fn too_few_text(self) -> &'static str
        ensures { result.now ≡ codes "too few spaces inside " ++ rule_name (rule_of self) }
    {
        match self {
            Flow::Mapping => "too few spaces inside braces",
            Flow::Sequence => "too few spaces inside brackets",
        }
    }

    fn too_many_text(self) -> &'static str
        ensures { result.now ≡ codes "too many spaces inside " ++ rule_name (rule_of self) }
    {
        match self {
            Flow::Mapping => "too many spaces inside braces",
            Flow::Sequence => "too many spaces inside brackets",
        }
    }

    fn too_few_empty_text(self) -> &'static str
        ensures { result.now ≡ codes "too few spaces inside empty " ++ rule_name (rule_of self) }
    {
        match self {
            Flow::Mapping => "too few spaces inside empty braces",
            Flow::Sequence => "too few spaces inside empty brackets",
        }
    }

    fn too_many_empty_text(self) -> &'static str
        ensures { result.now ≡ codes "too many spaces inside empty " ++ rule_name (rule_of self) }
    {
        match self {
            Flow::Mapping => "too many spaces inside empty braces",
            Flow::Sequence => "too many spaces inside empty brackets",
        }
    }
}

/// Appends the problems of the distance between a bracket and its neighbour inside the brackets.
/// The only error is out of memory.
fn push_inside<A: Allocator>(
    problems: &mut Vec<Finding<A>, A>,
    flow: Flow,
    options: &BracketsOptions,
    x: &Span,
    y: &Span,
) -> Result<(), AllocError>
    ensures { OnOk result (problems.new.items ≡ problems.old.items
        ++ inside flow options.now x.now y.now) }
{
    let rule = flow.rule();
    report_too_few(
        problems,
        rule,
        options.min_spaces_inside,
        x,
        y,
        flow.too_few_text(),
    )?;
    report_too_many(
        problems,
        rule,
        options.max_spaces_inside,
        x,
        y,
        flow.too_many_text(),
    )?;
    Ok(())
}

/// Appends the problems of the distance between two brackets with nothing between them. The only
/// error is out of memory.
fn push_inside_empty<A: Allocator>(
    problems: &mut Vec<Finding<A>, A>,
    flow: Flow,
    options: &BracketsOptions,
    x: &Span,
    y: &Span,
) -> Result<(), AllocError>
    ensures { OnOk result (problems.new.items ≡ problems.old.items
        ++ inside_empty flow options.now x.now y.now) }
{
    let rule = flow.rule();
    let least = options
        .min_spaces_inside_empty
        .or(options.min_spaces_inside);
    let most = options
        .max_spaces_inside_empty
        .or(options.max_spaces_inside);
    report_too_few(problems, rule, least, x, y, flow.too_few_empty_text())?;
    report_too_many(problems, rule, most, x, y, flow.too_many_empty_text())?;
    Ok(())
}

/// Appends the problem of a forbidden collection. It is reported at the character after the opening
/// bracket. The only error is out of memory.
fn push_forbidden<A: Allocator>(
    problems: &mut Vec<Finding<A>, A>,
    flow: Flow,
    x: &Span,
) -> Result<(), AllocError>
    ensures { OnOk result (problems.new.items ≡ problems.old.items
        ++ forbidden_finding flow x.now) }
{
    let Pos { line, col } = x.start;
    let line = u64::from(line) + 1;
    let column = u64::from(col) + 2;
    report(problems, flow.rule(), line, column, flow.forbidden_text())
}

/// Appends the problems at an opening bracket and the lexeme after it. The only error is out of
/// memory.
fn push_behind_opening<A: Allocator>(
    problems: &mut Vec<Finding<A>, A>,
    flow: Flow,
    options: &BracketsOptions,
    place: &Place,
) -> Result<(), AllocError>
    ensures { OnOk result (problems.new.items ≡ problems.old.items
        ++ behind_opening_at flow options.now options.now.forbid place.now.here place.now.after) }
{
    let x = &place.here;
    match (options.forbid, &place.after) {
        (Forbid::Everything, _) => push_forbidden(problems, flow, x),
        (_, None) => Ok(()),
        (forbid, Some(y)) => {
            if flow.closes(y.kind) {
                push_inside_empty(problems, flow, options, x, y)
            } else if forbid == Forbid::NonEmpty {
                push_forbidden(problems, flow, x)
            } else {
                push_inside(problems, flow, options, x, y)
            }
        }
    }
}

/// Appends the problems at a closing bracket and the lexeme before it. The only error is out of
/// memory.
fn push_before_closing<A: Allocator>(
    problems: &mut Vec<Finding<A>, A>,
    flow: Flow,
    options: &BracketsOptions,
    place: &Place,
) -> Result<(), AllocError>
    ensures { OnOk result (problems.new.items ≡ problems.old.items
        ++ before_closing flow options.now place.now.before place.now.here) }
{
    match &place.before {
        None => Ok(()),
        Some(x) => {
            if flow.opens(x.kind) {
                Ok(())
            } else {
                push_inside(problems, flow, options, x, &place.here)
            }
        }
    }
}

fn push_brackets_by<A: Allocator>(
    problems: &mut Vec<Finding<A>, A>,
    flow: Flow,
    options: &BracketsOptions,
    place: &Place,
) -> Result<(), AllocError>
    ensures { OnOk result (problems.new.items ≡ problems.old.items
        ++ brackets flow (Some options.now) place.now.before place.now.here place.now.after) }
{
    let kind = place.here.kind;
    if flow.opens(kind) {
        push_behind_opening(problems, flow, options, place)
    } else if flow.closes(kind) {
        push_before_closing(problems, flow, options, place)
    } else {
        Ok(())
    }
}

/// Appends the problems that the rule finds at a lexeme between its neighbours. Appends nothing if
/// the rule is off. The only error is out of memory.
pub(crate) fn push_brackets<A: Allocator>(
    problems: &mut Vec<Finding<A>, A>,
    flow: Flow,
    options: &Option<BracketsOptions>,
    place: &Place,
) -> Result<(), AllocError>
    ensures { OnOk result (problems.new.items ≡ problems.old.items
        ++ brackets flow options.now place.now.before place.now.here place.now.after) }
{
    match options {
        None => Ok(()),
        Some(options) => push_brackets_by(problems, flow, options, place),
    }
}
