//! The rule `document-start`.
ghost use Rattle.std.specs.Prelude.{◌≡◌, not, ◌&&◌, ◌++◌, ◌+◌, ◌<◌, ◌^◌, true, false, codes, Some, OnOk};
ghost use Rattle.std.specs.Option.{option_map_or};
ghost use Rattle.yl_lexeme.specs.Directives.{is_directive};
ghost use Rattle.yl_lexeme.specs.Lexeme.{is_document_marker};
ghost use Rattle.yl_text.specs.Finding.{one_finding};
ghost use Rattle.yl_lexeme_rules.specs.DocumentStart.{document_start, is_bare, is_end_marker, is_start_marker};

use crate::report::report;
use crate::span::Span;
use std::alloc::{AllocError, Allocator};
use yl_lexeme::Kind;
use yl_text::{Finding, Pos, RuleId};

/// The options of the rule `document-start`.
#[derive(Clone, Copy)]
pub struct DocumentStartOptions {
    /// Whether each document must begin with the marker `---`. Otherwise no document may begin with
    /// it.
    pub present: bool,
}

impl DocumentStartOptions {
    /// Returns the options of yamllint's default configuration.
    pub fn standard() -> DocumentStartOptions
        ensures { result ≡ record { present = true } }
    {
        DocumentStartOptions { present: true }
    }
}

/// Returns whether the kind is neither a directive nor a document marker.
fn is_content(kind: Kind) -> bool
    ensures { result ≡ (not (is_directive kind) && not (is_document_marker kind)) }
{
    !matches!(kind, Kind::Directive | Kind::DocStart | Kind::DocEnd)
}

/// Returns whether no lexeme comes before, or the one before is the marker `...`.
fn is_behind_end(before: &Option<Span>) -> bool
    ensures { result ≡ option_map_or (λ y. is_end_marker y.kind) before.now true }
{
    match before {
        None => true,
        Some(x) => matches!(x.kind, Kind::DocEnd),
    }
}

/// Returns whether a document begins with this lexeme, and the lexeme is neither a directive nor a
/// document marker.
fn is_bare(before: &Option<Span>, x: &Span) -> bool
    ensures { result ≡ is_bare before.now x.now }
{
    is_content(x.kind) && is_behind_end(before)
}

fn is_start(kind: Kind) -> bool
    ensures { result ≡ is_start_marker kind }
{
    matches!(kind, Kind::DocStart)
}

fn missing_text() -> &'static str
    ensures { result.now ≡ codes "missing document start \"---\"" }
{
    "missing document start \"---\""
}

fn forbidden_text() -> &'static str
    ensures { result.now ≡ codes "found forbidden document start \"---\"" }
{
    "found forbidden document start \"---\""
}

fn report_missing<A: Allocator>(
    problems: &mut Vec<Finding<A>, A>,
    x: &Span,
) -> Result<(), AllocError>
    ensures { OnOk result (problems.new.items ≡ problems.old.items
        ++ one_finding RuleId.DocumentStart (x.now.start.line + 1) 1
        (codes "missing document start \"---\"")) }
{
    let line = u64::from(x.start.line) + 1;
    report(problems, RuleId::DocumentStart, line, 1, missing_text())
}

fn report_forbidden<A: Allocator>(
    problems: &mut Vec<Finding<A>, A>,
    x: &Span,
) -> Result<(), AllocError>
    ensures { OnOk result (problems.new.items ≡ problems.old.items
        ++ one_finding RuleId.DocumentStart (x.now.start.line + 1) (x.now.start.col + 1)
        (codes "found forbidden document start \"---\"")) }
{
    let Pos { line, col } = x.start;
    let line = u64::from(line) + 1;
    let column = u64::from(col) + 1;
    report(
        problems,
        RuleId::DocumentStart,
        line,
        column,
        forbidden_text(),
    )
}

fn push_missing_start<A: Allocator>(
    problems: &mut Vec<Finding<A>, A>,
    before: &Option<Span>,
    x: &Span,
) -> Result<(), AllocError>
    ensures { OnOk result (problems.new.items ≡ problems.old.items
        ++ document_start (Some (record { present = true })) before.now x.now) }
{
    if is_bare(before, x) {
        report_missing(problems, x)
    } else {
        Ok(())
    }
}

fn push_forbidden_start<A: Allocator>(
    problems: &mut Vec<Finding<A>, A>,
    before: &Option<Span>,
    x: &Span,
) -> Result<(), AllocError>
    ensures { OnOk result (problems.new.items ≡ problems.old.items
        ++ document_start (Some (record { present = false })) before.now x.now) }
{
    if is_start(x.kind) {
        report_forbidden(problems, x)
    } else {
        Ok(())
    }
}

/// Appends the problem that the rule finds at a lexeme, given the lexeme before it. Appends nothing
/// if the rule is off. The only error is out of memory.
pub(crate) fn push_document_start<A: Allocator>(
    problems: &mut Vec<Finding<A>, A>,
    options: &Option<DocumentStartOptions>,
    before: &Option<Span>,
    x: &Span,
) -> Result<(), AllocError>
    ensures { OnOk result (problems.new.items ≡ problems.old.items
        ++ document_start options.now before.now x.now) }
{
    let Some(options) = options else {
        return Ok(());
    };
    if options.present {
        push_missing_start(problems, before, x)
    } else {
        push_forbidden_start(problems, before, x)
    }
}
