//! The diagnostics of a report.
ghost use Rattle.std.specs.Prelude.{◌≡◌, true, map, OnOk, OnErr};
ghost use Rattle.yl_text.specs.Store.{AreLines};
ghost use Rattle.yl_units.specs.Places.{IsReached};
ghost use Rattle.yl_lsp.specs.Texts.{diagnostics_text};
ghost use Rattle.yl_lsp.specs.Shown.{diagnostic_value};
ghost use Rattle.yl_lsp.specs.Reports.{code_of, problem_diagnostic, more_diagnostics, report_diagnostics};

use crate::diagnostic::{Code, Diagnostic, Severity, put_next, put_tail, separator};
use crate::{Presentation, Range, next_range};
use itoa::Buffer;
use std::alloc::Allocator;
use std::marker::Model;
use yl_devices::WriteFault;
use yl_frames::{Pieces, put_parts};
use yl_report::Problem;
use yl_text::{Lines, RuleId};
use yl_units::{EditorPlace, Reached};

/// A report for an editor: the lines of a text, its problems, and how these are shown.
pub struct Report<'a, S: Lines> {
    how: Presentation,
    lines: &'a S,
    problems: &'a [Problem<S::Alloc>],
}

impl<'a, S: Lines> Model for Report<'a, S> {
    ghost use Rattle.yl_text.specs.Store.{AreLines};
    ghost use Rattle.yl_lsp.specs.Reports.{ReportValue};

    ghost Value = { ReportValue };

    ghost view = { λ r. record { how = r.how; rows = S.rows r.lines.now; problems = r.problems.now } };

    ghost invariant = { λ r. AreLines (S.rows r.lines.now) };
}

impl<S: Lines> Drop for Report<'_, S> {
    fn drop(self) {
        let Report {
            how: _,
            lines: _,
            problems: _,
        } = self;
    }
}

impl<'a, S: Lines> Report<'a, S> {
    /// Creates a report with the problems of these lines, in order.
    pub fn new(how: Presentation, lines: &'a S, problems: &'a [Problem<S::Alloc>]) -> Report<'a, S>
        requires { AreLines (S.rows lines.now) }
        ensures { result ≡ record { how = how; rows = S.rows lines.now; problems = problems.now } }
    {
        Report {
            how,
            lines,
            problems,
        }
    }
}

/// The empty range at the start of a text.
pub(crate) const TEXT_START: Range = Range {
    start: EditorPlace { line: 0, units: 0 },
    end: EditorPlace { line: 0, units: 0 },
};

/// Returns the code of a diagnostic for a problem of this rule.
fn code_of(how: Presentation, rule: RuleId) -> Code
    ensures { result ≡ code_of how rule }
{
    if how.links && rule != RuleId::Syntax {
        Code::Linked(rule)
    } else {
        Code::Rule(rule)
    }
}

/// Returns the diagnostic of a problem. Moves the walk to its position.
fn diagnostic_of<'p, S: Lines, A: Allocator>(
    how: Presentation,
    lines: &S,
    walk: &mut Reached,
    problem: &'p Problem<A>,
) -> Diagnostic<'p>
    requires lines { AreLines (S.rows lines.now) }
    requires reached { IsReached how.encoding (S.rows lines.now) walk.old }
    ensures value { diagnostic_value result ≡ problem_diagnostic how (S.rows lines.now) problem.now }
    ensures reached { IsReached how.encoding (S.rows lines.now) walk.new }
{
    let rule = problem.rule();
    let line = problem.line().saturating_sub(1);
    let col = problem.column().saturating_sub(1);
    let severity = if problem.is_error() {
        Severity::Error
    } else {
        Severity::Warning
    };
    Diagnostic {
        range: next_range(how.encoding, lines, walk, rule, line, col),
        severity,
        code: code_of(how, rule),
        message: problem.message(),
    }
}

/// Puts the diagnostics of the problems, the first of which starts a list.
fn put_problems<P: Pieces, S: Lines, A: Allocator>(
    to: &mut P,
    how: Presentation,
    lines: &S,
    problems: &[Problem<A>],
) -> Result<(), WriteFault>
    requires can { P.can_put to.old }
    requires lines { AreLines (S.rows lines.now) }
    ensures ok { OnOk result (P.puts to.old (diagnostics_text true (map (problem_diagnostic how (S.rows lines.now)) problems.now)) to.new) }
    ensures err { OnErr result (P.breaks to.old (diagnostics_text true (map (problem_diagnostic how (S.rows lines.now)) problems.now)) to.new) }
{
    let mut walk = Reached::start_of(0);
    for (i, problem) in problems.iter().enumerate() {
        let diagnostic = diagnostic_of(how, lines, &mut walk, problem);
        put_next(to, i == 0, &diagnostic)?;
    }
    Ok(())
}

/// Puts the number of problems that are not shown as the last diagnostic of a list, unless it is 0.
fn put_more<P: Pieces>(to: &mut P, is_first: bool, hidden: u64) -> Result<(), WriteFault>
    requires { P.can_put to.old }
    ensures ok { OnOk result (P.puts to.old (diagnostics_text is_first (more_diagnostics hidden)) to.new) }
    ensures err { OnErr result (P.breaks to.old (diagnostics_text is_first (more_diagnostics hidden)) to.new) }
{
    if hidden == 0 {
        return Ok(());
    }
    let mut digits = Buffer::new();
    put_parts(
        to,
        &[
            separator(is_first),
            b"{\"code\":\"more\",\"message\":\"",
            digits.format(hidden).as_bytes(),
            b" more problems\"",
        ],
    )?;
    put_tail(to, TEXT_START, Severity::Information)
}

/// Puts the diagnostics of a report: those of at most `how.most` problems, and the number of the
/// other problems if there are some.
pub(crate) fn put_report<P: Pieces, S: Lines>(
    to: &mut P,
    report: &Report<'_, S>,
) -> Result<(), WriteFault>
    requires { P.can_put to.old }
    ensures ok { OnOk result (P.puts to.old (diagnostics_text true (report_diagnostics report.now)) to.new) }
    ensures err { OnErr result (P.breaks to.old (diagnostics_text true (report_diagnostics report.now)) to.new) }
{
    let problems = report.problems;
    let shown = report.how.most.min(problems.len() as u64) as usize;
    put_problems(to, report.how, report.lines, &problems[..shown])?;
    put_more(to, shown == 0, (problems.len() - shown) as u64)
}
