use std::alloc::Allocator;
use std::marker::Model;
use yl_rules::Level;
use yl_text::{Finding, RuleId};

/// A problem of a report. Its line and its column count from 1, and the column counts characters.
#[derive(Drop)]
pub struct Problem<A: Allocator> {
    found: Finding<A>,
    level: Level,
}

impl<A: Allocator> Model for Problem<A> {
    ghost use Rattle.yl_report.specs.Report.{ProblemValue};

    ghost Value = { ProblemValue };

    ghost view = { λ p. record { line = p.found.line; column = p.found.column; level = p.level; rule = p.found.rule; message = p.found.message } };
}

impl<A: Allocator> Problem<A> {
    ghost use Rattle.std.specs.Prelude.{◌≡◌};
    ghost use Rattle.yl_report.specs.Report.{is_error};

    /// Creates a problem from a finding and a level.
    pub fn new(found: Finding<A>, level: Level) -> Problem<A>
        ensures { result ≡ record { line = found.line; column = found.column; level = level; rule = found.rule; message = found.message } }
    {
        Problem { found, level }
    }

    /// Returns the line, counted from 1.
    pub fn line(&self) -> u64
        ensures { result ≡ self.now.line }
    {
        self.found.line()
    }

    /// Sets the line. Does not allocate.
    pub fn set_line(&mut self, line: u64)
        ensures { self.new ≡ record { line = line; column = self.old.column; level = self.old.level; rule = self.old.rule; message = self.old.message } }
    {
        self.found.set_line(line);
    }

    /// Returns the column, in characters, counted from 1.
    pub fn column(&self) -> u64
        ensures { result ≡ self.now.column }
    {
        self.found.column()
    }

    /// Returns the level.
    pub fn level(&self) -> Level
        ensures { result ≡ self.now.level }
    {
        self.level
    }

    /// Returns `true` if the level is `Level::Error`.
    pub fn is_error(&self) -> bool
        ensures { result ≡ is_error self.now.level }
    {
        matches!(self.level, Level::Error)
    }

    /// Returns the rule.
    pub fn rule(&self) -> RuleId
        ensures { result ≡ self.now.rule }
    {
        self.found.rule()
    }

    /// Returns the message.
    pub fn message(&self) -> &str
        ensures { result.now ≡ self.now.message }
    {
        self.found.message()
    }
}

ghost use Rattle.std.specs.Prelude.{◌≡◌, not};
ghost use Rattle.std.specs.List.{list_any};
ghost use Rattle.yl_report.specs.Report.{is_error, status_of};

fn has_error<A: Allocator>(problems: &[Problem<A>]) -> bool
    ensures { result ≡ list_any (λ p. is_error p.level) problems.now }
{
    problems.iter().any(|problem| problem.is_error())
}

fn has_warning<A: Allocator>(problems: &[Problem<A>]) -> bool
    ensures { result ≡ list_any (λ p. not (is_error p.level)) problems.now }
{
    problems.iter().any(|problem| !problem.is_error())
}

/// Returns the exit status of a report: 1 if it has an error, else 2 if it has a warning and
/// `strict` is set, else 0. Problems that are not printed count too.
pub fn status<A: Allocator>(problems: &[Problem<A>], strict: bool) -> u8
    ensures { result ≡ status_of problems.now strict }
{
    if has_error(problems) {
        1
    } else if strict && has_warning(problems) {
        2
    } else {
        0
    }
}
