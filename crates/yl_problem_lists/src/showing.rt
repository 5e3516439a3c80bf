//! Decides which of the problems that are found in a text are shown.
ghost use Rattle.std.specs.Prelude.{◌≡◌};
ghost use Rattle.yl_problem_lists.specs.Showing as spec;

use std::alloc::Allocator;
use yl_report::{Problem, Silences, is_syntax};
use yl_text::RuleId;

/// What decides which of the problems that are found in a text are shown.
#[derive(Drop)]
pub struct Showing<A: Allocator> {
    /// What the comments silence.
    pub silences: Silences<A>,
    /// The last line of the sections that are shown, counted from 1.
    pub last: u64,
}

/// Returns `true` if the rule is on lines, so that what it finds does not depend on the sections
/// that the lines are in.
pub fn is_of_lines(rule: RuleId) -> bool
    ensures { result ≡ spec.is_of_lines rule }
{
    matches!(
        rule,
        RuleId::EmptyLines
            | RuleId::LineLength
            | RuleId::NewLineAtEndOfFile
            | RuleId::NewLines
            | RuleId::TrailingSpaces
    )
}

impl<A: Allocator> Showing<A> {
    ghost use Rattle.std.specs.Prelude.{◌≡◌};
    ghost use Rattle.yl_report.specs.Heard.{is_heard};
    ghost use Rattle.yl_report.specs.Silence.{is_silenced_at};
    ghost use Rattle.yl_problem_lists.specs.Showing.{is_hidden, is_shown_by};

    /// Returns `true` if the first section with a fault hides the problem.
    fn hides(&self, problem: &Problem<A>) -> bool
        ensures { result ≡ is_hidden self.now.last problem.now }
    {
        problem.line() > self.last && !is_of_lines(problem.rule())
    }

    /// Returns `true` if no comment silences the problem in its line. A comment never silences the
    /// text's fault in its line.
    fn hears(&self, problem: &Problem<A>) -> bool
        ensures { result ≡ is_heard (is_silenced_at self.now.silences) problem.now }
    {
        let line = problem.line().saturating_sub(1);
        is_syntax(problem.rule()) || !self.silences.is_silenced(problem.rule(), line)
    }

    /// Returns `true` if the problem is shown.
    #[tactic(auto, unfolding(crate::specs::Showing::is_shown_by))]
    pub fn shows(&self, problem: &Problem<A>) -> bool
        ensures { result ≡ is_shown_by self.now problem.now }
    {
        if self.silences.is_file_silenced() || self.hides(problem) {
            return false;
        }
        self.hears(problem)
    }
}
