//! Places of problems in a list that is in order.
ghost use Rattle.std.specs.Prelude.{◌≡◌, ◌≤◌, length};
ghost use Rattle.std.specs.List.{prefix_len};
ghost use Rattle.yl_report.specs.Report.{ProblemValue};
ghost use Rattle.yl_problem_lists.specs.Order.{IsInOrder, comes_before};
ghost use Rattle.yl_problem_lists.specs.Parts.{is_upto};

use crate::comparing::comes_before;
use std::alloc::Allocator;
use yl_report::Problem;

/// Returns the number of problems in the first `line` lines.
pub fn count_upto<A: Allocator>(problems: &[Problem<A>], line: u64) -> usize
    requires { IsInOrder problems.now }
    ensures count { result ≡ prefix_len (is_upto line) problems.now }
    ensures within { result ≤ length problems.now }
{
    problems.partition_point(|problem| problem.line() <= line)
}

/// Returns the number of problems before the first one that does not come before `problem`.
pub fn count_before<A: Allocator>(problems: &[Problem<A>], problem: &Problem<A>) -> usize
    ensures count { result ≡ prefix_len (λ (q : ProblemValue). comes_before q problem.now) problems.now }
    ensures within { result ≤ length problems.now }
{
    for (i, other) in problems.iter().enumerate() {
        if !comes_before(other, problem) {
            return i;
        }
    }
    problems.len()
}
