//! The order of the problems of a report.
ghost use Rattle.std.specs.Prelude.{◌≡◌};
ghost use Rattle.yl_report.specs.Report.{order_in_line, order_in_place};
ghost use Rattle.yl_report.specs.Told.{finding_told};
ghost use Rattle.yl_problem_lists.specs.Order.{comes_before, problem_order};

use std::alloc::Allocator;
use std::cmp::Ordering;
use yl_report::Problem;

/// Compares two problems by rule name and message.
fn compare_in_place<A: Allocator>(a: &Problem<A>, b: &Problem<A>) -> Ordering
    ensures { result ≡ order_in_place (finding_told a.now) (finding_told b.now) }
{
    match a.rule().name().cmp(b.rule().name()) {
        Ordering::Equal => a.message().cmp(b.message()),
        apart => apart,
    }
}

/// Compares two problems by column, rule name and message.
fn compare_in_line<A: Allocator>(a: &Problem<A>, b: &Problem<A>) -> Ordering
    ensures { result ≡ order_in_line (finding_told a.now) (finding_told b.now) }
{
    match a.column().cmp(&b.column()) {
        Ordering::Equal => compare_in_place(a, b),
        apart => apart,
    }
}

/// Compares two problems by line, column, rule name and message.
fn compare<A: Allocator>(a: &Problem<A>, b: &Problem<A>) -> Ordering
    ensures { result ≡ problem_order a.now b.now }
{
    match a.line().cmp(&b.line()) {
        Ordering::Equal => compare_in_line(a, b),
        apart => apart,
    }
}

/// Returns `true` if the former problem comes before the latter in a report.
pub fn comes_before<A: Allocator>(a: &Problem<A>, b: &Problem<A>) -> bool
    ensures { result ≡ comes_before a.now b.now }
{
    matches!(compare(a, b), Ordering::Less)
}
