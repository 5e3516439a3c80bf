//! Takes the problems below some lines out of two lists, and gives them back.
ghost use Rattle.std.specs.Prelude.{◌≡◌, ◌+◌, ◌≤◌, not, [], ◌++◌, reverse, vec_len, vec_capacity};
ghost use Rattle.std.specs.List.{filter};
ghost use Rattle.yl_report.specs.Report.{ProblemValue};
ghost use Rattle.yl_problem_lists.specs.Later.{ends_later};
ghost use Rattle.yl_problem_lists.specs.Order.{IsInOrder};
ghost use Rattle.yl_problem_lists.specs.Parts.{above, behind};
ghost use Rattle.yl_problem_lists.specs.Popped.{IsTaken, PopsBehind, PopsLast};
ghost use Rattle.yl_problem_lists.specs.Rooms.{AreOrdered, IsRoomFor};
ghost use Rattle.yl_problem_lists.specs.Showing.{is_shown_by};

use crate::comparing::comes_before;
use crate::places::count_upto;
use crate::shifting::shift;
use crate::showing::Showing;
use std::alloc::Allocator;
use yl_report::Problem;

/// Returns `true` if `one` has a last problem, and this problem comes after the last one of
/// `other`, if there is one.
fn ends_later<A: Allocator>(one: &[Problem<A>], other: &[Problem<A>]) -> bool
    ensures { result ≡ ends_later one.now other.now }
{
    let Some(last) = one.last() else {
        return false;
    };
    let Some(next) = other.last() else {
        return true;
    };
    comes_before(next, last)
}

/// Removes and returns the last problem, if it is below the first `line` lines.
fn pop_behind<A: Allocator>(problems: &mut Vec<Problem<A>, A>, line: u64) -> Option<Problem<A>>
    ensures popped { PopsBehind line problems.old.items problems.new.items result }
    ensures room { vec_capacity problems.new ≡ vec_capacity problems.old }
{
    let is_behind = match problems.last() {
        Some(last) => last.line() > line,
        None => false,
    };
    if !is_behind {
        return None;
    }
    problems.pop()
}

/// Removes and returns the last problem of both lists, if it is below the first `line` lines.
fn pop_last<A: Allocator>(
    shown: &mut Vec<Problem<A>, A>,
    suppressed: &mut Vec<Problem<A>, A>,
    line: u64,
) -> Option<Problem<A>>
    requires shown { IsInOrder shown.old.items }
    requires suppressed { IsInOrder suppressed.old.items }
    ensures popped { PopsLast line shown.old.items suppressed.old.items shown.new.items suppressed.new.items result }
    ensures shown_room { vec_capacity shown.new ≡ vec_capacity shown.old }
    ensures suppressed_room { vec_capacity suppressed.new ≡ vec_capacity suppressed.old }
{
    if ends_later(shown, suppressed) {
        pop_behind(shown, line)
    } else {
        pop_behind(suppressed, line)
    }
}

/// Moves all problems below the first `old_end` lines out of both lists into `spare`, the last one
/// first. Each moves up by `old_end` lines and down by `new_end` lines. Does not allocate.
pub fn take_behind<A: Allocator>(
    shown: &mut Vec<Problem<A>, A>,
    suppressed: &mut Vec<Problem<A>, A>,
    old_end: u32,
    new_end: u32,
    spare: &mut Vec<Problem<A>, A>,
)
    requires ordered { AreOrdered (record { shown = shown.old.items; suppressed = suppressed.old.items }) }
    requires room { IsRoomFor (vec_len shown.old + vec_len suppressed.old) spare.old }
    ensures taken { IsTaken old_end new_end shown.old.items suppressed.old.items shown.new.items suppressed.new.items spare.new.items }
    ensures shown { behind old_end shown.new.items ≡ [] }
    ensures suppressed { behind old_end suppressed.new.items ≡ [] }
    ensures shown_room { vec_capacity shown.new ≡ vec_capacity shown.old }
    ensures suppressed_room { vec_capacity suppressed.new ≡ vec_capacity suppressed.old }
    ensures spare_room { vec_capacity spare.old ≤ vec_capacity spare.new }
{
    while let Some(mut problem) = pop_last(shown, suppressed, u64::from(old_end)) {
        shift(&mut problem, old_end, new_end);
        spare.push(problem).unwrap();
    }
}

/// Removes the problems below the first `first` lines.
pub fn keep_above<A: Allocator>(problems: &mut Vec<Problem<A>, A>, first: u32)
    requires { IsInOrder problems.old.items }
    ensures items { problems.new.items ≡ above first problems.old.items }
    ensures len { vec_len problems.new ≤ vec_len problems.old }
    ensures room { vec_capacity problems.new ≡ vec_capacity problems.old }
{
    let count = count_upto(problems, u64::from(first));
    problems.truncate(count);
}

/// Moves the problems of `spare`, the last one first, to the ends of both lists: those that `below`
/// shows to `shown`, the others to `suppressed`. Does not allocate.
pub fn give_back<A: Allocator>(
    shown: &mut Vec<Problem<A>, A>,
    suppressed: &mut Vec<Problem<A>, A>,
    mut spare: Vec<Problem<A>, A>,
    below: &Showing<A>,
)
    requires shown_room { vec_len shown.old + vec_len spare ≤ vec_capacity shown.old }
    requires suppressed_room { vec_len suppressed.old + vec_len spare ≤ vec_capacity suppressed.old }
    ensures shown { shown.new.items ≡ shown.old.items ++ filter (is_shown_by below.now) (reverse spare.items) }
    ensures suppressed { suppressed.new.items ≡ suppressed.old.items ++ filter (λ (q : ProblemValue). not (is_shown_by below.now q)) (reverse spare.items) }
    ensures len { vec_len shown.new ≤ vec_len shown.old + vec_len spare }
    ensures room { vec_capacity shown.old ≤ vec_capacity shown.new }
{
    while let Some(problem) = spare.pop() {
        if below.shows(&problem) {
            shown.push(problem).unwrap();
        } else {
            suppressed.push(problem).unwrap();
        }
    }
}
