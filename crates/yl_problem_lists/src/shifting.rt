//! Replaces the problems of some lines, and moves the problems below up or down.
ghost use Rattle.std.specs.Prelude.{◌≡◌, ◌+◌, ◌<◌, ◌≤◌, ◌++◌, take, drop, map, vec_len, vec_capacity};
ghost use Rattle.std.specs.List.{AllByRecursion, remove_range, slice_rotate_right, splice};
ghost use Rattle.yl_text.specs.Store.{IsRange};
ghost use Rattle.yl_problem_lists.specs.Order.{IsInOrder};
ghost use Rattle.yl_problem_lists.specs.Parts.{IsLow, above, behind, shifted};

use crate::places::count_upto;
use std::alloc::Allocator;
use yl_report::Problem;

/// Moves a problem up by `up` lines and then down by `down` lines.
pub fn shift<A: Allocator>(problem: &mut Problem<A>, up: u32, down: u32)
    requires { IsLow problem.old }
    ensures { problem.new ≡ shifted up down problem.old }
{
    let line = problem.line().saturating_sub(u64::from(up));
    problem.set_line(line + u64::from(down));
}

/// Moves the problems from index `from` on up by `up` lines and then down by `down` lines.
fn shift_from<A: Allocator>(problems: &mut Vec<Problem<A>, A>, from: usize, up: u32, down: u32)
    requires range { from ≤ vec_len problems.old }
    requires low { AllByRecursion IsLow problems.old.items }
    ensures items { problems.new.items ≡ take from problems.old.items ++ map (shifted up down) (drop from problems.old.items) }
    ensures room { vec_capacity problems.new ≡ vec_capacity problems.old }
{
    for i in from..problems.len() {
        shift(&mut problems[i], up, down);
    }
}

/// Moves the problems below the first `old_end` lines up by `old_end` lines and down by `new_end`
/// lines. Looks at none of them if the two numbers are the same.
fn shift_behind<A: Allocator>(problems: &mut Vec<Problem<A>, A>, old_end: u32, new_end: u32)
    requires order { IsInOrder problems.old.items }
    requires low { AllByRecursion IsLow problems.old.items }
    ensures items { problems.new.items ≡ above old_end problems.old.items ++ map (shifted old_end new_end) (behind old_end problems.old.items) }
    ensures room { vec_capacity problems.new ≡ vec_capacity problems.old }
{
    if old_end != new_end {
        let from = count_upto(problems, u64::from(old_end));
        shift_from(problems, from, old_end, new_end);
    }
}

/// Moves the last `count` problems to index `from`, before the others from there on.
fn move_last_to<A: Allocator>(problems: &mut Vec<Problem<A>, A>, from: usize, count: usize)
    requires { from + count ≤ vec_len problems.old }
    ensures items { problems.new.items ≡ take from problems.old.items
        ++ slice_rotate_right (drop from problems.old.items) count }
    ensures len { vec_len problems.new ≡ vec_len problems.old }
    ensures room { vec_capacity problems.new ≡ vec_capacity problems.old }
{
    problems[from..].rotate_right(count);
}

/// Removes the problems with the indices `a..b`.
fn remove_between<A: Allocator>(problems: &mut Vec<Problem<A>, A>, a: usize, b: usize)
    requires { IsRange a b (vec_len problems.old) }
    ensures items { problems.new.items ≡ remove_range problems.old.items a b }
    ensures room { vec_capacity problems.new ≡ vec_capacity problems.old }
{
    drop(problems.drain(a..b));
}

/// Moves the problems of `new` in place of those with the indices `a..b`. The list must have room
/// for them beside all others. Does not allocate.
fn put_between<A: Allocator>(
    problems: &mut Vec<Problem<A>, A>,
    a: usize,
    b: usize,
    new: &mut Vec<Problem<A>, A>,
)
    requires range { IsRange a b (vec_len problems.old) }
    requires room { vec_len problems.old + vec_len new.old ≤ vec_capacity problems.old }
    ensures items { problems.new.items ≡ splice problems.old.items a b new.old.items }
    ensures room { vec_capacity problems.old ≤ vec_capacity problems.new }
{
    let added = new.len();
    problems.append(new).unwrap();
    move_last_to(problems, a, added);
    remove_between(problems, a + added, b + added);
}

/// Moves the problems of `new` in place of those in the lines after the first `first`, up to
/// `old_end`. The problems below move up by `old_end` lines and down by `new_end` lines. The list
/// must have room for the new problems beside all others. Does not allocate.
pub fn put_lines<A: Allocator>(
    problems: &mut Vec<Problem<A>, A>,
    first: u32,
    old_end: u32,
    new_end: u32,
    new: &mut Vec<Problem<A>, A>,
)
    requires lines { first ≤ old_end }
    requires order { IsInOrder problems.old.items }
    requires low { AllByRecursion IsLow problems.old.items }
    requires room { vec_len problems.old + vec_len new.old ≤ vec_capacity problems.old }
    ensures items { problems.new.items ≡ above first problems.old.items ++ (new.old.items ++ map (shifted old_end new_end) (behind old_end problems.old.items)) }
    ensures len { vec_len problems.new ≤ vec_len problems.old + vec_len new.old }
    ensures room { vec_capacity problems.old ≤ vec_capacity problems.new }
{
    let from = count_upto(problems, u64::from(first));
    let end = count_upto(problems, u64::from(old_end));
    shift_behind(problems, old_end, new_end);
    put_between(problems, from, end, new);
}
