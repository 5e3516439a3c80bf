//! Problems of the rule indentation below some lines, replaced by those that are found again.
ghost use Rattle.std.specs.Prelude.{◌≡◌, ◌+◌, ◌≤◌, ℕ, [], ◌++◌, reverse, vec_len, vec_capacity};
ghost use Rattle.std.specs.List.{AllByRecursion, filter};
ghost use Rattle.yl_problem_lists.specs.Order.{IsInOrder, merged};
ghost use Rattle.yl_problem_lists.specs.Parts.{IsLow, stays_judged};
ghost use Rattle.yl_problem_lists.specs.Rooms.{IsIndentation, IsRoomFor};
ghost use Rattle.yl_problem_lists.specs.Showing.{is_indentation};

use crate::merging::take_behind;
use std::alloc::Allocator;
use yl_report::Problem;
use yl_text::RuleId;

/// Returns `true` if this is the rule indentation, which judges a line by the lines above it.
pub fn is_indentation(rule: RuleId) -> bool
    ensures { result ≡ is_indentation rule }
{
    matches!(rule, RuleId::Indentation)
}

/// Removes the problems of the rule indentation below the first `line` lines.
pub fn drop_indentation<A: Allocator>(problems: &mut Vec<Problem<A>, A>, line: u32)
    ensures items { problems.new.items ≡ filter (stays_judged line) problems.old.items }
    ensures len { vec_len problems.new ≤ vec_len problems.old }
    ensures room { vec_capacity problems.new ≡ vec_capacity problems.old }
{
    let line = u64::from(line);
    problems.retain(|problem| problem.line() <= line || !is_indentation(problem.rule()));
}

/// Appends all problems of `spare`, the last one first, and leaves `spare` empty. Does not
/// allocate.
fn push_back<A: Allocator>(problems: &mut Vec<Problem<A>, A>, spare: &mut Vec<Problem<A>, A>)
    requires { vec_len problems.old + vec_len spare.old ≤ vec_capacity problems.old }
    ensures items { problems.new.items ≡ problems.old.items ++ reverse spare.old.items }
    ensures len { vec_len problems.new ≡ vec_len problems.old + vec_len spare.old }
    ensures room { vec_capacity problems.old ≤ vec_capacity problems.new }
    ensures spare { spare.new.items ≡ [] }
    ensures spare_room { vec_capacity spare.new ≡ vec_capacity spare.old }
{
    while let Some(problem) = spare.pop() {
        problems.push(problem).unwrap();
    }
}

/// Merges problems of the rule indentation below the first `line` lines into a list. Both lists
/// must be in order. The list and the empty list `spare` must have room for all problems of both.
/// Does not allocate.
pub fn merge_indentation<A: Allocator>(
    problems: &mut Vec<Problem<A>, A>,
    mut new: Vec<Problem<A>, A>,
    line: u32,
    spare: &mut Vec<Problem<A>, A>,
)
    requires order { IsInOrder problems.old.items }
    requires low { AllByRecursion IsLow problems.old.items }
    requires new { IsIndentation line new.items }
    requires room { vec_len problems.old + vec_len new ≤ vec_capacity problems.old }
    requires spare { IsRoomFor (vec_len problems.old + vec_len new) spare.old }
    ensures items { problems.new.items ≡ merged problems.old.items new.items }
    ensures len { vec_len problems.new ≤ vec_len problems.old + vec_len new }
    ensures room { vec_capacity problems.old ≤ vec_capacity problems.new }
    ensures spare { (n : ℕ) → IsRoomFor n spare.old → IsRoomFor n spare.new }
{
    take_behind(problems, &mut new, line, line, spare);
    push_back(problems, spare);
}
