//! Makes a change of both lists.
ghost use Rattle.std.specs.Prelude.{◌≡◌, ◌+◌, ◌≤◌, OnOk, vec_len, vec_capacity};
ghost use Rattle.yl_problem_lists.specs.Order.{put_in};
ghost use Rattle.yl_problem_lists.specs.Rooms.{count_anew, crossing, fault_count};

use crate::change::{Change, FoundProblems, LinesPatch, Spare};
use crate::judging::{drop_indentation, is_indentation, merge_indentation};
use crate::merging::{give_back, keep_above, take_behind};
use crate::places::{count_before, count_upto};
use crate::shifting::put_lines;
use crate::showing::Showing;
use std::alloc::{AllocError, Allocator};
use yl_report::{Problem, is_syntax};

/// Returns the number of problems that may come from the other list, which holds `count` problems:
/// all of them if the problems below are split again, else 0.
fn count_crossing<A: Allocator>(below: &Option<Showing<A>>, count: usize) -> usize
    ensures { result ≡ crossing below.now count }
{
    match below {
        Some(_) => count,
        None => 0,
    }
}

/// A list with room for at most four times this many problems is not replaced by a smaller one,
/// however few problems are left in it.
const LEAST: usize = 16;

/// Returns 1 if there is a fault, else 0.
fn count_fault<A: Allocator>(fault: &Option<Problem<A>>) -> usize
    ensures { result ≡ fault_count fault.now }
{
    match fault {
        Some(_) => 1,
        None => 0,
    }
}

/// Returns the number of problems of the rule indentation that a patch puts in below its lines.
fn count_indentation<A: Allocator>(indentation: &Option<Vec<Problem<A>, A>>) -> usize
    ensures { result ≡ count_anew indentation.now }
{
    match indentation {
        Some(new) => new.len(),
        None => 0,
    }
}

/// Returns the number of problems below the first `line` lines that are not of the rule
/// indentation.
fn count_others<A: Allocator>(problems: &[Problem<A>], line: u64) -> usize {
    let mut count: usize = 0;
    for problem in problems {
        if problem.line() > line && !is_indentation(problem.rule()) {
            count = count.saturating_add(1);
        }
    }
    count
}

/// Returns the number of problems of a list that a patch leaves in it: those in the first `first`
/// lines, and those below the first `old_end` lines. Leaves out the indentation below if the patch
/// judges it again. Only then does the call look at each problem.
fn count_left<A: Allocator>(problems: &[Problem<A>], patch: &LinesPatch<A>) -> usize {
    let (first, end) = (u64::from(patch.first), u64::from(patch.old_end));
    let above = problems.partition_point(|problem| problem.line() <= first);
    if patch.indentation.is_some() {
        return above.saturating_add(count_others(problems, end));
    }
    let upto = problems.partition_point(|problem| problem.line() <= end);
    above.saturating_add(problems.len().saturating_sub(upto))
}

/// Returns a new list with room for `count` problems, or `None` if a list with room for `room`
/// problems is not far too large for them. The only error is out of memory.
fn fitting<A: Allocator>(
    alloc: A,
    room: usize,
    count: usize,
) -> Result<Option<Vec<Problem<A>, A>>, AllocError> {
    if room / 4 <= count.max(LEAST) {
        return Ok(None);
    }
    let list = Vec::with_capacity(alloc, count)?;
    Ok(Some(list))
}

/// Moves the problems into the list `fitting`, if there is one and it has room for them. Does not
/// allocate.
fn settle<A: Allocator>(problems: &mut Vec<Problem<A>, A>, fitting: Option<Vec<Problem<A>, A>>)
    ensures { problems.new.items ≡ problems.old.items }
{
    let Some(mut list) = fitting else {
        return;
    };
    if list.is_empty() && problems.len() <= list.capacity() {
        list.append(problems).unwrap();
        *problems = list;
    }
}

/// Inserts a problem in its place in the order of a report. The list must have room for it. Does
/// not allocate.
fn put_in<A: Allocator>(problems: &mut Vec<Problem<A>, A>, problem: Problem<A>)
    requires { vec_len problems.old + 1 ≤ vec_capacity problems.old }
    ensures { problems.new.items ≡ put_in problem problems.old.items }
{
    let place = count_before(problems, &problem);
    problems.insert(place, problem).unwrap();
}

impl<A: Allocator + Copy> FoundProblems<A> {
    ghost use Rattle.std.specs.Prelude.{◌≡◌, ◌+◌, ◌≤◌, ℕ, true, IfOk, IfSome, IsSome, IsNone, OnErr, OnOk, vec_len, vec_capacity};
    ghost use Rattle.std.specs.List.{AllByRecursion};
    ghost use Rattle.std.specs.Option.{option_map};
    ghost use Rattle.yl_problem_lists.specs.Changes.{parts_in, patch_in, patched, patched_lines, renewed};
    ghost use Rattle.yl_problem_lists.specs.Order.{IsInOrder};
    ghost use Rattle.yl_problem_lists.specs.Parts.{IsLow, judged_again, with_fault, without_fault};
    ghost use Rattle.yl_problem_lists.specs.Rooms.{AreOrdered, HasRoom, HasRoomFor, IsIndentation, IsReady, IsReadyFor, IsRoomFor, ToldFault, count_anew, crossing, fault_count};

    /// Removes the text's fault from the shown problems. `had_fault` may be false only if there is
    /// none.
    fn take_fault(&mut self, had_fault: bool)
        requires { ToldFault had_fault self.old.shown.items }
        ensures parts { parts_in self.new ≡ without_fault (parts_in self.old) }
        ensures len { vec_len self.new.shown ≤ vec_len self.old.shown }
        ensures room { vec_capacity self.new.shown ≡ vec_capacity self.old.shown }
        ensures others { self.new.suppressed ≡ self.old.suppressed }
    {
        if had_fault {
            self.shown.retain(|problem| !is_syntax(problem.rule()));
        }
    }

    /// Inserts the text's fault, if there is one, in its place among the shown problems. The list
    /// must have room for it. Does not allocate.
    fn put_fault(&mut self, fault: Option<Problem<A>>)
        requires { vec_len self.old.shown + fault_count fault ≤ vec_capacity self.old.shown }
        ensures { parts_in self.new ≡ with_fault fault (parts_in self.old) }
    {
        if let Some(fault) = fault {
            put_in(&mut self.shown, fault);
        }
    }

    /// Inserts the text's fault, if there is one, in its place among the shown problems. The only
    /// error is out of memory, after which both lists hold what they held.
    pub fn add_fault(&mut self, fault: Option<Problem<A>>) -> Result<(), AllocError>
        ensures put { OnOk result (parts_in self.new ≡ with_fault fault (parts_in self.old)) }
        ensures refused { OnErr result (parts_in self.new ≡ parts_in self.old) }
    {
        self.shown.try_reserve(count_fault(&fault))?;
        self.put_fault(fault);
        Ok(())
    }

    /// Replaces the problems of the rule indentation below the first `line` lines by `indentation`,
    /// if it is there. The new ones go among the suppressed problems, so all problems below these
    /// lines must be split again afterwards. Does not allocate.
    fn judge_again(
        &mut self,
        line: u32,
        indentation: Option<Vec<Problem<A>, A>>,
        spare: &mut Vec<Problem<A>, A>,
    )
        requires ordered { AreOrdered (parts_in self.old) }
        requires new { IfSome indentation (λ new. IsIndentation line new.items) }
        requires room { vec_len self.old.suppressed + count_anew indentation ≤ vec_capacity self.old.suppressed }
        requires spare { IsRoomFor (crossing indentation (vec_len self.old.suppressed + count_anew indentation)) spare.old }
        ensures parts { parts_in self.new ≡ judged_again line (option_map (λ v. v.items) indentation) (parts_in self.old) }
        ensures shown { vec_len self.new.shown ≤ vec_len self.old.shown }
        ensures shown_room { vec_capacity self.new.shown ≡ vec_capacity self.old.shown }
        ensures suppressed { vec_len self.new.suppressed ≤ vec_len self.old.suppressed + count_anew indentation }
        ensures suppressed_room { vec_capacity self.old.suppressed ≤ vec_capacity self.new.suppressed }
        ensures spare { (n : ℕ) → IsRoomFor n spare.old → IsRoomFor n spare.new }
    {
        let Some(new) = indentation else {
            return;
        };
        drop_indentation(&mut self.shown, line);
        drop_indentation(&mut self.suppressed, line);
        merge_indentation(&mut self.suppressed, new, line, spare);
    }

    /// Patches both lists, where each problem below stays in its list. Returns the text's fault,
    /// which is not put in yet. Does not allocate.
    fn put_both(&mut self, patch: LinesPatch<A>) -> Option<Problem<A>>
        requires lines { patch.first ≤ patch.old_end }
        requires ordered { AreOrdered (parts_in self.old) }
        requires shown_room { vec_len self.old.shown + vec_len patch.shown + fault_count patch.fault ≤ vec_capacity self.old.shown }
        requires suppressed_room { vec_len self.old.suppressed + vec_len patch.suppressed ≤ vec_capacity self.old.suppressed }
        requires still { IsNone patch.below }
        ensures parts { parts_in self.new ≡ patched_lines (patch_in patch) (parts_in self.old) }
        ensures fault { result ≡ patch.fault }
        ensures room { vec_len self.new.shown + fault_count patch.fault ≤ vec_capacity self.new.shown }
    {
        let LinesPatch {
            first,
            old_end,
            new_end,
            mut shown,
            mut suppressed,
            fault,
            ..
        } = patch;
        put_lines(&mut self.shown, first, old_end, new_end, &mut shown);
        put_lines(
            &mut self.suppressed,
            first,
            old_end,
            new_end,
            &mut suppressed,
        );
        fault
    }

    /// Patches both lists, where the problems below are split again. Returns the text's fault,
    /// which is not put in yet. Does not allocate.
    fn part_anew(
        &mut self,
        patch: LinesPatch<A>,
        mut spare: Vec<Problem<A>, A>,
    ) -> Option<Problem<A>>
        requires lines { patch.first ≤ patch.old_end }
        requires ordered { AreOrdered (parts_in self.old) }
        requires room { HasRoomFor self.old patch spare }
        requires anew { IsSome patch.below }
        ensures parts { parts_in self.new ≡ patched_lines (patch_in patch) (parts_in self.old) }
        ensures fault { result ≡ patch.fault }
        ensures room { vec_len self.new.shown + fault_count patch.fault ≤ vec_capacity self.new.shown }
    {
        let LinesPatch {
            first,
            old_end,
            new_end,
            mut shown,
            mut suppressed,
            indentation,
            below,
            fault,
            ..
        } = patch;
        drop(indentation);
        take_behind(
            &mut self.shown,
            &mut self.suppressed,
            old_end,
            new_end,
            &mut spare,
        );
        keep_above(&mut self.shown, first);
        keep_above(&mut self.suppressed, first);
        self.shown.append(&mut shown).unwrap();
        self.suppressed.append(&mut suppressed).unwrap();
        if let Some(below) = &below {
            give_back(&mut self.shown, &mut self.suppressed, spare, below);
        }
        fault
    }

    /// Patches both lists. Returns the text's fault, which is not put in yet. Does not allocate.
    fn put_parts(&mut self, patch: LinesPatch<A>, spare: Vec<Problem<A>, A>) -> Option<Problem<A>>
        requires lines { patch.first ≤ patch.old_end }
        requires ordered { AreOrdered (parts_in self.old) }
        requires room { HasRoomFor self.old patch spare }
        ensures parts { parts_in self.new ≡ patched_lines (patch_in patch) (parts_in self.old) }
        ensures fault { result ≡ patch.fault }
        ensures room { vec_len self.new.shown + fault_count patch.fault ≤ vec_capacity self.new.shown }
    {
        if patch.below.is_some() {
            self.part_anew(patch, spare)
        } else {
            self.put_both(patch)
        }
    }

    /// Patches both lists. Removes the text's fault from before the edit, and puts in that of the
    /// patch. Does not allocate.
    fn patch_lines(&mut self, mut patch: LinesPatch<A>, mut spare: Vec<Problem<A>, A>)
        requires room { HasRoomFor self.old patch spare }
        requires ready { IsReadyFor patch (parts_in self.old) }
        ensures { parts_in self.new ≡ with_fault patch.fault (patched (patch_in patch) (without_fault (parts_in self.old))) }
    {
        self.take_fault(patch.had_fault);
        let indentation = patch.indentation.take();
        self.judge_again(patch.old_end, indentation, &mut spare);
        let fault = self.put_parts(patch, spare);
        self.put_fault(fault);
    }

    /// Makes room in both lists for the problems that the patch puts in. Returns an empty list with
    /// room for the problems that it takes out and puts back. The only error is out of memory. Both
    /// lists hold what they held, also after an error.
    fn make_room_for(
        &mut self,
        alloc: A,
        patch: &LinesPatch<A>,
    ) -> Result<Vec<Problem<A>, A>, AllocError>
        ensures shown { self.new.shown.items ≡ self.old.shown.items }
        ensures suppressed { self.new.suppressed.items ≡ self.old.suppressed.items }
        ensures room { IfOk result (λ spare. HasRoomFor self.new patch.now spare) }
    {
        let anew = count_indentation(&patch.indentation);
        let Some(suppressed) = self.suppressed.len().checked_add(anew) else {
            return Err(AllocError);
        };
        let from_suppressed = count_crossing(&patch.below, suppressed);
        let from_shown = count_crossing(&patch.below, self.shown.len());
        let Some(count) = from_suppressed.checked_add(from_shown) else {
            return Err(AllocError);
        };
        let Some(more_shown) = patch.shown.len().checked_add(from_suppressed) else {
            return Err(AllocError);
        };
        let Some(and_fault) = more_shown.checked_add(count_fault(&patch.fault)) else {
            return Err(AllocError);
        };
        let Some(more_suppressed) = patch.suppressed.len().checked_add(from_shown) else {
            return Err(AllocError);
        };
        let Some(and_anew) = more_suppressed.checked_add(anew) else {
            return Err(AllocError);
        };
        self.shown.try_reserve(and_fault)?;
        self.suppressed.try_reserve(and_anew)?;
        let spare = Vec::with_capacity(alloc, count)?;
        Ok(spare)
    }

    /// Allocates smaller lists in place of those that the patch would leave with far more room than
    /// they need. The only error is out of memory.
    fn lists_that_fit(
        &self,
        alloc: A,
        taken: Vec<Problem<A>, A>,
        patch: &LinesPatch<A>,
    ) -> Result<Spare<A>, AllocError>
        ensures { IfOk result (λ spare. spare.taken ≡ taken) }
    {
        let anew = count_indentation(&patch.indentation);
        let shown = count_left(&self.shown, patch);
        let suppressed = count_left(&self.suppressed, patch).saturating_add(anew);
        let most_shown = shown
            .saturating_add(count_crossing(&patch.below, suppressed))
            .saturating_add(patch.shown.len())
            .saturating_add(count_fault(&patch.fault));
        let most_suppressed = suppressed
            .saturating_add(count_crossing(&patch.below, shown))
            .saturating_add(patch.suppressed.len());
        let shown = fitting(alloc, self.shown.capacity(), most_shown)?;
        let suppressed = fitting(alloc, self.suppressed.capacity(), most_suppressed)?;
        Ok(Spare {
            taken,
            shown,
            suppressed,
        })
    }

    /// Makes room for what the change puts in, and returns the lists that `renew` needs. The only
    /// error is out of memory. Both lists hold what they held, also after an error.
    pub fn make_room(&mut self, alloc: A, change: &Change<A>) -> Result<Spare<A>, AllocError>
        ensures parts { parts_in self.new ≡ parts_in self.old }
        ensures room { IfOk result (λ spare. HasRoom self.new change.now spare) }
    {
        match change {
            Change::Patch(patch) => {
                let taken = self.make_room_for(alloc, patch)?;
                self.lists_that_fit(alloc, taken, patch)
            }
            Change::Stay => Ok(Spare {
                taken: Vec::new(alloc),
                shown: None,
                suppressed: None,
            }),
        }
    }

    /// Makes the change. `make_room` must have made room for it. Does not allocate.
    pub fn renew(&mut self, change: Change<A>, spare: Spare<A>)
        requires room { HasRoom self.old change spare }
        requires ready { IsReady change (parts_in self.old) }
        ensures { parts_in self.new ≡ renewed change (parts_in self.old) }
    {
        let Change::Patch(patch) = change else {
            return;
        };
        let Spare {
            taken,
            shown,
            suppressed,
        } = spare;
        self.patch_lines(patch, taken);
        settle(&mut self.shown, shown);
        settle(&mut self.suppressed, suppressed);
    }
}
