//! Splits the problems of a text into those that are shown and those that are suppressed.
use crate::change::FoundProblems;
use crate::showing::Showing;
use std::alloc::{AllocError, Allocator};
use yl_report::Problem;

/// Returns the number of these problems that are shown.
fn count_shown<A: Allocator>(showing: &Showing<A>, problems: &[Problem<A>]) -> usize {
    let mut count: usize = 0;
    for problem in problems {
        if showing.shows(problem) {
            count = count.saturating_add(1);
        }
    }
    count
}

impl<A: Allocator + Copy> FoundProblems<A> {
    ghost use Rattle.std.specs.Prelude.{◌≡◌, IfOk};
    ghost use Rattle.yl_problem_lists.specs.Changes.{parts_in};
    ghost use Rattle.yl_problem_lists.specs.Parts.{parted};
    ghost use Rattle.yl_problem_lists.specs.Showing.{is_shown_by};

    /// Splits these problems into those that are shown and those that are suppressed. Each list is
    /// allocated once. The only error is out of memory.
    pub fn part(
        alloc: A,
        showing: &Showing<A>,
        problems: Vec<Problem<A>, A>,
    ) -> Result<FoundProblems<A>, AllocError>
        ensures { IfOk result (λ f. parts_in f ≡ parted (is_shown_by showing.now) problems.items) }
    {
        let count = count_shown(showing, &problems);
        let mut shown = Vec::with_capacity(alloc, count)?;
        let mut suppressed = Vec::with_capacity(alloc, problems.len().saturating_sub(count))?;
        for problem in problems {
            if showing.shows(&problem) {
                shown.push(problem)?;
            } else {
                suppressed.push(problem)?;
            }
        }
        Ok(FoundProblems { shown, suppressed })
    }
}
