//! Decides whether the indentation below an edit is judged as before.
ghost use Rattle.std.specs.Prelude.{◌≡◌, ◌≤◌, true, length, drop};
ghost use Rattle.yl_summary.specs.Edit.{IsSectionEdit};
ghost use Rattle.yl_patch.specs.Seen.{AreFoundAlike, measure_upto, sections_between};

use std::alloc::Allocator;
use yl_chunks::Chunks;
use yl_indentation::{Measure, are_judged_alike};
use yl_sections::Kept;
use yl_summary::SectionEdit;

/// Returns `true` only if the same is found in the sections from index `end` on, whether the facts
/// before them have the measure `one` or the measure `other`. Looks at no further section once both
/// measures are the same.
fn is_alike_below<A: Allocator + Copy>(
    kept: &Chunks<Kept<A>, A>,
    end: usize,
    one: Measure,
    other: Measure,
) -> bool
    requires { end ≤ length kept.now.items }
    ensures { result ≡ true → AreFoundAlike one other (drop end kept.now.items) }
{
    let mut first = one;
    let mut second = other;
    for i in end..kept.len() {
        if first.is_same(second) {
            return true;
        }
        let next = kept.get(i);
        if !are_judged_alike(next.facts(), first, second) {
            return false;
        }
        let more = next.measure();
        first = first.and_later(more);
        second = second.and_later(more);
    }
    true
}

/// Returns `true` only if the edit leaves what is found in the sections below it, except for the
/// lines.
pub fn leaves_below<A: Allocator + Copy>(edit: &SectionEdit<'_, A>) -> bool
    requires { IsSectionEdit edit.now }
    ensures { result ≡ true → AreFoundAlike (measure_upto edit.now.above.whole (sections_between edit.now.from edit.now.end edit.now.sections.now.items)) (measure_upto edit.now.above.whole edit.now.kept.now) (drop edit.now.end edit.now.sections.now.items) }
{
    let above = edit.above.whole;
    let one = above.and_later(edit.gone.whole);
    let other = above.and_later(edit.come.whole);
    is_alike_below(edit.sections, edit.end, one, other)
}
