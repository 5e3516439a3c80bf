//! Overviews of some sections each, which together are all sections of a text.
ghost use Rattle.std.specs.Prelude.{◌≡◌, ◌-◌, ◌≤◌, ◌++◌, List, length, take, drop, IfOk, OnOk};
ghost use Rattle.yl_text.specs.Store.{IsRange};
ghost use Rattle.yl_sections.specs.Kept.{KeptValue};
ghost use Rattle.yl_sections.specs.Places.{IsAt};
ghost use Rattle.yl_summary.specs.Overview.{AreFew, AreOverviews, IsBorder, IsOverviewOf};

use crate::overview::Overview;
use crate::walking::overview_between;
use std::alloc::{AllocError, Allocator};
use yl_chunks::{Chunks, Spliced};
use yl_sections::{Kept, Place};

/// The number of sections of a new overview. The last of those that are made together is of all
/// sections that are left, fewer than twice as many. An edit makes overviews again from the border
/// above it down to a border that is at least half as many sections below that one, if there is
/// such a border.
pub const USUAL: usize = 32;

/// Returns the overview of all sections of which these are the overviews.
pub fn all_of(overviews: &[Overview]) -> Overview
    ensures { (ks : List KeptValue) → AreFew ks → AreOverviews ks overviews.now → IsOverviewOf ks result }
{
    let mut all = Overview::empty();
    for one in overviews {
        all = all.and_later(*one);
    }
    all
}

/// Appends overviews of the sections with the indices `from..end` to those of the sections before
/// them. The only error is out of memory.
pub fn push_overviews<A: Allocator + Copy>(
    sections: &Spliced<'_, Kept<A>, A>,
    from: usize,
    end: usize,
    overviews: &mut Vec<Overview, A>,
) -> Result<(), AllocError>
    requires range { IsRange from end (length sections.now) }
    requires few { AreFew sections.now }
    requires above { AreOverviews (take from sections.now) overviews.old.items }
    ensures { OnOk result (AreOverviews (take end sections.now) overviews.new.items) }
{
    let mut at = from;
    while at < end {
        let next = if end - at < 2 * USUAL {
            end
        } else {
            at + USUAL
        };
        overviews.push(overview_between(sections, at, next))?;
        at = next;
    }
    Ok(())
}

/// Returns overviews of all sections, one after another. The only error is out of memory.
pub fn overviews_of<A: Allocator + Copy>(
    alloc: A,
    kept: &Chunks<Kept<A>, A>,
) -> Result<Vec<Overview, A>, AllocError>
    requires { AreFew kept.now.items }
    ensures { IfOk result (λ v. AreOverviews kept.now.items v.items) }
{
    let mut overviews = Vec::new(alloc);
    let sections = Spliced::new(kept, 0, 0, &[]);
    push_overviews(&sections, 0, sections.len(), &mut overviews)?;
    Ok(overviews)
}

/// Returns the first section of the last overview that begins at or before row `row`, and the first
/// row of this section. Returns the end of all sections if they are all before this row. Rows count
/// from 0.
pub fn nearest<A: Allocator>(kept: &Chunks<Kept<A>, A>, overviews: &[Overview], row: usize) -> Place
    requires few { AreFew kept.now.items }
    requires overviews { AreOverviews kept.now.items overviews.now }
    ensures at { IsAt kept.now.items result }
    ensures above { result.row ≤ row }
{
    let _ = kept;
    let mut best = Place { section: 0, row: 0 };
    for one in overviews {
        let next = best.row.saturating_add(one.rows as usize);
        if next > row {
            return best;
        }
        best = Place {
            section: best.section.saturating_add(one.sections),
            row: next,
        };
    }
    best
}

/// A border between overviews.
#[derive(Clone, Copy)]
pub struct Border {
    /// The number of sections before the border.
    pub sections: usize,
    /// The number of overviews before the border.
    pub overviews: usize,
}

/// Returns the last border between overviews at or before section `from`, counted from 0.
pub fn border_upto<A: Allocator>(
    kept: &Chunks<Kept<A>, A>,
    overviews: &[Overview],
    from: usize,
) -> Border
    requires few { AreFew kept.now.items }
    requires overviews { AreOverviews kept.now.items overviews.now }
    ensures border { IsBorder kept.now.items overviews.now result.sections result.overviews }
    ensures upto { result.sections ≤ from }
{
    let _ = kept;
    let mut sections: usize = 0;
    for i in 0..overviews.len() {
        let next = sections.saturating_add(overviews[i].sections);
        if next > from {
            return Border {
                sections,
                overviews: i,
            };
        }
        sections = next;
    }
    Border {
        sections,
        overviews: overviews.len(),
    }
}

/// Returns the first border between overviews at or after section `end` that has at least half of
/// `USUAL` sections between `start` and it, or the border after all sections if there is none.
pub fn border_behind<A: Allocator>(
    kept: &Chunks<Kept<A>, A>,
    overviews: &[Overview],
    start: Border,
    end: usize,
) -> Border
    requires few { AreFew kept.now.items }
    requires start { IsBorder kept.now.items overviews.now start.sections start.overviews }
    requires within { end ≤ length kept.now.items }
    ensures border { IsBorder kept.now.items overviews.now result.sections result.overviews }
    ensures behind { end ≤ result.sections }
    ensures ordered { start.sections ≤ result.sections }
{
    let _ = kept;
    let mut sections = start.sections;
    for i in start.overviews..overviews.len() {
        if end <= sections && USUAL / 2 <= sections - start.sections {
            return Border {
                sections,
                overviews: i,
            };
        }
        sections = sections.saturating_add(overviews[i].sections);
    }
    Border {
        sections,
        overviews: overviews.len(),
    }
}
