//! Overviews made by a walk over sections.
ghost use Rattle.std.specs.Prelude.{◌≡◌, ◌-◌, length, take, drop};
ghost use Rattle.yl_text.specs.Store.{IsRange};
ghost use Rattle.yl_summary.specs.Overview.{AreFew, IsOverviewOf};

use crate::overview::Overview;
use std::alloc::Allocator;
use yl_chunks::{Chunks, Spliced};
use yl_sections::Kept;

/// Returns the overview of these sections.
pub fn overview_of<A: Allocator>(kept: &[Kept<A>]) -> Overview
    requires { AreFew kept.now }
    ensures { IsOverviewOf kept.now result }
{
    let mut overview = Overview::empty();
    for one in kept {
        overview.count(one);
    }
    overview
}

/// Returns the overview of the sections with the indices `from..end`, counted from 0. Takes a chunk
/// of them at a time.
pub fn overview_within<A: Allocator + Copy>(
    kept: &Chunks<Kept<A>, A>,
    from: usize,
    end: usize,
) -> Overview
    requires range { IsRange from end (length kept.now.items) }
    requires few { AreFew kept.now.items }
    ensures { IsOverviewOf (take (end - from) (drop from kept.now.items)) result }
{
    let mut overview = Overview::empty();
    let mut at = from;
    while at < end {
        let items = kept.items_from(at);
        let count = items.len().min(end - at);
        overview = overview.and_later(overview_of(&items[..count]));
        at += count;
    }
    overview
}

/// Returns the overview of the sections with the indices `from..end`, counted from 0, of a list of
/// which some are replaced.
pub fn overview_between<A: Allocator + Copy>(
    sections: &Spliced<'_, Kept<A>, A>,
    from: usize,
    end: usize,
) -> Overview
    requires range { IsRange from end (length sections.now) }
    requires few { AreFew sections.now }
    ensures { IsOverviewOf (take (end - from) (drop from sections.now)) result }
{
    let mut overview = Overview::empty();
    for i in from..end {
        overview.count(sections.get(i));
    }
    overview
}
