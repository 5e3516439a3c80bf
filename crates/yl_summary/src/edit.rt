//! An edit of sections.
ghost use Rattle.std.specs.Prelude.{◌≡◌, ◌++◌, OnOk};

use crate::overview::Overview;
use crate::overviews::{Border, USUAL, all_of, border_behind, border_upto, push_overviews};
use crate::survey::Survey;
use crate::walking::{overview_of, overview_within};
use std::alloc::{AllocError, Allocator};
use yl_chunks::{Chunks, Spliced};
use yl_sections::Kept;

/// The borders between overviews above and below an edit of sections, and the overviews of the
/// sections between them and the edit.
#[derive(Clone, Copy)]
pub struct Nearby {
    /// The last border at or before the first section that the edit replaces.
    pub start: Border,
    /// A border at or after the last section that the edit replaces.
    pub stop: Border,
    /// The overview of the sections between `start` and the edit.
    pub above: Overview,
    /// The overview of the sections between the edit and `stop`.
    pub below: Overview,
}

impl Nearby {
    ghost use Rattle.std.specs.Prelude.{◌≤◌, ℕ, List, length, take, drop};
    ghost use Rattle.yl_text.specs.Store.{IsRange};
    ghost use Rattle.yl_sections.specs.Kept.{KeptValue};
    ghost use Rattle.yl_summary.specs.Overview.{AreFew, AreOverviews, IsOverviewOf};
    ghost use Rattle.yl_summary.specs.Edit.{IsNearby};

    /// Returns the borders around an edit that replaces the sections with the indices `from..end`,
    /// counted from 0, and the overviews of the sections between them and the edit.
    fn new<A: Allocator + Copy>(
        sections: &Chunks<Kept<A>, A>,
        overviews: &[Overview],
        from: usize,
        end: usize,
    ) -> Nearby
        requires range { IsRange from end (length sections.now.items) }
        requires few { AreFew sections.now.items }
        requires overviews { AreOverviews sections.now.items overviews.now }
        ensures { IsNearby sections.now.items overviews.now from end result }
    {
        let start = border_upto(sections, overviews, from);
        let stop = border_behind(sections, overviews, start, end);
        Nearby {
            start,
            stop,
            above: overview_within(sections, start.sections, from),
            below: overview_within(sections, end, stop.sections),
        }
    }

    /// Returns the overview of all sections above the edit.
    fn all_above(self, overviews: &[Overview]) -> Overview
        requires { self.start.overviews ≤ length overviews.now }
        ensures { (ks : List KeptValue) (from end : ℕ) → AreFew ks → from ≤ length ks → IsNearby ks overviews.now from end self → IsOverviewOf (take from ks) result }
    {
        all_of(&overviews[..self.start.overviews]).and_later(self.above)
    }

    /// Returns the overview of all sections below the edit.
    fn all_below(self, overviews: &[Overview]) -> Overview
        requires { self.stop.overviews ≤ length overviews.now }
        ensures { (ks : List KeptValue) (from end : ℕ) → AreFew ks → IsNearby ks overviews.now from end self → IsOverviewOf (drop end ks) result }
    {
        self.below
            .and_later(all_of(&overviews[self.stop.overviews..]))
    }
}

/// An edit of sections: the summaries of some sections are replaced by others. It holds the
/// overviews of the sections that it removes, inserts and leaves as they are.
#[derive(Drop)]
pub struct SectionEdit<'a, A: Allocator> {
    /// The summaries of all sections before the edit.
    pub sections: &'a Chunks<Kept<A>, A>,
    /// The overviews of these sections, one after another.
    pub overviews: &'a [Overview],
    /// The index of the first section that is replaced, counted from 0.
    pub from: usize,
    /// The index after that of the last section that is replaced, counted from 0.
    pub end: usize,
    /// The summaries of the sections that replace them.
    pub kept: &'a [Kept<A>],
    /// The borders between overviews around the edit.
    pub near: Nearby,
    /// The overview of the sections above.
    pub above: Overview,
    /// The overview of the sections that are removed.
    pub gone: Overview,
    /// The overview of the sections that are inserted.
    pub come: Overview,
    /// The overview of the sections below.
    pub below: Overview,
}

/// Appends these overviews. The only error is out of memory.
fn push_copies<A: Allocator>(
    some: &[Overview],
    overviews: &mut Vec<Overview, A>,
) -> Result<(), AllocError>
    ensures { OnOk result (overviews.new.items ≡ overviews.old.items ++ some.now) }
{
    for one in some {
        overviews.push(*one)?;
    }
    Ok(())
}

impl<'a, A: Allocator + Copy> SectionEdit<'a, A> {
    ghost use Rattle.std.specs.Prelude.{◌≡◌, ◌+◌, ◌-◌, length, take, drop, IfOk, OnOk};
    ghost use Rattle.std.specs.List.{splice};
    ghost use Rattle.yl_text.specs.Store.{IsRange};
    ghost use Rattle.yl_summary.specs.Overview.{AreFew, AreOverviews, IsOverviewOf};
    ghost use Rattle.yl_summary.specs.Edit.{IsSectionEdit, sections_after, sections_upto};
    ghost use Rattle.yl_summary.specs.Survey.{IsSurvey};

    /// Creates the edit that puts `kept` in place of the sections with the indices `from..end`,
    /// counted from 0. `overviews` are those of all sections.
    pub fn new(
        sections: &'a Chunks<Kept<A>, A>,
        overviews: &'a [Overview],
        from: usize,
        end: usize,
        kept: &'a [Kept<A>],
    ) -> SectionEdit<'a, A>
        requires range { IsRange from end (length sections.now.items) }
        requires few { AreFew sections.now.items }
        requires few_then { AreFew (splice sections.now.items from end kept.now) }
        requires overviews { AreOverviews sections.now.items overviews.now }
        ensures edit { IsSectionEdit result }
        ensures sections { result.sections.now.items ≡ sections.now.items }
        ensures from { result.from ≡ from }
        ensures end { result.end ≡ end }
        ensures kept { result.kept.now ≡ kept.now }
    {
        let near = Nearby::new(sections, overviews, from, end);
        SectionEdit {
            sections,
            overviews,
            from,
            end,
            kept,
            near,
            above: near.all_above(overviews),
            gone: overview_within(sections, from, end),
            come: overview_of(kept),
            below: near.all_below(overviews),
        }
    }

    /// Returns the overview of all sections before the edit.
    pub fn before(&self) -> Overview
        requires { IsSectionEdit self.now }
        ensures { IsOverviewOf self.now.sections.now.items result }
    {
        self.above.and_later(self.gone).and_later(self.below)
    }

    /// Returns the overview of all sections after the edit.
    fn after(&self) -> Overview
        requires { IsSectionEdit self.now }
        ensures { IsOverviewOf (splice self.now.sections.now.items self.now.from self.now.end self.now.kept.now) result }
    {
        self.above.and_later(self.come).and_later(self.below)
    }

    /// Returns a view of the summaries of all sections after the edit.
    pub fn spliced(&self) -> Spliced<'a, Kept<A>, A>
        requires { IsSectionEdit self.now }
        ensures { result ≡ splice self.now.sections.now.items self.now.from self.now.end self.now.kept.now }
    {
        Spliced::new(self.sections, self.from, self.end, self.kept)
    }

    /// Returns the overview of the sections between the two borders, after the edit.
    fn between(&self) -> Overview
        requires { IsSectionEdit self.now }
        ensures { IsOverviewOf (take (sections_upto self.now - self.now.near.start.sections) (drop self.now.near.start.sections (sections_after self.now))) result }
    {
        let near = self.near;
        near.above.and_later(self.come).and_later(near.below)
    }

    /// Returns all sections after the edit, and what is known of them.
    pub fn survey(&self) -> Survey<'a, A>
        requires { IsSectionEdit self.now }
        ensures survey { IsSurvey result }
        ensures sections { result.sections ≡ splice self.now.sections.now.items self.now.from self.now.end self.now.kept.now }
    {
        let (start, stop) = (self.near.start, self.near.stop);
        Survey {
            sections: self.spliced(),
            above: &self.overviews[..start.overviews],
            near: self.between(),
            below: &self.overviews[stop.overviews..],
            all: self.after(),
        }
    }

    /// Appends overviews of the sections between the two borders, after the edit, to those of the
    /// sections above. The only error is out of memory.
    fn push_near(&self, after: &mut Vec<Overview, A>) -> Result<(), AllocError>
        requires edit { IsSectionEdit self.now }
        requires above { AreOverviews (take self.now.near.start.sections (sections_after self.now)) after.old.items }
        ensures { OnOk result (AreOverviews (take (sections_upto self.now) (sections_after self.now)) after.new.items) }
    {
        let near = self.near;
        let here = self.between();
        if 0 < here.sections && here.sections < 2 * USUAL {
            after.push(here)?;
            return Ok(());
        }
        let until = near.stop.sections - self.end + self.from + self.kept.len();
        push_overviews(&self.spliced(), near.start.sections, until, after)
    }

    /// Returns overviews of all sections after the edit. The only error is out of memory.
    pub fn overviews_after(&self, alloc: A) -> Result<Vec<Overview, A>, AllocError>
        requires { IsSectionEdit self.now }
        ensures { IfOk result (λ v. AreOverviews (splice self.now.sections.now.items self.now.from self.now.end self.now.kept.now) v.items) }
    {
        let (start, stop) = (self.near.start, self.near.stop);
        let below = self.overviews.len() - stop.overviews;
        let count = start.overviews.saturating_add(below).saturating_add(1);
        let mut after = Vec::with_capacity(alloc, count)?;
        push_copies(&self.overviews[..start.overviews], &mut after)?;
        self.push_near(&mut after)?;
        push_copies(&self.overviews[stop.overviews..], &mut after)?;
        Ok(after)
    }
}
