//! Sections, and what is known of them without a walk over all.

use crate::overview::Overview;
use crate::overviews::all_of;
use std::alloc::Allocator;
use yl_chunks::{Chunks, Spliced};
use yl_sections::Kept;

/// Consecutive sections, and what is known of them.
#[derive(Drop)]
pub struct Survey<'a, A: Allocator> {
    /// The summaries of the sections.
    pub sections: Spliced<'a, Kept<A>, A>,
    /// The overviews of the first sections, one after another.
    pub above: &'a [Overview],
    /// The overview of the sections after these.
    pub near: Overview,
    /// The overviews of the sections after these, one after another.
    pub below: &'a [Overview],
    /// The overview of all sections.
    pub all: Overview,
}

impl<'a, A: Allocator + Copy> Survey<'a, A> {
    ghost use Rattle.std.specs.Prelude.{◌≡◌};
    ghost use Rattle.yl_summary.specs.Overview.{AreFew, AreOverviews};
    ghost use Rattle.yl_summary.specs.Survey.{IsSurvey};

    /// Creates a survey of sections of which these are the overviews.
    pub fn new(sections: &'a Chunks<Kept<A>, A>, overviews: &'a [Overview]) -> Survey<'a, A>
        requires few { AreFew sections.now.items }
        requires overviews { AreOverviews sections.now.items overviews.now }
        ensures survey { IsSurvey result }
        ensures sections { result.sections ≡ sections.now.items }
    {
        Survey {
            sections: Spliced::new(sections, 0, 0, &[]),
            above: overviews,
            near: Overview::empty(),
            below: &[],
            all: all_of(overviews),
        }
    }
}
