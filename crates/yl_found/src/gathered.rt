//! Gathers the comments of sections in a walk over their overviews.
ghost use Rattle.std.specs.Prelude.{◌≡◌, ◌+◌, ◌-◌, ◌≤◌, ◌++◌, [], length, map, take, drop, OnOk};
ghost use Rattle.yl_lexeme.specs.PlacedComments.{placed_comment_value};
ghost use Rattle.yl_lint.specs.TextReport.{comments_in_sections};
ghost use Rattle.yl_summary.specs.Overview.{AreFew, IsOverviewOf};

use std::alloc::{AllocError, Allocator};
use yl_chunks::Spliced;
use yl_lexeme::PlacedComment;
use yl_lint::{line_below, push_comments};
use yl_sections::Kept;
use yl_summary::Overview;

/// The comments of the first sections of a text.
#[derive(Drop)]
pub struct Gathered<'a, A: Allocator> {
    /// The comments, at their positions in the text.
    pub comments: Vec<PlacedComment<'a>, A>,
    /// The number of sections that were passed.
    pub section: usize,
    /// The number of lines of these sections.
    pub row: u32,
}

/// Appends the comments of the sections with the indices `from..end`, counted from 0. The first of
/// these sections begins at line `row`. The only error is out of memory.
pub fn push_among<'a, A: Allocator + Copy>(
    sections: &Spliced<'a, Kept<A>, A>,
    from: usize,
    end: usize,
    row: u32,
    comments: &mut Vec<PlacedComment<'a>, A>,
) -> Result<(), AllocError>
    requires { end ≤ length sections.now }
    ensures { OnOk result (map placed_comment_value comments.new.items ≡ map placed_comment_value comments.old.items ++ comments_in_sections row (take (end - from) (drop from sections.now))) }
{
    let mut line = row;
    for i in from..end {
        let one = sections.get(i);
        push_comments(line, one.comments(), comments)?;
        line = line_below(line, one.rows())?;
    }
    Ok(())
}

/// Appends the comments of the sections of an overview, except for sections from index `count` on.
/// The first of these sections has the index `at` and begins at line `row`. The only error is out
/// of memory.
fn push_known<'a, A: Allocator + Copy>(
    sections: &Spliced<'a, Kept<A>, A>,
    one: Overview,
    at: usize,
    row: u32,
    count: usize,
    comments: &mut Vec<PlacedComment<'a>, A>,
) -> Result<(), AllocError>
    requires within { count ≤ length sections.now }
    requires few { AreFew sections.now }
    requires at { at ≤ length sections.now }
    requires known { IsOverviewOf (take one.sections (drop at sections.now)) one }
    ensures { OnOk result (map placed_comment_value comments.new.items ≡ map placed_comment_value comments.old.items ++ comments_in_sections row (take (count - at) (take one.sections (drop at sections.now)))) }
{
    if one.is_silent() {
        return Ok(());
    }
    let silencing = one.silencing;
    let from = at.saturating_add(silencing.from);
    let stop = at.saturating_add(silencing.end);
    let end = count.min(stop);
    let first = line_below(row, silencing.row)?;
    push_among(sections, from, end, first, comments)
}

impl<'a, A: Allocator + Copy> Gathered<'a, A> {
    ghost use Rattle.yl_found.specs.Gathered.{IsGathered};

    /// Creates a list of no comments, before the first section. Does not allocate.
    pub fn none(alloc: A) -> Gathered<'a, A>
        ensures comments { result.comments.items ≡ [] }
        ensures section { result.section ≡ 0 }
        ensures row { result.row ≡ 0 }
    {
        Gathered {
            comments: Vec::new(alloc),
            section: 0,
            row: 0,
        }
    }

    /// Passes the sections of the next overview and appends their comments, except for those of
    /// sections from index `count` on. The only error is out of memory.
    pub fn go_on(
        &mut self,
        sections: &Spliced<'a, Kept<A>, A>,
        one: Overview,
        count: usize,
    ) -> Result<(), AllocError>
        requires within { count ≤ length sections.now }
        requires few { AreFew sections.now }
        requires gathered { IsGathered sections.now count self.old }
        requires known { IsOverviewOf (take one.sections (drop self.old.section sections.now)) one }
        ensures gathered { OnOk result (IsGathered sections.now count self.new) }
        ensures section { OnOk result (self.new.section ≡ self.old.section + one.sections) }
    {
        push_known(
            sections,
            one,
            self.section,
            self.row,
            count,
            &mut self.comments,
        )?;
        let row = line_below(self.row, one.rows)?;
        self.section = self.section.saturating_add(one.sections);
        self.row = row;
        Ok(())
    }
}
