//! The lines of the sections that an edit touches.
ghost use Rattle.std.specs.Prelude.{◌≡◌, ◌==◌, ◌+◌, take};
ghost use Rattle.yl_sections.specs.Kept.{rows_kept};
ghost use Rattle.yl_summary.specs.Edit.{IsSectionEdit};

use std::alloc::Allocator;
use yl_edited_lines::Ends;
use yl_summary::SectionEdit;

/// The lines of the sections that an edit touches, before and after the edit.
#[derive(Clone, Copy)]
pub struct Touched {
    /// The number of lines above these sections.
    pub first: u32,
    /// The number of lines down to the end of these sections, before the edit.
    pub old_end: u32,
    /// The number of lines down to the end of these sections, after the edit.
    pub new_end: u32,
}

/// Returns the lines of the sections that an edit touches.
pub fn find_touched<A: Allocator>(edit: &SectionEdit<'_, A>) -> Touched
    requires { IsSectionEdit edit.now }
    ensures first { result.first ≡ rows_kept (take edit.now.from edit.now.sections.now.items) }
    ensures old_end { result.old_end ≡ rows_kept (take edit.now.end edit.now.sections.now.items) }
    ensures new_end { result.new_end ≡ result.first + rows_kept edit.now.kept.now }
{
    let first = edit.above.rows;
    Touched {
        first,
        old_end: first + edit.gone.rows,
        new_end: first + edit.come.rows,
    }
}

/// Returns whether the touched lines begin a text of `lines` lines, and whether they end it.
pub fn ends_of(touched: Touched, lines: usize) -> Ends
    ensures begins { result.begins ≡ (touched.first == 0) }
    ensures ends { result.ends ≡ (touched.old_end == lines) }
{
    Ends {
        begins: touched.first == 0,
        ends: touched.old_end as usize == lines,
    }
}
