//! Where sections begin among the rows of a text.
ghost use Rattle.std.specs.Prelude.{◌≡◌, ◌+◌, ◌<◌, ◌≤◌, ◌^◌, ◌⊎◌, length, take};
ghost use Rattle.yl_sections.specs.Kept.{rows_kept};
ghost use Rattle.yl_sections.specs.Places.{IsAt};

use crate::kept::Kept;
use std::alloc::Allocator;
use yl_chunks::Chunks;

/// The place of a section, or the end of all sections.
#[derive(Clone, Copy)]
pub struct Place {
    /// The index of the section, counted from 0, or the number of sections.
    pub section: usize,
    /// The first row of the section, counted from 0, or the number of rows.
    pub row: usize,
}

/// Returns the last section that begins at or before row `row`, or the end of all sections if all
/// their rows come before it. Searches from the section `near` on, which must begin at or before
/// this row.
pub fn section_of<A: Allocator + Copy>(kept: &Chunks<Kept<A>, A>, near: Place, row: usize) -> Place
    requires few { row < 2 ^ 63 }
    requires near { IsAt kept.now.items near }
    requires above { near.row ≤ row }
    ensures section { result.section ≤ length kept.now.items }
    ensures at { result.row ≡ rows_kept (take result.section kept.now.items) }
    ensures row { result.row ≤ row }
    ensures last { (result.section ≡ length kept.now.items) ⊎ (row < rows_kept (take (result.section + 1) kept.now.items)) }
{
    let mut place = near;
    for i in near.section..kept.len() {
        let next = place.row + kept.get(i).rows() as usize;
        if next > row {
            return place;
        }
        place = Place {
            section: i + 1,
            row: next,
        };
    }
    place
}
