//! The sections before and after an edit that stay as they are.
ghost use Rattle.std.specs.Prelude.{◌≡◌, ◌+◌, ◌-◌, ◌<◌, ◌≤◌, ◌^◌, ◌⊎◌, ◌↔◌, ◌==◌, if◌then◌else◌, IsTrue, ℕ, true, false, length, take};
ghost use Rattle.yl_sections.specs.Local.{is_start_at};
ghost use Rattle.yl_sections.specs.Kept.{rows_kept};

use std::alloc::Allocator;
use yl_chunks::{Chunks, Spliced};
use yl_record::Record;
use yl_sections::{Kept, Place, is_start_at};

/// Returns the section `from`, or the last one before it, that also begins in the new records, or
/// the first section if none does.
pub fn front_of<A: Allocator + Copy>(
    kept: &Chunks<Kept<A>, A>,
    records: &Spliced<'_, Record<A>, A>,
    from: Place,
) -> Place
    requires section { from.section ≤ length kept.now.items }
    requires at { from.row ≡ rows_kept (take from.section kept.now.items) }
    ensures section { result.section ≤ from.section }
    ensures at { result.row ≡ rows_kept (take result.section kept.now.items) }
    ensures row { result.row ≤ from.row }
    ensures start { (result.section ≡ 0) ⊎ (is_start_at records.now result.row ≡ true) }
    ensures passed { (j : ℕ) → result.section < j → j ≤ from.section → is_start_at records.now (rows_kept (take j kept.now.items)) ≡ false }
{
    let mut section = from.section;
    let mut row = from.row;
    while section > 0 && !is_start_at(records, row) {
        section -= 1;
        row -= kept.get(section).rows() as usize;
    }
    Place { section, row }
}

/// Returns `true` if an old row is row `old_end` or a later one, and begins a section of the new
/// records too. The old rows from `old_end` on are the new ones from `end` on.
fn is_back<A: Allocator + Copy>(
    records: &Spliced<'_, Record<A>, A>,
    row: usize,
    old_end: usize,
    end: usize,
) -> bool
    requires { row + end < 2 ^ 64 }
    ensures { IsTrue result ↔ (old_end ≤ row) × (is_start_at records.now (row - old_end + end) ≡ true) }
{
    row >= old_end && is_start_at(records, row - old_end + end)
}

/// Returns the section `from`, or the first one after it, that begins at row `old_end` or later and
/// also begins in the new records, or the end of all sections if none does.
pub fn back_of<A: Allocator + Copy>(
    kept: &Chunks<Kept<A>, A>,
    records: &Spliced<'_, Record<A>, A>,
    from: Place,
    old_end: usize,
    end: usize,
) -> Place
    requires section { from.section ≤ length kept.now.items }
    requires at { from.row ≡ rows_kept (take from.section kept.now.items) }
    requires few { rows_kept kept.now.items + end < 2 ^ 63 }
    ensures section { (from.section ≤ result.section) × (result.section ≤ length kept.now.items) }
    ensures at { result.row ≡ rows_kept (take result.section kept.now.items) }
    ensures start { (result.section ≡ length kept.now.items) ⊎ ((old_end ≤ result.row) × (is_start_at records.now (result.row - old_end + end) ≡ true)) }
    ensures passed { (j : ℕ) → from.section ≤ j → j < result.section → old_end ≤ rows_kept (take j kept.now.items)
        → is_start_at records.now (rows_kept (take j kept.now.items) - old_end + end) ≡ false }
{
    let count = kept.len();
    let mut section = from.section;
    let mut row = from.row;
    while section < count && !is_back(records, row, old_end, end) {
        row += kept.get(section).rows() as usize;
        section += 1;
    }
    Place { section, row }
}

/// Returns the row at which the section of a place, which stays as it is, begins in the new
/// records. Returns `len`, the number of the new records, for the end of all sections.
pub fn new_row<A: Allocator + Copy>(
    kept: &Chunks<Kept<A>, A>,
    len: usize,
    place: Place,
    old_end: usize,
    end: usize,
) -> usize
    requires { (place.section ≡ length kept.now.items) ⊎ ((old_end ≤ place.row) × (place.row + end < 2 ^ 64)) }
    ensures { result ≡ (if place.section == length kept.now.items then len else place.row - old_end + end) }
{
    if place.section == kept.len() {
        len
    } else {
        place.row - old_end + end
    }
}
