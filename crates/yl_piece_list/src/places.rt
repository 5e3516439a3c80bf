//! The pieces before and after an edit with which sections begin that stay as they are.
ghost use Rattle.std.specs.Prelude.{◌≡◌, ◌+◌, ◌-◌, ◌<◌, ◌≤◌, ◌^◌, ◌⊎◌, ◌↔◌, ◌==◌, if◌then◌else◌, IsTrue, ℕ, true, false, length, take};
ghost use Rattle.yl_sections.specs.Local.{is_start_at};
ghost use Rattle.yl_sections.specs.Kept.{rows_kept};
ghost use Rattle.yl_section_pieces.specs.Pieces.{summaries};
ghost use Rattle.yl_section_pieces.specs.Sections.{IsSectionBorder};

use crate::list::PieceList;
use std::alloc::Allocator;
use yl_chunks::Spliced;
use yl_record::Record;
use yl_sections::{Place, is_start_at};

/// Returns `true` if a section begins with the piece at the place, and it begins in the new records
/// too.
fn is_front<A: Allocator + Copy>(
    pieces: &PieceList<'_, A>,
    records: &Spliced<'_, Record<A>, A>,
    section: usize,
    row: usize,
) -> bool
    requires { section ≤ length pieces.now }
    ensures { IsTrue result ↔ IsSectionBorder pieces.now section × (is_start_at records.now row ≡ true) }
{
    pieces.is_border(section) && is_start_at(records, row)
}

/// Returns the piece `from`, or the last one before it, with which a section begins that also begins
/// in the new records, or the first piece if none does.
pub fn front_of<A: Allocator + Copy>(
    pieces: &PieceList<'_, A>,
    records: &Spliced<'_, Record<A>, A>,
    from: Place,
) -> Place
    requires section { from.section ≤ length pieces.now }
    requires at { from.row ≡ rows_kept (take from.section (summaries pieces.now)) }
    ensures section { result.section ≤ from.section }
    ensures at { result.row ≡ rows_kept (take result.section (summaries pieces.now)) }
    ensures row { result.row ≤ from.row }
    ensures start { (result.section ≡ 0) ⊎ (IsSectionBorder pieces.now result.section × (is_start_at records.now result.row ≡ true)) }
    ensures passed { (j : ℕ) → result.section < j → j ≤ from.section → IsSectionBorder pieces.now j
        → is_start_at records.now (rows_kept (take j (summaries pieces.now))) ≡ false }
{
    let mut section = from.section;
    let mut row = from.row;
    while section > 0 && !is_front(pieces, records, section, row) {
        section -= 1;
        row -= pieces.rows(section);
    }
    Place { section, row }
}

/// Returns `true` if a section begins with the piece at the place, at row `old_end` or a later one,
/// and begins in the new records too. The old rows from `old_end` on are the new ones from `end` on.
fn is_back<A: Allocator + Copy>(
    pieces: &PieceList<'_, A>,
    records: &Spliced<'_, Record<A>, A>,
    section: usize,
    row: usize,
    old_end: usize,
    end: usize,
) -> bool
    requires section { section ≤ length pieces.now }
    requires few { row + end < 2 ^ 64 }
    ensures { IsTrue result ↔ IsSectionBorder pieces.now section × ((old_end ≤ row) × (is_start_at records.now (row - old_end + end) ≡ true)) }
{
    row >= old_end && pieces.is_border(section) && is_start_at(records, row - old_end + end)
}

/// Returns the piece `from`, or the first one after it, with which a section begins, at row
/// `old_end` or later, that also begins in the new records, or the end of all pieces if none does.
pub fn back_of<A: Allocator + Copy>(
    pieces: &PieceList<'_, A>,
    records: &Spliced<'_, Record<A>, A>,
    from: Place,
    old_end: usize,
    end: usize,
) -> Place
    requires section { from.section ≤ length pieces.now }
    requires at { from.row ≡ rows_kept (take from.section (summaries pieces.now)) }
    requires few { rows_kept (summaries pieces.now) + end < 2 ^ 63 }
    ensures section { (from.section ≤ result.section) × (result.section ≤ length pieces.now) }
    ensures at { result.row ≡ rows_kept (take result.section (summaries pieces.now)) }
    ensures start { (result.section ≡ length pieces.now)
        ⊎ (IsSectionBorder pieces.now result.section × ((old_end ≤ result.row) × (is_start_at records.now (result.row - old_end + end) ≡ true))) }
    ensures passed { (j : ℕ) → from.section ≤ j → j < result.section
        → IsSectionBorder pieces.now j × (old_end ≤ rows_kept (take j (summaries pieces.now)))
        → is_start_at records.now (rows_kept (take j (summaries pieces.now)) - old_end + end) ≡ false }
{
    let count = pieces.len();
    let mut section = from.section;
    let mut row = from.row;
    while section < count && !is_back(pieces, records, section, row, old_end, end) {
        row += pieces.rows(section);
        section += 1;
    }
    Place { section, row }
}

/// Returns the row at which the piece at a place, which stays as it is, begins in the new records.
/// Returns `len`, the number of the new records, for the end of all pieces.
pub fn new_row<A: Allocator + Copy>(
    pieces: &PieceList<'_, A>,
    len: usize,
    place: Place,
    old_end: usize,
    end: usize,
) -> usize
    requires { (place.section ≡ length pieces.now) ⊎ ((old_end ≤ place.row) × (place.row + end < 2 ^ 64)) }
    ensures { result ≡ (if place.section == length pieces.now then len else place.row - old_end + end) }
{
    if place.section == pieces.len() {
        len
    } else {
        place.row - old_end + end
    }
}
