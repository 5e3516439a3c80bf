//! A section that loses rows in which no lexeme and no comment begins.
ghost use Rattle.std.specs.Prelude.{◌≡◌, ◌↔◌, ◌≤◌, ◌<◌, ◌^◌, IsTrue, true, None, length, take};
ghost use Rattle.yl_sections.specs.Front.{IsBare};
ghost use Rattle.yl_rejudge.specs.Documents.{AreFront, EndsAnew};
ghost use Rattle.yl_sections.specs.Kept.{rows_kept};

use std::alloc::Allocator;
use yl_chunks::{Chunks, Spliced};
use yl_record::Record;
use yl_sections::{Kept, Place, is_start_at};

/// Returns `true` if no scan fault begins in row `i`, where it is before row `from`, or no lexeme
/// and no comment, where it is not.
fn is_front_row<A: Allocator>(row: &Record<A>, i: usize, from: usize) -> bool
    ensures { IsTrue result ↔ (i < from → row.now.entry.fault ≡ None) × (from ≤ i → IsBare row.now) }
{
    if i < from {
        row.fault().is_none()
    } else {
        row.lexemes().is_empty() && row.comment().is_none()
    }
}

/// Returns `true` if all lexemes and comments of the rows `x..end` begin before row `from`, and no
/// scan fault does.
fn are_front<A: Allocator + Copy>(
    records: &Chunks<Record<A>, A>,
    x: usize,
    from: usize,
    end: usize,
) -> bool
    requires { end ≤ length records.now.items }
    ensures { IsTrue result ↔ AreFront records.now.items x from end }
{
    for i in x..end {
        if !is_front_row(records.get(i), i, from) {
            return false;
        }
    }
    true
}

/// Returns `true` if the old section at the place ends before row `from` in the new records, and
/// did not in the old ones, and all its lexemes and comments begin before this row, and no scan
/// fault does.
pub fn ends_anew<A: Allocator + Copy>(
    kept: &Chunks<Kept<A>, A>,
    old: &Chunks<Record<A>, A>,
    records: &Spliced<'_, Record<A>, A>,
    place: Place,
    from: usize,
) -> bool
    requires at { place.row ≡ rows_kept (take place.section kept.now.items) }
    requires rows { rows_kept kept.now.items ≡ length old.now.items }
    requires few { length old.now.items < 2 ^ 32 }
    ensures { IsTrue result ↔ EndsAnew kept.now.items old.now.items records.now place.section from }
{
    if place.section >= kept.len() || place.row >= from {
        return false;
    }
    let end = place.row + kept.get(place.section).rows() as usize;
    if end <= from || !is_start_at(records, from) {
        return false;
    }
    are_front(old, place.row, from, end)
}
