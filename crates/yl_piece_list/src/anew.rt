//! A section that ends anew before an edit: it loses rows in which no lexeme and no comment begins.
ghost use Rattle.std.specs.Prelude.{◌≡◌, ◌↔◌, ◌+◌, ◌≤◌, ◌<◌, ◌^◌, ℕ, IsTrue, None, length, take, IfNone, IfSome};
ghost use Rattle.yl_sections.specs.Front.{IsBare};
ghost use Rattle.yl_sections.specs.Kept.{rows_kept};
ghost use Rattle.yl_sections.specs.Places.{IsAt};
ghost use Rattle.yl_rejudge.specs.Documents.{AreFront};
ghost use Rattle.yl_section_pieces.specs.Pieces.{summaries};
ghost use Rattle.yl_piece_list.specs.Anew.{IsLastPiece, RowsEndAnew};

use crate::list::PieceList;
use std::alloc::Allocator;
use yl_chunks::{Chunks, Spliced};
use yl_record::Record;
use yl_sections::{Place, is_start_at};

/// Returns `true` if no scan fault begins in row `i`, where it is before row `from`, or no lexeme
/// and no comment, where it is not.
fn is_front_row<A: Allocator>(row: &Record<A>, i: usize, from: usize) -> bool
    ensures { IsTrue result ↔ (i < from → row.now.entry.fault ≡ None) × (from ≤ i → IsBare row.now) }
{
    if i < from {
        row.fault().is_none()
    } else {
        row.lexemes().is_empty() && row.comment().is_none()
    }
}

/// Returns `true` if all lexemes and comments of the rows `x..end` begin before row `from`, and no
/// scan fault does.
fn are_front<A: Allocator + Copy>(
    records: &Chunks<Record<A>, A>,
    x: usize,
    from: usize,
    end: usize,
) -> bool
    requires { end ≤ length records.now.items }
    ensures { IsTrue result ↔ AreFront records.now.items x from end }
{
    for i in x..end {
        if !is_front_row(records.get(i), i, from) {
            return false;
        }
    }
    true
}

/// Returns the last piece of the section that begins with the piece `first`.
fn last_piece<A: Allocator + Copy>(pieces: &PieceList<'_, A>, first: Place) -> Place
    requires there { first.section < length pieces.now }
    requires at { IsAt (summaries pieces.now) first }
    requires few { rows_kept (summaries pieces.now) < 2 ^ 32 }
    ensures last { IsLastPiece pieces.now first.section result.section }
    ensures row { result.row ≡ rows_kept (take result.section (summaries pieces.now)) }
{
    let count = pieces.len();
    let mut section = first.section;
    let mut row = first.row;
    while section + 1 < count && !pieces.is_border(section + 1) {
        row += pieces.rows(section);
        section += 1;
    }
    Place { section, row }
}

/// Returns the last piece of the section that begins with the piece `first`, if this section ends
/// before row `from` in the new records, and did not in the old ones, and all its lexemes and
/// comments begin before this row, and no scan fault does, else `None`.
pub fn ends_anew<A: Allocator + Copy>(
    pieces: &PieceList<'_, A>,
    old: &Chunks<Record<A>, A>,
    records: &Spliced<'_, Record<A>, A>,
    first: Place,
    from: usize,
) -> Option<Place>
    requires at { IsAt (summaries pieces.now) first }
    requires rows { rows_kept (summaries pieces.now) ≡ length old.now.items }
    requires few { length old.now.items < 2 ^ 32 }
    ensures last { IfSome result (λ at. IsLastPiece pieces.now first.section at.section) }
    ensures row { IfSome result (λ at. at.row ≡ rows_kept (take at.section (summaries pieces.now))) }
    ensures seen { IfSome result (λ at. RowsEndAnew old.now.items records.now first.row (rows_kept (take (at.section + 1) (summaries pieces.now))) from) }
    ensures none { IfNone result ((i : ℕ) → IsLastPiece pieces.now first.section i
        → RowsEndAnew old.now.items records.now first.row (rows_kept (take (i + 1) (summaries pieces.now))) from → ⊥) }
{
    if first.section >= pieces.len() || first.row >= from || !is_start_at(records, from) {
        return None;
    }
    let last = last_piece(pieces, first);
    let end = last.row + pieces.rows(last.section);
    if end <= from || !are_front(old, first.row, from, end) {
        return None;
    }
    Some(last)
}
