//! An edit within one piece.
ghost use Rattle.std.specs.Prelude.{◌≡◌, ◌+◌, ◌-◌, ◌<◌, ◌≤◌, ◌∷◌, ◌^◌, [], List, Some, length, map, take, drop, IfOk, IfSome};
ghost use Rattle.std.specs.List.{splice};
ghost use Rattle.yl_text.specs.Store.{IsRange};
ghost use Rattle.yl_record.specs.Records.{RecordValue};
ghost use Rattle.yl_sections.specs.Kept.{rows_kept};
ghost use Rattle.yl_sections.specs.Places.{IsAt};
ghost use Rattle.yl_sections.specs.Sections.{sections};
ghost use Rattle.yl_section_pieces.specs.Edit.{PieceIsEdited};
ghost use Rattle.yl_section_pieces.specs.Pieces.{IsStateAfter, summaries};
ghost use Rattle.yl_section_pieces.specs.Sections.{AreKeptSections};
ghost use Rattle.yl_piece_list.specs.Edited.{IsEdited};

use crate::cutting::gather_between;
use crate::list::PieceList;
use std::alloc::{AllocError, Allocator};
use yl_chunks::{Chunks, Spliced};
use yl_config::Config;
use yl_pieces::PieceJudge;
use yl_record::Record;
use yl_section_pieces::{SectionPiece, edit_piece};
use yl_sections::{DocumentState, Kept, Place};

/// The maximum number of rows of a piece after an edit within it. The section of a greater piece is
/// judged again, and cut anew.
const MOST_ROWS: usize = 256;

/// Returns references to the old records of the rows `x..z`, counted from 0. The only error is out
/// of memory.
fn gather_old<'a, A: Allocator + Copy>(
    alloc: A,
    old: &'a Chunks<Record<A>, A>,
    x: usize,
    z: usize,
) -> Result<Vec<&'a Record<A>, A>, AllocError>
    requires ordered { x ≤ z }
    requires within { z ≤ length old.now.items }
    ensures { IfOk result (λ all. map (λ r. r.now) all.items ≡ drop x (take z old.now.items)) }
{
    let mut all = Vec::new(alloc);
    for i in x..z {
        all.push(old.get(i))?;
    }
    Ok(all)
}

/// Returns a copy of a state after rows of a section. The only error is out of memory.
pub fn copy_of<A: Allocator + Copy>(
    alloc: A,
    config: &Config,
    state: &DocumentState<A>,
) -> Result<Option<DocumentState<A>>, AllocError>
    ensures { IfOk result (λ s. (front : List RecordValue) → IsStateAfter front state.now → s ≡ Some state.now) }
{
    PieceJudge::resume(alloc, config, state)?.state()
}

/// Returns the piece that has the new rows `row..new_last` in place of the old rows `row..last`, if
/// nothing but this piece changes, else `None`. The piece of the old rows has the summary `kept`,
/// and the state `before` before it. The only error is out of memory, or more rows or lexemes than a
/// `u32` counts.
fn edit_rows<A: Allocator + Copy>(
    alloc: A,
    config: &Config,
    before: &DocumentState<A>,
    kept: &Kept<A>,
    old: &Chunks<Record<A>, A>,
    records: &Spliced<'_, Record<A>, A>,
    row: usize,
    last: usize,
    new_last: usize,
) -> Result<Option<SectionPiece<A>>, AllocError>
    requires old { (row ≤ last) × (last ≤ length old.now.items) }
    requires new { (row ≤ new_last) × (new_last ≤ length records.now) }
    ensures { IfOk result (λ r. IfSome r (λ p. IsEdited config.now before.now (drop row (take last old.now.items)) (drop row (take new_last records.now)) kept.now p)) }
{
    let old_rows = gather_old(alloc, old, row, last)?;
    let new_rows = gather_between(alloc, records, row, new_last)?;
    match edit_piece(alloc, config, before, kept, &old_rows, &new_rows)? {
        None => Ok(None),
        Some(kept) => {
            let before = copy_of(alloc, config, before)?;
            Ok(Some(SectionPiece { kept, before }))
        }
    }
}

/// Returns what an edit makes of the piece at a place, if the piece has a state before it and holds
/// the old rows `from..old_end`, and nothing but this piece changes, else `None`. The old rows from
/// `old_end` on are the new ones from `end` on. The only error is out of memory, or more rows or
/// lexemes than a `u32` counts.
pub fn edit_one<A: Allocator + Copy>(
    alloc: A,
    config: &Config,
    pieces: &PieceList<'_, A>,
    at: Place,
    old: &Chunks<Record<A>, A>,
    records: &Spliced<'_, Record<A>, A>,
    from: usize,
    old_end: usize,
    end: usize,
) -> Result<Option<SectionPiece<A>>, AllocError>
    requires law { PieceIsEdited }
    requires kept { AreKeptSections config.now (sections old.now.items) pieces.now }
    requires at { IsAt (summaries pieces.now) at }
    requires above { at.row ≤ from }
    requires before { take from old.now.items ≡ take from records.now }
    requires behind { drop old_end old.now.items ≡ drop end records.now }
    requires old_range { IsRange from old_end (length old.now.items) }
    requires range { IsRange from end (length records.now) }
    requires few { (length old.now.items < 2 ^ 30) × (length records.now < 2 ^ 30) }
    ensures there { IfOk result (λ r. IfSome r (λ p. at.section < length pieces.now)) }
    ensures not_first { IfOk result (λ r. IfSome r (λ p. 0 < at.row)) }
    ensures holds { IfOk result (λ r. IfSome r (λ p. old_end ≤ rows_kept (take (at.section + 1) (summaries pieces.now)))) }
    ensures kept { IfOk result (λ r. IfSome r (λ p. AreKeptSections config.now (sections records.now) (splice pieces.now at.section (at.section + 1) (p ∷ [])))) }
{
    if at.section >= pieces.len() {
        return Ok(None);
    }
    let last = at.row + pieces.rows(at.section);
    if last < old_end || last - old_end + end - at.row > MOST_ROWS {
        return Ok(None);
    }
    let Some(before) = pieces.before().get(at.section).get() else {
        return Ok(None);
    };
    let kept = pieces.kept().get(at.section);
    edit_rows(
        alloc,
        config,
        before,
        kept,
        old,
        records,
        at.row,
        last,
        last - old_end + end,
    )
}
