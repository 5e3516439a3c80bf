//! Judges the pieces or the sections that an edit changed.
ghost use Rattle.std.specs.Prelude.{◌≡◌, ◌↔◌, ◌⊎◌, ◌+◌, ◌-◌, ◌<◌, ◌≤◌, ◌^◌, ◌∷◌, ◌++◌, [], ℕ, IsTrue, List, Some, length, map, take, drop, slice_get, IfOk, OnOk};
ghost use Rattle.std.specs.List.{splice};
ghost use Rattle.yl_text.specs.Store.{IsRange};
ghost use Rattle.yl_record.specs.Records.{RecordValue};
ghost use Rattle.yl_sections.specs.Alike.{GoOnAlike};
ghost use Rattle.yl_sections.specs.Holding.{TakesNothing, documents_holding};
ghost use Rattle.yl_sections.specs.Kept.{documents_in, rows_kept};
ghost use Rattle.yl_sections.specs.Places.{IsAt};
ghost use Rattle.yl_sections.specs.Sections.{sections};
ghost use Rattle.yl_rejudge.specs.Places.{AllStay, changed_sections};
ghost use Rattle.yl_section_pieces.specs.Pieces.{PieceValue, summaries};
ghost use Rattle.yl_section_pieces.specs.Sections.{AreKeptSections};
ghost use Rattle.yl_piece_list.specs.Anew.{AreKeptBehind};
ghost use Rattle.yl_piece_list.specs.Around.{ArePiecesAround};

use crate::anew::ends_anew;
use crate::cutting::judge_changed;
use crate::list::PieceList;
use crate::one_piece::edit_one;
use crate::places::{back_of, front_of, new_row};
use crate::shorter::shorter_piece;
use std::alloc::{AllocError, Allocator};
use yl_chunks::{Chunks, Spliced};
use yl_config::Config;
use yl_lexeme::Meter;
use yl_record::Record;
use yl_retyped::keep_sections;
use yl_section_pieces::{SectionPiece, piece_is_edited};
use yl_sections::{Place, section_of};

/// What an edit makes of the pieces of all sections: some pieces are replaced.
#[derive(Drop)]
pub struct Rejudged<A: Allocator> {
    /// The index of the first piece that is replaced, counted from 0.
    pub from: usize,
    /// The index after that of the last piece that is replaced, counted from 0.
    pub end: usize,
    /// The pieces that replace them.
    pub pieces: Vec<SectionPiece<A>, A>,
}

/// Returns that this piece replaces the piece of index `i`, counted from 0, of `count` pieces. The
/// only error is out of memory.
fn one_replaced<A: Allocator + Copy>(
    alloc: A,
    i: usize,
    count: usize,
    piece: SectionPiece<A>,
) -> Result<Rejudged<A>, AllocError>
    requires { i < count }
    ensures { IfOk result (λ r. (r.from ≡ i) × ((r.end ≡ i + 1) × (r.pieces.items ≡ piece ∷ []))) }
{
    let mut pieces = Vec::new(alloc);
    pieces.push(piece)?;
    Ok(Rejudged {
        from: i,
        end: i + 1,
        pieces,
    })
}

/// Returns the piece that comes in place of the piece at the place `last`, of which only the rows
/// before `from` are left, and the pieces of each section of the rows `from..z`. Counts the
/// documents of these sections in the meter. The only error is out of memory, or more rows or
/// lexemes than a `u32` counts.
fn judge_behind<A: Allocator + Copy>(
    alloc: A,
    config: &Config,
    pieces: &PieceList<'_, A>,
    records: &Spliced<'_, Record<A>, A>,
    last: Place,
    from: usize,
    z: usize,
    meter: &mut Meter,
) -> Result<Vec<SectionPiece<A>, A>, AllocError>
    requires there { last.section < length pieces.now }
    requires next { last.section + 1 < 2 ^ 64 }
    requires ordered { (last.row ≤ from) × (from ≤ z) }
    requires within { z ≤ length records.now }
    requires few { length records.now < 2 ^ 30 }
    requires meter { meter.old.documents + length records.now < 2 ^ 32 - 1 }
    ensures kept { IfOk result (λ all. (x : PieceValue) → slice_get pieces.now last.section ≡ Some x
        → AreKeptBehind config.now x (from - last.row) (changed_sections (last.section + 1) from z records.now) all.items) }
    ensures documents { OnOk result (meter.new.documents ≡ meter.old.documents + documents_in (changed_sections (last.section + 1) from z records.now)) }
    ensures lines { OnOk result (meter.new.lines ≡ meter.old.lines) }
{
    let mut all = Vec::new(alloc);
    let rows = (from - last.row) as u32;
    all.push(shorter_piece(alloc, config, pieces, last.section, rows)?)?;
    let rest = Place {
        section: last.section + 1,
        row: from,
    };
    let mut judged = judge_changed(alloc, config, records, rest, z, meter)?;
    all.append(&mut judged)?;
    Ok(all)
}

/// Does what `rejudge_pieces` does, but judges the sections that hold one of the rows `from..end`,
/// from the piece `here` on, unless only values are typed again in one section that is one piece.
fn rejudge_sections<A: Allocator + Copy>(
    alloc: A,
    config: &Config,
    pieces: &PieceList<'_, A>,
    here: Place,
    old: &Chunks<Record<A>, A>,
    records: &Spliced<'_, Record<A>, A>,
    from: usize,
    old_end: usize,
    end: usize,
    meter: &mut Meter,
) -> Result<Rejudged<A>, AllocError>
    requires kept { AreKeptSections config.now (sections old.now.items) pieces.now }
    requires here { IsAt (summaries pieces.now) here }
    requires above { here.row ≤ from }
    requires last { (here.section ≡ length pieces.now) ⊎ (from < rows_kept (take (here.section + 1) (summaries pieces.now))) }
    requires before { take from old.now.items ≡ take from records.now }
    requires behind { drop old_end old.now.items ≡ drop end records.now }
    requires old_range { IsRange from old_end (length old.now.items) }
    requires range { IsRange from end (length records.now) }
    requires alike { GoOnAlike old.now.items records.now old_end end }
    requires few { (length old.now.items < 2 ^ 30) × (length records.now < 2 ^ 30) }
    requires meter { meter.old.documents + length records.now < 2 ^ 32 - 1 }
    ensures range { IfOk result (λ r. IsRange r.from r.end (length pieces.now)) }
    ensures kept { IfOk result (λ r. AreKeptSections config.now (sections records.now) (splice pieces.now r.from r.end r.pieces.items)) }
    ensures around { IfOk result (λ r. ArePiecesAround (summaries pieces.now) records.now from old_end end r.from r.end
        ⊎ AllStay (summaries pieces.now) (summaries r.pieces.items) from old_end end r.from r.end) }
    ensures documents { OnOk result (TakesNothing old.now.items records.now from → (m : ℕ) → end ≤ m + 1
        → meter.new.documents ≤ meter.old.documents + documents_holding 0 from m (sections records.now)) }
    ensures lines { OnOk result (meter.new.lines ≡ meter.old.lines) }
{
    let first = front_of(pieces, records, here);
    let last = back_of(pieces, records, first, old_end, end);
    if old_end == end
        && end - from <= meter.lines as usize
        && last.section - first.section == 1
        && keep_sections(alloc, config, old, records, from, end)?
    {
        return Ok(Rejudged {
            from: first.section,
            end: first.section,
            pieces: Vec::new(alloc),
        });
    }
    let z = new_row(pieces, records.len(), last, old_end, end);
    if let Some(at) = ends_anew(pieces, old, records, first, from) {
        let behind = judge_behind(alloc, config, pieces, records, at, from, z, meter)?;
        return Ok(Rejudged {
            from: at.section,
            end: last.section,
            pieces: behind,
        });
    }
    let judged = judge_changed(alloc, config, records, first, z, meter)?;
    Ok(Rejudged {
        from: first.section,
        end: last.section,
        pieces: judged,
    })
}

/// Returns what an edit makes of the pieces of all sections. The new records are the old ones before
/// row `from`, and from row `end` on they are the old ones from row `old_end` on. Rows count from 0.
/// Searches the first changed piece from the piece `near` on, which must begin at or before row
/// `from`.
///
/// If one piece that has a state before it holds the old rows `from..old_end`, and nothing else
/// changes, only its rows are judged. Otherwise judges only the sections that hold one of the rows
/// `from..end`, if the section above loses only rows without a lexeme and a comment, and counts
/// their documents in the meter. If one section that is one piece holds all these rows and is found
/// to keep its summary, it is not judged, and its document is not counted. The rows are compared for
/// this only if the meter says that at least as many were scanned. The only error is out of memory,
/// or more rows or lexemes than a `u32` counts.
pub fn rejudge_pieces<A: Allocator + Copy>(
    alloc: A,
    config: &Config,
    pieces: &PieceList<'_, A>,
    near: Place,
    old: &Chunks<Record<A>, A>,
    records: &Spliced<'_, Record<A>, A>,
    from: usize,
    old_end: usize,
    end: usize,
    meter: &mut Meter,
) -> Result<Rejudged<A>, AllocError>
    requires kept { AreKeptSections config.now (sections old.now.items) pieces.now }
    requires near { IsAt (summaries pieces.now) near }
    requires above { near.row ≤ from }
    requires before { take from old.now.items ≡ take from records.now }
    requires behind { drop old_end old.now.items ≡ drop end records.now }
    requires old_range { IsRange from old_end (length old.now.items) }
    requires range { IsRange from end (length records.now) }
    requires alike { GoOnAlike old.now.items records.now old_end end }
    requires few { (length old.now.items < 2 ^ 30) × (length records.now < 2 ^ 30) }
    requires meter { meter.old.documents + length records.now < 2 ^ 32 - 1 }
    ensures range { IfOk result (λ r. IsRange r.from r.end (length pieces.now)) }
    ensures kept { IfOk result (λ r. AreKeptSections config.now (sections records.now) (splice pieces.now r.from r.end r.pieces.items)) }
    ensures around { IfOk result (λ r. ArePiecesAround (summaries pieces.now) records.now from old_end end r.from r.end
        ⊎ AllStay (summaries pieces.now) (summaries r.pieces.items) from old_end end r.from r.end) }
    ensures documents { OnOk result (TakesNothing old.now.items records.now from → (m : ℕ) → end ≤ m + 1
        → meter.new.documents ≤ meter.old.documents + documents_holding 0 from m (sections records.now)) }
    ensures lines { OnOk result (meter.new.lines ≡ meter.old.lines) }
{
    piece_is_edited();
    let here = section_of(pieces.kept(), near, from);
    let one = edit_one(
        alloc, config, pieces, here, old, records, from, old_end, end,
    )?;
    if let Some(piece) = one {
        return one_replaced(alloc, here.section, pieces.len(), piece);
    }
    rejudge_sections(
        alloc, config, pieces, here, old, records, from, old_end, end, meter,
    )
}
