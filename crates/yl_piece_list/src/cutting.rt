//! Judges sections, and cuts them into pieces.
ghost use Rattle.std.specs.Prelude.{◌≡◌, ◌+◌, ◌-◌, ◌<◌, ◌≤◌, ◌^◌, length, map, take, drop, IfOk, OnOk};
ghost use Rattle.yl_sections.specs.Sections.{sections};
ghost use Rattle.yl_sections.specs.Judge.{kept_of_section};
ghost use Rattle.yl_sections.specs.Kept.{documents_in};
ghost use Rattle.yl_rejudge.specs.Places.{changed_sections};
ghost use Rattle.yl_section_pieces.specs.Pieces.{IsKeptSection};
ghost use Rattle.yl_section_pieces.specs.Sections.{AreKeptSections};

use std::alloc::{AllocError, Allocator};
use yl_chunks::Spliced;
use yl_config::Config;
use yl_lexeme::Meter;
use yl_record::Record;
use yl_section_pieces::{SectionPiece, pieces_of_section};
use yl_sections::{Kept, Place, judge_all};

/// Returns references to the records of the rows `x..z`, counted from 0. The only error is out of
/// memory.
pub fn gather_between<'a, A: Allocator + Copy>(
    alloc: A,
    records: &Spliced<'a, Record<A>, A>,
    x: usize,
    z: usize,
) -> Result<Vec<&'a Record<A>, A>, AllocError>
    requires ordered { x ≤ z }
    requires within { z ≤ length records.now }
    ensures { IfOk result (λ all. map (λ r. r.now) all.items ≡ drop x (take z records.now)) }
{
    let mut all = Vec::new(alloc);
    for i in x..z {
        all.push(records.get(i))?;
    }
    Ok(all)
}

/// Returns the row after the last one of a section that begins with the row `row` of these rows,
/// counted from 0, and has this summary.
fn end_of<A: Allocator + Copy>(rows: &[&Record<A>], row: usize, kept: &Kept<A>) -> usize
    requires { row + kept.now.rows ≤ length rows.now }
    ensures { result ≡ row + kept.now.rows }
{
    let end = row + kept.rows() as usize;
    end
}

/// Returns the pieces of the section that begins with the row `row` of these rows, counted from 0,
/// and has this summary. The only error is out of memory, or more rows or lexemes than a `u32`
/// counts.
fn pieces_at<A: Allocator + Copy>(
    alloc: A,
    config: &Config,
    rows: &[&Record<A>],
    row: usize,
    kept: Kept<A>,
) -> Result<Vec<SectionPiece<A>, A>, AllocError>
    requires { row + kept.rows ≤ length rows.now }
    ensures { IfOk result (λ ps. kept ≡ kept_of_section config.now (take kept.rows (drop row (map (λ r. r.now) rows.now)))
        → IsKeptSection config.now (take kept.rows (drop row (map (λ r. r.now) rows.now))) ps.items) }
{
    let end = end_of(rows, row, &kept);
    pieces_of_section(alloc, config, &rows[row..end], kept)
}

/// Returns the pieces of the sections of these rows, given the summaries of the sections. The only
/// error is out of memory, or more rows or lexemes than a `u32` counts.
fn cut_sections<A: Allocator + Copy>(
    alloc: A,
    config: &Config,
    rows: &[&Record<A>],
    judged: Vec<Kept<A>, A>,
) -> Result<Vec<SectionPiece<A>, A>, AllocError>
    requires { judged.items ≡ map (kept_of_section config.now) (sections (map (λ r. r.now) rows.now)) }
    ensures { IfOk result (λ ps. AreKeptSections config.now (sections (map (λ r. r.now) rows.now)) ps.items) }
{
    let mut pieces = Vec::new(alloc);
    let mut row = 0;
    for kept in judged {
        let next = end_of(rows, row, &kept);
        let mut own = pieces_at(alloc, config, rows, row, kept)?;
        pieces.append(&mut own)?;
        row = next;
    }
    Ok(pieces)
}

/// Returns the pieces of each section of the rows `x..z`. Counts their documents in the meter. The
/// only error is out of memory.
fn judge_between<A: Allocator + Copy>(
    alloc: A,
    config: &Config,
    records: &Spliced<'_, Record<A>, A>,
    x: usize,
    z: usize,
    meter: &mut Meter,
) -> Result<Vec<SectionPiece<A>, A>, AllocError>
    requires ordered { x ≤ z }
    requires within { z ≤ length records.now }
    requires few { length records.now < 2 ^ 30 }
    requires meter { meter.old.documents + length records.now < 2 ^ 32 - 1 }
    ensures kept { IfOk result (λ ps. AreKeptSections config.now (sections (drop x (take z records.now))) ps.items) }
    ensures documents { OnOk result (meter.new.documents ≡ meter.old.documents + documents_in (sections (drop x (take z records.now)))) }
    ensures lines { OnOk result (meter.new.lines ≡ meter.old.lines) }
{
    let all = gather_between(alloc, records, x, z)?;
    let judged = judge_all(alloc, config, &all, meter)?;
    cut_sections(alloc, config, &all, judged)
}

/// Returns the pieces of each section of the rows from the place `first` on, before row `z`. If
/// there are no such rows, but pieces before them that stay, as after the removal of whole documents,
/// there is nothing to judge. Counts the documents of these sections in the meter. The only error is
/// out of memory.
pub fn judge_changed<A: Allocator + Copy>(
    alloc: A,
    config: &Config,
    records: &Spliced<'_, Record<A>, A>,
    first: Place,
    z: usize,
    meter: &mut Meter,
) -> Result<Vec<SectionPiece<A>, A>, AllocError>
    requires ordered { first.row ≤ z }
    requires within { z ≤ length records.now }
    requires few { length records.now < 2 ^ 30 }
    requires meter { meter.old.documents + length records.now < 2 ^ 32 - 1 }
    ensures kept { IfOk result (λ ps. AreKeptSections config.now (changed_sections first.section first.row z records.now) ps.items) }
    ensures documents { OnOk result (meter.new.documents ≡ meter.old.documents + documents_in (changed_sections first.section first.row z records.now)) }
    ensures lines { OnOk result (meter.new.lines ≡ meter.old.lines) }
{
    if first.section > 0 && first.row == z {
        Ok(Vec::new(alloc))
    } else {
        judge_between(alloc, config, records, first.row, z, meter)
    }
}
