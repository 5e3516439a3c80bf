//! Judges the sections that an edit changed.
ghost use Rattle.std.specs.Prelude.{◌≡◌, ◌↔◌, ◌⊎◌, ◌+◌, ◌-◌, ◌<◌, ◌≤◌, ◌^◌, ◌∷◌, ℕ, IsTrue, List, length, map, take, drop, IfOk, OnOk};
ghost use Rattle.std.specs.List.{splice};
ghost use Rattle.yl_text.specs.Store.{IsRange};
ghost use Rattle.yl_sections.specs.Sections.{sections};
ghost use Rattle.yl_sections.specs.Judge.{kept_of_section};
ghost use Rattle.yl_sections.specs.Kept.{documents_in, rows_kept};
ghost use Rattle.yl_sections.specs.Places.{IsAt};
ghost use Rattle.yl_rejudge.specs.Places.{AllStay, AreAround, changed_sections};
ghost use Rattle.yl_sections.specs.Alike.{GoOnAlike};
ghost use Rattle.yl_record.specs.Records.{RecordValue};
ghost use Rattle.yl_sections.specs.Front.{IsFront};
ghost use Rattle.yl_sections.specs.Holding.{TakesNothing, documents_holding};

use crate::places::{back_of, front_of, new_row};
use crate::shortened::ends_anew;
use std::alloc::{AllocError, Allocator};
use yl_chunks::{Chunks, Spliced};
use yl_config::Config;
use yl_lexeme::Meter;
use yl_record::Record;
use yl_retyped::keep_sections;
use yl_sections::{Kept, Place, judge_all, kept_of_front, section_of};

/// What an edit makes of the summaries of all sections: the summaries of some sections are
/// replaced.
#[derive(Drop)]
pub struct Rejudged<A: Allocator> {
    /// The index of the first section that is replaced, counted from 0.
    pub from: usize,
    /// The index after that of the last section that is replaced, counted from 0.
    pub end: usize,
    /// The summaries of the sections that replace them.
    pub kept: Vec<Kept<A>, A>,
}

/// Returns references to the records of the rows `x..z`, counted from 0. The only error is out of
/// memory.
fn gather_between<'a, A: Allocator + Copy>(
    alloc: A,
    records: &Spliced<'a, Record<A>, A>,
    x: usize,
    z: usize,
) -> Result<Vec<&'a Record<A>, A>, AllocError>
    requires ordered { x ≤ z }
    requires within { z ≤ length records.now }
    ensures { IfOk result (λ all. map (λ r. r.now) all.items ≡ drop x (take z records.now)) }
{
    let mut all = Vec::new(alloc);
    for i in x..z {
        all.push(records.get(i))?;
    }
    Ok(all)
}

/// Returns the summary of each section of the rows `x..z`. Counts their documents in the meter. The
/// only error is out of memory.
fn judge_between<A: Allocator + Copy>(
    alloc: A,
    config: &Config,
    records: &Spliced<'_, Record<A>, A>,
    x: usize,
    z: usize,
    meter: &mut Meter,
) -> Result<Vec<Kept<A>, A>, AllocError>
    requires ordered { x ≤ z }
    requires within { z ≤ length records.now }
    requires few { length records.now < 2 ^ 30 }
    requires meter { meter.old.documents + length records.now < 2 ^ 32 - 1 }
    ensures kept { IfOk result (λ v. v.items ≡ map (kept_of_section config.now) (sections (drop x (take z records.now)))) }
    ensures documents { OnOk result (meter.new.documents ≡ meter.old.documents + documents_in (sections (drop x (take z records.now)))) }
    ensures lines { OnOk result (meter.new.lines ≡ meter.old.lines) }
{
    let all = gather_between(alloc, records, x, z)?;
    judge_all(alloc, config, &all, meter)
}

/// Returns the summary of each section of the rows from the place `first` on, before row `z`. If
/// there are no such rows, but sections before them that stay, as after the removal of whole
/// documents, there is nothing to judge. Counts the documents of these sections in the meter. The
/// only error is out of memory.
fn judge_changed<A: Allocator + Copy>(
    alloc: A,
    config: &Config,
    records: &Spliced<'_, Record<A>, A>,
    first: Place,
    z: usize,
    meter: &mut Meter,
) -> Result<Vec<Kept<A>, A>, AllocError>
    requires ordered { first.row ≤ z }
    requires within { z ≤ length records.now }
    requires few { length records.now < 2 ^ 30 }
    requires meter { meter.old.documents + length records.now < 2 ^ 32 - 1 }
    ensures kept { IfOk result (λ v. v.items ≡ map (kept_of_section config.now) (changed_sections first.section first.row z records.now)) }
    ensures documents { OnOk result (meter.new.documents ≡ meter.old.documents + documents_in (changed_sections first.section first.row z records.now)) }
    ensures lines { OnOk result (meter.new.lines ≡ meter.old.lines) }
{
    if first.section > 0 && first.row == z {
        Ok(Vec::new(alloc))
    } else {
        judge_between(alloc, config, records, first.row, z, meter)
    }
}

/// Returns the summary of the section at the place `first`, of which only the rows before `from`
/// are left, and of each section of the rows `from..z`. Makes the first from `kept`, the summary of
/// the whole section. Counts the documents of the other sections in the meter. The only error is
/// out of memory.
fn judge_behind<A: Allocator + Copy>(
    alloc: A,
    config: &Config,
    kept: &Kept<A>,
    records: &Spliced<'_, Record<A>, A>,
    first: Place,
    from: usize,
    z: usize,
    meter: &mut Meter,
) -> Result<Vec<Kept<A>, A>, AllocError>
    requires section { first.section < 2 ^ 32 }
    requires ordered { (first.row ≤ from) × (from ≤ z) }
    requires within { z ≤ length records.now }
    requires few { length records.now < 2 ^ 30 }
    requires meter { meter.old.documents + length records.now < 2 ^ 32 - 1 }
    ensures kept { IfOk result (λ v. (rs : List RecordValue) → from - first.row ≤ length rs → IsFront (from - first.row) rs → kept.now ≡ kept_of_section config.now rs
        → v.items ≡ kept_of_section config.now (take (from - first.row) rs) ∷ map (kept_of_section config.now) (changed_sections (first.section + 1) from z records.now)) }
    ensures documents { OnOk result (meter.new.documents ≡ meter.old.documents + documents_in (changed_sections (first.section + 1) from z records.now)) }
    ensures lines { OnOk result (meter.new.lines ≡ meter.old.lines) }
{
    let mut all = Vec::new(alloc);
    all.push(kept_of_front(alloc, kept, (from - first.row) as u32)?)?;
    let rest = Place {
        section: first.section + 1,
        row: from,
    };
    let mut judged = judge_changed(alloc, config, records, rest, z, meter)?;
    all.append(&mut judged)?;
    Ok(all)
}

/// Does what `rejudge` does, but judges the sections that hold one of the rows `from..end` in any
/// case.
fn judge_edited<A: Allocator + Copy>(
    alloc: A,
    config: &Config,
    kept: &Chunks<Kept<A>, A>,
    near: Place,
    old: &Chunks<Record<A>, A>,
    records: &Spliced<'_, Record<A>, A>,
    from: usize,
    old_end: usize,
    end: usize,
    meter: &mut Meter,
) -> Result<Rejudged<A>, AllocError>
    requires kept { kept.now.items ≡ map (kept_of_section config.now) (sections old.now.items) }
    requires near { IsAt kept.now.items near }
    requires above { near.row ≤ from }
    requires before { take from old.now.items ≡ take from records.now }
    requires behind { drop old_end old.now.items ≡ drop end records.now }
    requires old_range { IsRange from old_end (length old.now.items) }
    requires range { IsRange from end (length records.now) }
    requires alike { GoOnAlike old.now.items records.now old_end end }
    requires few { (length old.now.items < 2 ^ 30) × (length records.now < 2 ^ 30) }
    requires meter { meter.old.documents + length records.now < 2 ^ 32 - 1 }
    ensures range { IfOk result (λ r. IsRange r.from r.end (length kept.now.items)) }
    ensures kept { IfOk result (λ r. splice kept.now.items r.from r.end r.kept.items ≡ map (kept_of_section config.now) (sections records.now)) }
    ensures around { IfOk result (λ r. AreAround kept.now.items records.now from old_end end r.from r.end) }
    ensures documents { OnOk result (TakesNothing old.now.items records.now from → (m : ℕ) → end ≤ m + 1
        → meter.new.documents ≤ meter.old.documents + documents_holding 0 from m (sections records.now)) }
    ensures lines { OnOk result (meter.new.lines ≡ meter.old.lines) }
{
    let here = section_of(kept, near, from);
    let first = front_of(kept, records, here);
    let last = back_of(kept, records, first, old_end, end);
    let z = new_row(kept, records.len(), last, old_end, end);
    if ends_anew(kept, old, records, first, from) {
        let section = kept.get(first.section);
        let kept = judge_behind(alloc, config, section, records, first, from, z, meter)?;
        return Ok(Rejudged {
            from: first.section,
            end: last.section,
            kept,
        });
    }
    let kept = judge_changed(alloc, config, records, first, z, meter)?;
    Ok(Rejudged {
        from: first.section,
        end: last.section,
        kept,
    })
}

/// Returns `true` if there is a section at the place, and it holds the rows from there on, before
/// row `end`.
fn is_in_section<A: Allocator + Copy>(kept: &Chunks<Kept<A>, A>, place: Place, end: usize) -> bool
    requires at { IsAt kept.now.items place }
    requires above { place.row ≤ end }
    ensures { IsTrue result ↔ (place.section < length kept.now.items) × (end ≤ rows_kept (take (place.section + 1) kept.now.items)) }
{
    if place.section >= kept.len() {
        return false;
    }
    end - place.row <= kept.get(place.section).rows() as usize
}

/// Returns what an edit makes of the summaries of all sections. The new records are the old ones
/// before row `from`, and from row `end` on they are the old ones from row `old_end` on. Rows count
/// from 0. Searches the first changed section from the section `near` on, which must begin at or
/// before row `from`.
///
/// Judges only the sections that hold one of the rows `from..end`, if the section above loses only
/// rows without a lexeme and a comment, and counts their documents in the meter. If one section
/// holds all these rows and is found to keep its summary, it is not judged, and its document is not
/// counted. The rows are compared for this only if the meter says that at least as many were
/// scanned. The only error is out of memory.
pub fn rejudge<A: Allocator + Copy>(
    alloc: A,
    config: &Config,
    kept: &Chunks<Kept<A>, A>,
    near: Place,
    old: &Chunks<Record<A>, A>,
    records: &Spliced<'_, Record<A>, A>,
    from: usize,
    old_end: usize,
    end: usize,
    meter: &mut Meter,
) -> Result<Rejudged<A>, AllocError>
    requires kept { kept.now.items ≡ map (kept_of_section config.now) (sections old.now.items) }
    requires near { IsAt kept.now.items near }
    requires above { near.row ≤ from }
    requires before { take from old.now.items ≡ take from records.now }
    requires behind { drop old_end old.now.items ≡ drop end records.now }
    requires old_range { IsRange from old_end (length old.now.items) }
    requires range { IsRange from end (length records.now) }
    requires alike { GoOnAlike old.now.items records.now old_end end }
    requires few { (length old.now.items < 2 ^ 30) × (length records.now < 2 ^ 30) }
    requires meter { meter.old.documents + length records.now < 2 ^ 32 - 1 }
    ensures range { IfOk result (λ r. IsRange r.from r.end (length kept.now.items)) }
    ensures kept { IfOk result (λ r. splice kept.now.items r.from r.end r.kept.items ≡ map (kept_of_section config.now) (sections records.now)) }
    ensures around { IfOk result (λ r. AreAround kept.now.items records.now from old_end end r.from r.end ⊎ AllStay kept.now.items r.kept.items from old_end end r.from r.end) }
    ensures documents { OnOk result (TakesNothing old.now.items records.now from → (m : ℕ) → end ≤ m + 1
        → meter.new.documents ≤ meter.old.documents + documents_holding 0 from m (sections records.now)) }
    ensures lines { OnOk result (meter.new.lines ≡ meter.old.lines) }
{
    let begin = section_of(kept, near, from);
    if old_end == end
        && end - from <= meter.lines as usize
        && is_in_section(kept, begin, end)
        && keep_sections(alloc, config, old, records, from, end)?
    {
        return Ok(Rejudged {
            from: begin.section,
            end: begin.section,
            kept: Vec::new(alloc),
        });
    }
    judge_edited(
        alloc, config, kept, begin, old, records, from, old_end, end, meter,
    )
}
