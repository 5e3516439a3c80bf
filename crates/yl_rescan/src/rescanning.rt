//! The records of an edited text.
ghost use Rattle.std.specs.Prelude.{◌≡◌, ◌⊎◌, ◌≤◌, ◌<◌, ◌+◌, ◌-◌, ◌^◌, ◌++◌, true, false, Some, None, Option, length, take, drop, IfOk, IfSome, OnOk};
ghost use Rattle.std.specs.List.{splice};
ghost use Rattle.yl_text.specs.Store.{AreLines, IsRange};
ghost use Rattle.yl_row.specs.Entries.{Stopped};
ghost use Rattle.yl_record.specs.Records.{characters_in};
ghost use Rattle.yl_record.specs.Recorded.{records_from};
ghost use Rattle.yl_sections.specs.Local.{is_start_at, kind_after};
ghost use Rattle.yl_sections.specs.Alike.{GoOnAlike};
ghost use Rattle.yl_sections.specs.Holding.{TakesNothing};
ghost use Rattle.yl_rescan.specs.Agree.{counterpart, next_cut, MayKeep, StopsPassed};
ghost use Rattle.yl_rescan.specs.Held.{AreHeld, IsCutAt};
ghost use Rattle.yl_rescan.specs.Made.{HoldsEdit, WasRescanned};
ghost use Rattle.yl_rescan.specs.Rescan.{IsRescan};
ghost use Rattle.yl_rescan.specs.declared.scanning.ScanEnd.TheVariants.{Agreed, TextEnd};

use crate::passing::{feed_stopped, next_start, pass};
use crate::scanning::{ScanEnd, Scanned, is_stopped, last_sound, rescan_from};
use std::alloc::{AllocError, Allocator};
use yl_chunks::{Chunks, Spliced};
use yl_lexeme::Meter;
use yl_record::Record;
use yl_sections::{is_start_at, kind_before};
use yl_text::{LineStore, Lines, Patched, Row};

/// What an edit makes of the records of a text: the old records of the rows `from..old_end` are
/// replaced by the new records of the rows `from..end`. Rows count from 0.
#[derive(Drop)]
pub struct Rescanned<A: Allocator> {
    /// The first row whose record is replaced.
    pub from: usize,
    /// The row after the last one whose record is replaced, before the edit.
    pub old_end: usize,
    /// The row after the last one whose record is new, after the edit.
    pub end: usize,
    /// The new records.
    pub records: Vec<Record<A>, A>,
    /// The row from which on the records are not those of the new text, since reading has stopped
    /// above it. `None` if all are those of the new text.
    pub cut: Option<usize>,
}

/// Returns the old row that corresponds to the row `end` at which scanning ended. The new rows from
/// `stop` on are the old ones from `b` on, and there are `len` old rows.
fn counterpart(why: ScanEnd, end: usize, stop: usize, b: usize, len: usize) -> usize
    requires { (why ≡ TextEnd → ⊥) → (stop ≤ end) × (end + b < 2 ^ 64) }
    ensures { result ≡ counterpart why end stop b len }
{
    match why {
        ScanEnd::TextEnd => len,
        _ => end - stop + b,
    }
}

/// Returns the row from which on the records that stay are not those of the new text, if there is
/// such a row. `end` is the row at which scanning ended, and `at` its old row.
fn next_cut(why: ScanEnd, cut: Option<usize>, at: usize, end: usize) -> Option<usize>
    requires { IfSome cut (λ n. n + end < 2 ^ 64) }
    ensures { result ≡ next_cut why cut at end }
{
    match (why, cut) {
        (ScanEnd::Agreed, Some(row)) if at < row => Some(row - at + end),
        (ScanEnd::Halted, None) => Some(end),
        _ => None,
    }
}

/// Returns `true` if the old records from row `at` on may stay below the new ones. If records are
/// to be cut at row `cut`, a section must begin with this row. If not, scanning must not have ended
/// below a fault. They also stay if `is_below_fault` is set, which says that scanning began below a
/// fault, and the states agree: then a section begins with row `cut` as before.
fn may_keep<'a, A: Allocator + Copy>(
    old: &'a Chunks<Record<A>, A>,
    from: usize,
    at: usize,
    new: &'a [Record<A>],
    why: ScanEnd,
    cut: Option<usize>,
    is_below_fault: bool,
) -> bool
    requires range { IsRange from at (length old.now.items) }
    requires few { length old.now.items + length new.now < 2 ^ 64 }
    ensures kept { result ≡ true → ((why ≡ Agreed) × (is_below_fault ≡ true)) ⊎ MayKeep (splice old.now.items from at new.now) why cut }
    ensures refused { result ≡ false → MayKeep (splice old.now.items from at new.now) why cut → ⊥ }
{
    if is_below_fault {
        if let ScanEnd::Agreed = why {
            return true;
        }
    }
    match (why, cut) {
        (_, Some(row)) => is_start_at(&Spliced::new(old, from, at, new), row),
        (ScanEnd::Halted, None) => false,
        _ => true,
    }
}

/// Adds the records of the rows from `read.end` on, before `end`, to those of `read`. These rows
/// are passed, since reading has stopped above them. All these records replace the old ones before
/// `old_end`. The only error is out of memory.
fn passed_to<L: Lines>(
    alloc: L::Alloc,
    lines: &L,
    read: Rescanned<L::Alloc>,
    old_end: usize,
    end: usize,
    cut: Option<usize>,
) -> Result<Rescanned<L::Alloc>, AllocError>
    requires lines { AreLines (L.rows lines.now) }
    requires ordered { read.end ≤ end }
    requires within { end ≤ length (L.rows lines.now) }
    ensures from { IfOk result (λ r. r.from ≡ read.from) }
    ensures old_end { IfOk result (λ r. r.old_end ≡ old_end) }
    ensures end { IfOk result (λ r. r.end ≡ end) }
    ensures cut { IfOk result (λ r. r.cut ≡ cut) }
    ensures records { IfOk result (λ r. r.records.items ≡ read.records.items ++ records_from Stopped (drop read.end (take end (characters_in (L.rows lines.now))))) }
{
    let Rescanned {
        from,
        end: begin,
        records,
        ..
    } = read;
    let mut records = records;
    pass(alloc, lines, begin, end, &mut records)?;
    Ok(Rescanned {
        from,
        old_end,
        end,
        records,
        cut,
    })
}

/// Returns the row `at` or the row `cut`, whichever is later.
fn first_below(cut: Option<usize>, at: usize) -> usize
    ensures least { at ≤ result }
    ensures below { IfSome cut (λ n. n ≤ result) }
{
    match cut {
        None => at,
        Some(row) => row.max(at),
    }
}

/// Adds the records of the rows below to those of `read`. These rows are passed, since reading has
/// stopped above them: down to the first old row, from row `cut` on, with which a section begins,
/// or to the text's end. The only error is out of memory.
fn with_passed<L: Lines>(
    alloc: L::Alloc,
    lines: &L,
    old: &Chunks<Record<L::Alloc>, L::Alloc>,
    cut: Option<usize>,
    read: Rescanned<L::Alloc>,
) -> Result<Rescanned<L::Alloc>, AllocError>
    requires lines { AreLines (L.rows lines.now) }
    requires within { read.end ≤ length (L.rows lines.now) }
    requires rows { length old.now.items - read.old_end + read.end ≡ length (L.rows lines.now) }
    requires range { IsRange read.from read.old_end (length old.now.items) }
    requires len { read.end ≡ read.from + length read.records.items }
    requires few { length old.now.items + length (L.rows lines.now) < 2 ^ 63 }
    ensures from { IfOk result (λ r. r.from ≡ read.from) }
    ensures records { IfOk result (λ r. r.records.items ≡ read.records.items ++ records_from Stopped (drop read.end (take r.end (characters_in (L.rows lines.now))))) }
    ensures stops { IfOk result (λ r. StopsPassed old.now.items cut (kind_after None (take read.end (splice old.now.items read.from read.old_end read.records.items))) read.old_end read.end r.old_end r.end (length (L.rows lines.now)) r.cut) }
{
    let last = kind_before(
        &Spliced::new(old, read.from, read.old_end, &read.records),
        read.end,
    );
    if let Some(row) = next_start(old, first_below(cut, read.old_end), last) {
        let end = row - read.old_end + read.end;
        let to_row = passed_to(alloc, lines, read, row, end, Some(end))?;
        return Ok(to_row);
    }
    let to_end = passed_to(alloc, lines, read, old.len(), lines.len(), None)?;
    Ok(to_end)
}

/// Does what `rescan` does if the edit does not begin below row `cut`.
fn rescan_above<S: LineStore>(
    alloc: S::Alloc,
    store: &S,
    a: usize,
    b: usize,
    rows: &[Row<S::Alloc>],
    old: &Chunks<Record<S::Alloc>, S::Alloc>,
    cut: Option<usize>,
    meter: &mut Meter,
) -> Result<Rescanned<S::Alloc>, AllocError>
    requires range { IsRange a b (length (S.rows store.now)) }
    requires old_lines { AreLines (S.rows store.now) }
    requires lines { AreLines (splice (S.rows store.now) a b rows.now) }
    requires held { AreHeld (characters_in (S.rows store.now)) cut old.now.items }
    requires above { IfSome cut (λ n. a ≤ n) }
    requires meter { meter.old.lines ≡ 0 }
    ensures made { IfOk result (λ r. WasRescanned old.now.items (characters_in (S.rows store.now)) (characters_in (splice (S.rows store.now) a b rows.now)) r.cut a b (length rows.now) r.from r.old_end r.end meter.new.lines r.records.items) }
    ensures documents { OnOk result (meter.new.documents ≡ meter.old.documents) }
{
    let from = last_sound(old, a);
    let stop = a + rows.len();
    let patched = Patched::new(store, a, b, rows);
    let found = rescan_from(alloc, &patched, old, cut, &from, stop, b, meter)?;
    let Scanned { records, end, why } = found;
    let at = counterpart(why, end, stop, b, old.len());
    let next = next_cut(why, cut, at, end);
    let is_below_fault = is_stopped(from.state);
    if !may_keep(old, from.row, at, &records, why, next, is_below_fault) {
        let read = Rescanned {
            from: from.row,
            old_end: at,
            end,
            records,
            cut: None,
        };
        let rescanned = with_passed(alloc, &patched, old, cut, read)?;
        return Ok(rescanned);
    }
    Ok(Rescanned {
        from: from.row,
        old_end: at,
        end,
        records,
        cut: next,
    })
}

/// Does what `rescan` does if the edit begins below row `cut`. In both texts reading has stopped at
/// this row, so nothing is read of the rows from there on. Of these rows, those of the edit are
/// scanned, and the others are passed.
fn rescan_below<S: LineStore>(
    alloc: S::Alloc,
    store: &S,
    a: usize,
    b: usize,
    rows: &[Row<S::Alloc>],
    old: &Chunks<Record<S::Alloc>, S::Alloc>,
    cut: usize,
    meter: &mut Meter,
) -> Result<Rescanned<S::Alloc>, AllocError>
    requires range { IsRange a b (length (S.rows store.now)) }
    requires old_lines { AreLines (S.rows store.now) }
    requires lines { AreLines (splice (S.rows store.now) a b rows.now) }
    requires held { IsCutAt (characters_in (S.rows store.now)) cut old.now.items }
    requires below { cut < a }
    requires meter { meter.old.lines ≡ 0 }
    ensures made { IfOk result (λ r. WasRescanned old.now.items (characters_in (S.rows store.now)) (characters_in (splice (S.rows store.now) a b rows.now)) r.cut a b (length rows.now) r.from r.old_end r.end meter.new.lines r.records.items) }
    ensures documents { OnOk result (meter.new.documents ≡ meter.old.documents) }
{
    let patched = Patched::new(store, a, b, rows);
    let end = a + rows.len();
    let mut records = Vec::new(alloc);
    pass(alloc, &patched, cut, a, &mut records)?;
    feed_stopped(alloc, &patched, a, end, &mut records, meter)?;
    let read = Rescanned {
        from: cut,
        old_end: b,
        end,
        records,
        cut: None,
    };
    let rescanned = with_passed(alloc, &patched, old, Some(cut), read)?;
    Ok(rescanned)
}

/// Scans an edited text again, as far as the edit requires it. The edit puts `rows` in place of the
/// lines `a..b` of the store. `old` are the records before the edit. If `cut` is a row, the records
/// from this row on are those from before a scan fault that stops reading above it. Rows count from
/// 0.
///
/// Scanning begins at the last sound row above row `a`. It ends at the first row below the edit
/// that has the state that it had, or below a fault at a row from which on old records may stay, or
/// at the text's end. If the edit begins below row `cut`, only its own rows are scanned. Other rows
/// are passed, since reading has stopped above them: their records are made without a scan. These
/// are the rows from row `cut` down to such an edit, and rows below the scanned ones, down to a row
/// with which a section begins or to the text's end.
///
/// The meter counts each row that is scanned, and no other. Nothing else changes. The only error is
/// out of memory.
pub fn rescan<S: LineStore>(
    alloc: S::Alloc,
    store: &S,
    a: usize,
    b: usize,
    rows: &[Row<S::Alloc>],
    old: &Chunks<Record<S::Alloc>, S::Alloc>,
    cut: Option<usize>,
    meter: &mut Meter,
) -> Result<Rescanned<S::Alloc>, AllocError>
    requires range { IsRange a b (length (S.rows store.now)) }
    requires old_lines { AreLines (S.rows store.now) }
    requires lines { AreLines (splice (S.rows store.now) a b rows.now) }
    requires held { AreHeld (characters_in (S.rows store.now)) cut old.now.items }
    requires meter { meter.old.lines ≡ 0 }
    ensures range { IfOk result (λ r. IsRange r.from r.old_end (length old.now.items)) }
    ensures held { IfOk result (λ r. AreHeld (characters_in (splice (S.rows store.now) a b rows.now)) r.cut (splice old.now.items r.from r.old_end r.records.items)) }
    ensures before { IfOk result (λ r. take r.from old.now.items ≡ take r.from (splice old.now.items r.from r.old_end r.records.items)) }
    ensures behind { IfOk result (λ r. drop r.old_end old.now.items ≡ drop r.end (splice old.now.items r.from r.old_end r.records.items)) }
    ensures within { IfOk result (λ r. r.end ≤ length (splice (S.rows store.now) a b rows.now)) }
    ensures len { IfOk result (λ r. r.end ≡ r.from + length r.records.items) }
    ensures alike { IfOk result (λ r. GoOnAlike old.now.items (splice old.now.items r.from r.old_end r.records.items) r.old_end r.end) }
    ensures taken { IfOk result (λ r. TakesNothing old.now.items (splice old.now.items r.from r.old_end r.records.items) r.from) }
    ensures below { IfOk result (λ r. IfSome r.cut (λ n. r.end ≤ n)) }
    ensures holds { IfOk result (λ r. HoldsEdit a b (length rows.now) r.from r.old_end r.end) }
    ensures work { IfOk result (λ r. IsRescan (characters_in (S.rows store.now)) (characters_in (splice (S.rows store.now) a b rows.now)) a b (length rows.now) r.from r.end meter.new.lines) }
    ensures documents { OnOk result (meter.new.documents ≡ meter.old.documents) }
{
    if let Some(row) = cut {
        if a > row {
            return rescan_below(alloc, store, a, b, rows, old, row, meter);
        }
    }
    rescan_above(alloc, store, a, b, rows, old, cut, meter)
}
