//! Rows below a scan fault, at which reading has stopped. Their records are made without a scan, or
//! by a scan that reads nothing.
ghost use Rattle.std.specs.Prelude.{◌≡◌, ◌≤◌, ◌<◌, ◌+◌, ◌-◌, ◌^◌, ◌++◌, true, IsSome, IfSome, OnOk, length, take, drop};
ghost use Rattle.yl_text.specs.Store.{AreLines};
ghost use Rattle.yl_row.specs.Entries.{Stopped};
ghost use Rattle.yl_record.specs.Records.{characters_in};
ghost use Rattle.yl_record.specs.Recorded.{records_from};
ghost use Rattle.yl_sections.specs.Local.{begins_section, is_start_at};
ghost use Rattle.yl_rescan.specs.Agree.{state_of_row};

use std::alloc::{AllocError, Allocator};
use yl_chunks::{Chunks, Spliced};
use yl_lexeme::{Kind, Meter};
use yl_record::{Record, Recorder};
use yl_scan::LineState;
use yl_sections::{is_section_start, is_start_at};
use yl_text::{Lines, rows_fit};

/// Returns `true` only if this row of the old records is sound and a section begins with it.
pub fn is_old_start<A: Allocator + Copy>(records: &Chunks<Record<A>, A>, row: usize) -> bool
    ensures sound { result ≡ true → IsSome (state_of_row records.now.items row) }
    ensures start { result ≡ true → is_start_at records.now.items row ≡ true }
{
    if row >= records.len() {
        return false;
    }
    let record = records.get(row);
    if record.lexemes().is_empty() || record.state().is_none() {
        return false;
    }
    is_start_at(&Spliced::new(records, 0, 0, &[]), row)
}

/// Returns the first old row from row `from` on, counted from 0, that is sound and with which a
/// section begins, and would also begin after a lexeme of the kind `last`.
pub fn next_start<A: Allocator + Copy>(
    records: &Chunks<Record<A>, A>,
    from: usize,
    last: Option<Kind>,
) -> Option<usize>
    ensures from { IfSome result (λ row. from ≤ row) }
    ensures sound { IfSome result (λ row. IsSome (state_of_row records.now.items row)) }
    ensures start { IfSome result (λ row. is_start_at records.now.items row ≡ true) }
    ensures begins { IfSome result (λ row. begins_section last (drop row records.now.items) ≡ true) }
{
    for row in from..records.len() {
        if is_old_start(records, row) && is_section_start(last, records.get(row).lexemes()) {
            return Some(row);
        }
    }
    None
}

/// Appends the records of the rows `from..end`, counted from 0, at which reading has stopped. The
/// rows are not scanned. The only error is out of memory.
pub fn pass<L: Lines>(
    alloc: L::Alloc,
    lines: &L,
    from: usize,
    end: usize,
    records: &mut Vec<Record<L::Alloc>, L::Alloc>,
) -> Result<(), AllocError>
    requires lines { AreLines (L.rows lines.now) }
    requires ordered { from ≤ end }
    requires within { end ≤ length (L.rows lines.now) }
    ensures { OnOk result (records.new.items ≡ records.old.items ++ records_from Stopped (drop from (take end (characters_in (L.rows lines.now))))) }
{
    rows_fit(lines);
    records.reserve(end - from)?;
    for i in from..end {
        records.push(Record::unread(alloc, lines.row(i).as_str()))?;
    }
    Ok(())
}

/// Appends the same records as `pass`, but scans the rows and counts them in the meter. The only
/// error is out of memory.
pub fn feed_stopped<L: Lines>(
    alloc: L::Alloc,
    lines: &L,
    from: usize,
    end: usize,
    records: &mut Vec<Record<L::Alloc>, L::Alloc>,
    meter: &mut Meter,
) -> Result<(), AllocError>
    requires lines { AreLines (L.rows lines.now) }
    requires ordered { from ≤ end }
    requires within { end ≤ length (L.rows lines.now) }
    requires meter { meter.old.lines + length (L.rows lines.now) < 2 ^ 32 }
    ensures records { OnOk result (records.new.items ≡ records.old.items ++ records_from Stopped (drop from (take end (characters_in (L.rows lines.now))))) }
    ensures counted { OnOk result (meter.new ≡ record { lines = meter.old.lines + (end - from); documents = meter.old.documents }) }
{
    rows_fit(lines);
    let mut recorder = Recorder::resume(&alloc, &LineState::stopped())?;
    for i in from..end {
        recorder.feed_text(lines.row(i).as_str(), meter)?;
    }
    let mut fed = recorder.finish()?;
    records.append(&mut fed)?;
    Ok(())
}
