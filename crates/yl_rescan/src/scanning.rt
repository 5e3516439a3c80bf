//! Scans rows again.
ghost use Rattle.std.specs.Prelude.{◌≡◌, ◌↔◌, ◌≤◌, ◌<◌, ◌+◌, ◌-◌, ◌^◌, ℕ, List, [], true, IsTrue, IsSome, Some, None, IfOk, IfSome, OnOk, false, option_map, length, take, drop};
ghost use Rattle.yl_text.specs.Store.{AreLines};
ghost use Rattle.yl_row.specs.Entries.{LineStateValue, Stopped};
ghost use Rattle.yl_record.specs.Records.{characters_in, records};
ghost use Rattle.yl_record.specs.Recorded.{records_from};
ghost use Rattle.yl_record.specs.Recorded.{recorded};
ghost use Rattle.yl_sections.specs.Local.{is_start_at};
ghost use Rattle.yl_rescan.specs.Agree.{agree, agrees, state_of_row, read_beyond, BeginsAt, BeginsBelow, EndsAt, GoesOn, StopsAt};
ghost use Rattle.yl_rescan.specs.declared.scanning.ScanEnd.TheVariants.{Agreed, Halted, TextEnd};

use crate::passing::is_old_start;
use std::alloc::{AllocError, Allocator};
use yl_chunks::Chunks;
use yl_lexeme::Meter;
use yl_record::{Record, Recorder};
use yl_scan::LineState;
use yl_text::{Lines, rows_fit};

/// A row at which scanning begins again.
#[derive(Drop)]
pub struct Restart<'a, A: Allocator> {
    /// The row, counted from 0.
    pub row: usize,
    /// The state of the row, or `None` at the text's start.
    pub state: Option<&'a LineState<A>>,
}

/// Returns the last sound row above row `a`, or row 0 if there is none.
pub fn last_sound<'a, A: Allocator + Copy>(
    records: &'a Chunks<Record<A>, A>,
    a: usize,
) -> Restart<'a, A>
    requires { a ≤ length records.now.items }
    ensures place { BeginsBelow records.now.items a result.row (option_map (λ s. s.now) result.state) }
    ensures greatest { (j : ℕ) → result.row < j → j < a → state_of_row records.now.items j ≡ None }
{
    let mut row = a;
    while row > 1 {
        row -= 1;
        if let Some(state) = records.get(row).state() {
            return Restart {
                row,
                state: Some(state),
            };
        }
    }
    Restart {
        row: 0,
        state: None,
    }
}

/// Returns `true` if row `i` is sound and has this state.
fn agree<A: Allocator + Copy>(
    records: &Chunks<Record<A>, A>,
    i: usize,
    state: Option<&LineState<A>>,
) -> bool
    ensures { result ≡ agree (state_of_row records.now.items i) (option_map (λ s. s.now) state.entry) }
{
    if i >= records.len() {
        return false;
    }
    match (records.get(i).state(), state) {
        (Some(old), Some(new)) => old == new,
        _ => false,
    }
}

/// Returns `true` if this is the state of a row at which reading has stopped.
pub fn is_stopped<A: Allocator + Copy>(state: Option<&LineState<A>>) -> bool
    ensures { IsTrue result ↔ (option_map (λ s. s.now) state.entry ≡ Some Stopped) }
{
    match state {
        None => false,
        Some(state) => state.is_stopped(),
    }
}

/// If at most this many rows are left below a fault, they are all scanned again. Then no old
/// records stay below the fault.
const NEAR: usize = 512;

/// Returns `true` if more than `NEAR` rows are left, from row `row` on.
fn is_far<A: Allocator + Copy>(records: &Chunks<Record<A>, A>, row: usize) -> bool {
    records.len().saturating_sub(row) > NEAR
}

/// Why scanning ends before a row.
#[derive(Clone, Copy)]
pub enum ScanEnd {
    /// The row has the state of its old row.
    Agreed,
    /// Reading has stopped above the row.
    Halted,
    /// No row is left.
    TextEnd,
}

/// Returns why scanning ends before a row with this state, or `None` if it goes on. `at` is the old
/// row that corresponds to this row. Scanning ends where the states agree, at `cut` or above it.
/// Below a fault it ends at a row with which a section begins, far from the text's end; or, if the
/// old records are cut, at `cut` or below it.
fn scan_end<A: Allocator + Copy>(
    old: &Chunks<Record<A>, A>,
    cut: Option<usize>,
    at: usize,
    state: Option<&LineState<A>>,
) -> Option<ScanEnd>
    ensures agrees { result ≡ Some Agreed → (agree (state_of_row old.now.items at) (option_map (λ s. s.now) state.entry) ≡ true) × IfSome cut (λ n. at ≤ n) }
    ensures stopped { result ≡ Some Halted → (option_map (λ s. s.now) state.entry ≡ Some Stopped) × StopsAt old.now.items cut at }
    ensures goes_on { result ≡ None → GoesOn old.now.items cut at (option_map (λ s. s.now) state.entry) }
    ensures reads { IfSome result (λ why. read_beyond why ≡ 1) }
{
    let Some(row) = cut else {
        if agree(old, at, state) {
            return Some(ScanEnd::Agreed);
        }
        if is_stopped(state) && is_far(old, at) && is_old_start(old, at) {
            return Some(ScanEnd::Halted);
        }
        return None;
    };
    if at <= row && agree(old, at, state) {
        return Some(ScanEnd::Agreed);
    }
    if at >= row && is_stopped(state) {
        return Some(ScanEnd::Halted);
    }
    None
}

/// Returns why scanning ends before row `i`, as `scan_end` does, or `None` if it goes on or row `i`
/// is above row `stop`. The old row that corresponds to row `i` is `i - stop + b`.
fn end_at<A: Allocator + Copy>(
    old: &Chunks<Record<A>, A>,
    cut: Option<usize>,
    i: usize,
    stop: usize,
    b: usize,
    state: Option<&LineState<A>>,
) -> Option<ScanEnd>
    requires { i + b < 2 ^ 64 }
    ensures after { IsSome result → stop ≤ i }
    ensures agrees { result ≡ Some Agreed → (agree (state_of_row old.now.items (i - stop + b)) (option_map (λ s. s.now) state.entry) ≡ true) × IfSome cut (λ n. i - stop + b ≤ n) }
    ensures stopped { result ≡ Some Halted → (option_map (λ s. s.now) state.entry ≡ Some Stopped) × StopsAt old.now.items cut (i - stop + b) }
    ensures goes_on { result ≡ None → stop ≤ i → GoesOn old.now.items cut (i - stop + b) (option_map (λ s. s.now) state.entry) }
    ensures reads { IfSome result (λ why. read_beyond why ≡ 1) }
{
    if i < stop {
        return None;
    }
    scan_end(old, cut, i - stop + b, state)
}

/// Creates a recorder at a sound row with this state, or at a text's start. The only error is out
/// of memory.
fn recorder_at<'a, A: Allocator + Copy>(
    alloc: &'a A,
    state: Option<&LineState<A>>,
) -> Result<Recorder<'a, A>, AllocError>
    ensures start { IfOk result (λ r. option_map (λ s. s.now) state.entry ≡ None → (rows : List (List ℕ)) → recorded r rows ≡ records rows) }
    ensures resume { IfOk result (λ r. (s : LineStateValue) → option_map (λ s. s.now) state.entry ≡ Some s → (rows : List (List ℕ)) → recorded r rows ≡ records_from s rows) }
    ensures fresh { IfOk result (λ r. (r.records ≡ []) × (r.taken ≡ 0) × (r.states ≡ true) × (r.refused ≡ false)) }
{
    match state {
        None => Ok(Recorder::start(alloc)),
        Some(state) => Recorder::resume(alloc, state),
    }
}

/// The records of the rows that were scanned.
#[derive(Drop)]
pub struct Scanned<A: Allocator> {
    /// The records of the rows from the restart on, before row `end`.
    pub records: Vec<Record<A>, A>,
    /// The row at which scanning ended, counted from 0.
    pub end: usize,
    /// Why scanning ended.
    pub why: ScanEnd,
}

/// Scans the rows from the restart on, down to the first row from `stop` on at which scanning ends,
/// or to the text's end. The old row that corresponds to row `i` is `i - stop + b`. The meter
/// counts each row that is scanned, with the row at which scanning ended. The only error is out of
/// memory.
pub fn rescan_from<L: Lines>(
    alloc: L::Alloc,
    lines: &L,
    old: &Chunks<Record<L::Alloc>, L::Alloc>,
    cut: Option<usize>,
    from: &Restart<'_, L::Alloc>,
    stop: usize,
    b: usize,
    meter: &mut Meter,
) -> Result<Scanned<L::Alloc>, AllocError>
    requires lines { AreLines (L.rows lines.now) }
    requires begins { BeginsAt (records (characters_in (L.rows lines.now))) from.now.row (option_map (λ s. s.now) from.now.state) }
    requires within { from.now.row ≤ length (L.rows lines.now) }
    requires before { from.now.row ≤ stop }
    requires few { length (L.rows lines.now) + b < 2 ^ 63 }
    requires meter { meter.old.lines + length (L.rows lines.now) < 2 ^ 32 }
    ensures records { IfOk result (λ r. r.records.items ≡ take (r.end - from.now.row) (drop from.now.row (records (characters_in (L.rows lines.now))))) }
    ensures end { IfOk result (λ r. (from.now.row ≤ r.end) × (r.end ≤ length (L.rows lines.now))) }
    ensures agrees { IfOk result (λ r. r.why ≡ Agreed → EndsAt stop (length (L.rows lines.now)) r.end × (agrees old.now.items (records (characters_in (L.rows lines.now))) stop b r.end ≡ true) × IfSome cut (λ n. r.end - stop + b ≤ n)) }
    ensures stopped { IfOk result (λ r. r.why ≡ Halted → EndsAt stop (length (L.rows lines.now)) r.end × (state_of_row (records (characters_in (L.rows lines.now))) r.end ≡ Some Stopped) × StopsAt old.now.items cut (r.end - stop + b)) }
    ensures whole { IfOk result (λ r. r.why ≡ TextEnd → r.end ≡ length (L.rows lines.now)) }
    ensures goes_on { IfOk result (λ r. (j : ℕ) → stop ≤ j → j < r.end → GoesOn old.now.items cut (j - stop + b) (state_of_row (records (characters_in (L.rows lines.now))) j)) }
    ensures counted { IfOk result (λ r. meter.new.lines ≡ meter.old.lines + (r.end - from.now.row) + read_beyond r.why) }
    ensures documents { OnOk result (meter.new.documents ≡ meter.old.documents) }
{
    rows_fit(lines);
    let mut recorder = recorder_at(&alloc, from.state)?;
    for i in from.row..lines.len() {
        recorder.feed_text(lines.row(i).as_str(), meter)?;
        if let Some(why) = end_at(old, cut, i, stop, b, recorder.state()) {
            return Ok(Scanned {
                records: recorder.cut(),
                end: i,
                why,
            });
        }
    }
    Ok(Scanned {
        records: recorder.finish()?,
        end: lines.len(),
        why: ScanEnd::TextEnd,
    })
}
