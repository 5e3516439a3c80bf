//! Reads a text into the records of its rows and the summaries of its sections.
//!
//! Rows are recorded one after another. From time to time, at a sound row, the records above it
//! move into chunks, and a new recorder continues from that row with its state. So no two lists
//! hold the records of a whole text.
ghost use Rattle.std.specs.Prelude.{◌≡◌, ◌+◌, ◌-◌, ◌<◌, ◌≤◌, ◌^◌, ◌++◌, length, map, IfOk, OnOk};
ghost use Rattle.yl_text.specs.Store.{AreLines};
ghost use Rattle.yl_sections.specs.Judge.{kept_of_section};
ghost use Rattle.yl_sections.specs.Sections.{sections};
ghost use Rattle.yl_lint.specs.TextReport.{records_of};
ghost use Rattle.yl_lint.specs.Computed.{kept_of_text};
ghost use Rattle.yl_session.specs.Reading.{IsReadTo};

use std::alloc::{AllocError, Allocator};
use yl_chunks::Chunks;
use yl_config::Config;
use yl_lexeme::Meter;
use yl_record::{Record, Recorder};
use yl_sections::{Kept, SectionsJudge};
use yl_text::{Lines, rows_fit};

/// The minimum number of records that move into chunks at once, except at the end of the text.
const PIECE: usize = 4096;

/// Returns the number of records that wait before they move, if `moved` records moved before. Each
/// move counts the positions of all chunks, so the number grows with `moved`.
fn piece(moved: usize) -> usize {
    PIECE.max(moved / 64)
}

/// Appends the items, which it takes out of `new`. The only error is out of memory.
fn put_behind<T: Drop, A: Allocator + Copy>(
    items: &mut Chunks<T, A>,
    new: &mut Vec<T, A>,
) -> Result<(), AllocError>
    requires { length items.old.items + length new.old.items < 2 ^ 64 }
    ensures { OnOk result (items.new.items ≡ items.old.items ++ new.old.items) }
{
    let len = items.len();
    items.splice(len, len, new)
}

/// Moves the items of a `Vec` into chunks. The only error is out of memory.
pub fn in_chunks<T: Drop, A: Allocator + Copy>(
    alloc: A,
    items: &mut Vec<T, A>,
) -> Result<Chunks<T, A>, AllocError>
    ensures { IfOk result (λ list. list.items ≡ items.old.items) }
{
    let mut list = Chunks::new(alloc);
    list.splice(0, 0, items)?;
    Ok(list)
}

/// Continues after row `i`, which was read last. If that row is sound, moves the records of the
/// rows above it into `records` and returns a new recorder that starts at that row. Otherwise
/// returns `recorder`. The only error is out of memory.
fn moved_on<'a, L: Lines>(
    alloc: &'a L::Alloc,
    lines: &L,
    i: usize,
    recorder: Recorder<'a, L::Alloc>,
    records: &mut Chunks<Record<L::Alloc>, L::Alloc>,
    meter: &mut Meter,
) -> Result<Recorder<'a, L::Alloc>, AllocError>
    requires lines { AreLines (L.rows lines.now) }
    requires row { i < length (L.rows lines.now) }
    requires read { IsReadTo (L.rows lines.now) (i + 1) records.old.items recorder }
    requires meter { meter.old.lines < 2 ^ 32 - 1 }
    ensures read { IfOk result (λ r. IsReadTo (L.rows lines.now) (i + 1) records.new.items r) }
    ensures meter { OnOk result (meter.new.lines ≤ meter.old.lines + 1) }
{
    rows_fit(lines);
    let mut next = match recorder.state() {
        None => return Ok(recorder),
        Some(state) => Recorder::resume(alloc, state)?,
    };
    let mut above = recorder.cut();
    put_behind(records, &mut above)?;
    next.feed_text(lines.row(i).as_str(), meter)?;
    Ok(next)
}

/// Returns the records of the lines of a text, with the states of the sound ones. The only error is
/// out of memory.
fn records_of_lines<L: Lines>(
    alloc: L::Alloc,
    lines: &L,
) -> Result<Chunks<Record<L::Alloc>, L::Alloc>, AllocError>
    requires { AreLines (L.rows lines.now) }
    ensures { IfOk result (λ c. c.items ≡ records_of (L.rows lines.now)) }
{
    rows_fit(lines);
    let mut meter = Meter::new();
    let mut records = Chunks::new(alloc);
    let mut recorder = Recorder::start(&alloc);
    for i in 0..lines.len() {
        let waiting = i - records.len();
        recorder.feed_text(lines.row(i).as_str(), &mut meter)?;
        if waiting >= piece(records.len()) {
            recorder = moved_on(&alloc, lines, i, recorder, &mut records, &mut meter)?;
        }
    }
    let mut last = recorder.finish()?;
    put_behind(&mut records, &mut last)?;
    Ok(records)
}

/// Returns the summary of each section of these records. The only error is out of memory.
fn kept_of_records<A: Allocator + Copy>(
    alloc: A,
    config: &Config,
    records: &Chunks<Record<A>, A>,
) -> Result<Vec<Kept<A>, A>, AllocError>
    ensures { IfOk result (λ v. v.items ≡ map (kept_of_section config.now) (sections records.now.items)) }
{
    let mut meter = Meter::new();
    let mut judge = SectionsJudge::new(alloc);
    for i in 0..records.len() {
        judge.read(config, records.get(i), &mut meter)?;
    }
    judge.finish(config)
}

/// Returns the records of these lines and the summaries of their sections. The only error is out of
/// memory.
pub fn read<L: Lines>(
    alloc: L::Alloc,
    config: &Config,
    lines: &L,
) -> Result<
    (
        Chunks<Record<L::Alloc>, L::Alloc>,
        Vec<Kept<L::Alloc>, L::Alloc>,
    ),
    AllocError,
>
    requires { AreLines (L.rows lines.now) }
    ensures records { IfOk result (λ r. r.0.items ≡ records_of (L.rows lines.now)) }
    ensures kept { IfOk result (λ r. r.1.items ≡ kept_of_text config.now (L.rows lines.now)) }
{
    let records = records_of_lines(alloc, lines)?;
    let kept = kept_of_records(alloc, config, &records)?;
    Ok((records, kept))
}
