//! Rows that a recorder is fed.

ghost use Rattle.std.specs.Prelude.{◌≡◌, ◌<◌, ◌^◌, false, IfOk, IsTrue, OnOk, length};
ghost use Rattle.std.specs.Str.{chars};

use std::alloc::{AllocError, Allocator, Global};
use yl_lexeme::Meter;
use yl_record::{Record, Recorder};
use yl_text::{Row, characters};

/// More rows, and more characters of a row, than a test has.
pub(crate) const MANY: usize = 70_000_000;

/// Whether a row is short enough for a scanner.
pub(crate) fn is_short<A: Allocator>(global: Global, row: &Row<A>) -> Result<bool, AllocError>
    ensures { IfOk result (λ short. IsTrue short → length (chars row.now.text) < 2 ^ 31) }
{
    let mut buffer = Vec::new(global);
    characters(row, &mut buffer)?;
    Ok(buffer.len() < MANY)
}

/// Feeds a row.
pub(crate) fn fed<A: Allocator + Copy>(
    global: Global,
    recorder: &mut Recorder<'_, A>,
    row: &Row<A>,
    meter: &mut Meter,
) -> Result<(), AllocError>
    ensures { OnOk result (recorder.new.refused ≡ false) }
{
    if recorder.line() as usize > MANY || meter.lines as usize > MANY || !is_short(global, row)? {
        return Err(AllocError);
    }
    recorder.feed_text(row.as_str(), meter)
}

/// Feeds rows.
pub(crate) fn all_fed<A: Allocator + Copy>(
    global: Global,
    recorder: &mut Recorder<'_, A>,
    rows: &[Row<A>],
) -> Result<(), AllocError> {
    let mut meter = Meter::new();
    for row in rows {
        fed(global, recorder, row, &mut meter)?;
    }
    Ok(())
}

/// The records behind these rows, which are fed so many times.
pub(crate) fn recorded<A: Allocator + Copy>(
    global: Global,
    recorder: Recorder<'_, A>,
    times: usize,
    rows: &[Row<A>],
) -> Result<Vec<Record<A>, A>, AllocError> {
    let mut recorder = recorder;
    for _i in 0..times {
        all_fed(global, &mut recorder, rows)?;
    }
    recorder.finish()
}
