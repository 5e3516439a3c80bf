//! The pieces of a section.
ghost use Rattle.std.specs.Prelude.{◌≡◌, length};
ghost use Rattle.std.specs.Str.{chars};

use std::alloc::{AllocError, Allocator, Global};
use yl_config::Config;
use yl_lexeme::Meter;
use yl_record::{Record, Recorder};
use yl_section_pieces::{SectionPiece, pieces_of_section};
use yl_sections::judge_all;

/// The rows of a text, without their breaks.
pub type Rows = Vec<String>;

/// More rows, and more characters of a row, than a case has.
const MANY: usize = 70_000_000;

/// Returns the rows of a text. The only error is out of memory.
pub fn rows_of(alloc: Global, text: &str) -> Result<Rows, AllocError> {
    let mut rows = Vec::new(alloc);
    for line in text.lines() {
        rows.push(String::from_str(alloc, line)?)?;
    }
    Ok(rows)
}

/// Returns the number of characters of a row.
fn width_of(row: &str) -> usize
    ensures { result ≡ length (chars row.now) }
{
    row.chars().count()
}

/// Returns the records of rows. The only error is out of memory, or more rows than a case has.
pub fn recorded<A: Allocator + Copy>(
    alloc: A,
    rows: &[String],
) -> Result<Vec<Record<A>, A>, AllocError> {
    let mut meter = Meter::new();
    let mut recorder = Recorder::start(&alloc);
    for row in rows {
        let row = row.as_str();
        if recorder.line() as usize > MANY || meter.lines as usize > MANY || width_of(row) > MANY {
            return Err(AllocError);
        }
        recorder.feed_text(row, &mut meter)?;
    }
    recorder.finish()
}

/// Returns references to records. The only error is out of memory.
pub fn lent<A: Allocator + Copy>(
    alloc: A,
    records: &[Record<A>],
) -> Result<Vec<&Record<A>, A>, AllocError> {
    let mut all = Vec::with_capacity(alloc, records.len())?;
    for record in records {
        all.push(record)?;
    }
    Ok(all)
}

/// Returns the pieces of the section of these records, or `None` if they are several sections. The
/// only error is out of memory.
pub fn pieces_of<A: Allocator + Copy>(
    alloc: A,
    config: &Config,
    records: &[&Record<A>],
) -> Result<Option<Vec<SectionPiece<A>, A>>, AllocError> {
    let mut meter = Meter::new();
    if records.len() > MANY {
        return Err(AllocError);
    }
    let mut kept = judge_all(alloc, config, records, &mut meter)?;
    let Some(one) = kept.pop() else {
        return Ok(None);
    };
    if !kept.is_empty() {
        return Ok(None);
    }
    Ok(Some(pieces_of_section(alloc, config, records, one)?))
}

/// Returns the number of rows of each piece of the section of these rows, or `None` if they are
/// several sections. The only error is out of memory.
pub fn sizes_of(
    alloc: Global,
    config: &Config,
    rows: &[String],
) -> Result<Option<Vec<u32>>, AllocError> {
    let records = recorded(alloc, rows)?;
    let Some(pieces) = pieces_of(alloc, config, &lent(alloc, &records)?)? else {
        return Ok(None);
    };
    let mut sizes = Vec::with_capacity(alloc, pieces.len())?;
    for piece in &pieces {
        sizes.push(piece.kept.rows())?;
    }
    Ok(Some(sizes))
}
