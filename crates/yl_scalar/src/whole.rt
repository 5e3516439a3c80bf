//! Reads whole scalars, from their first row on.
ghost use Rattle.std.specs.Prelude.{◌≡◌, ◌<◌, ◌+◌, ◌^◌, [], IfOk, length, map};
ghost use Rattle.yl_scalar.specs.PlainSteps.{plain};
ghost use Rattle.yl_scalar.specs.QuotedSteps.{quoted};
ghost use Rattle.yl_scalar.specs.Block.{block};
ghost use Rattle.yl_scalar.specs.Reader.{outcome_value, plain_reader_value, quoted_reader_value};

use crate::answer::{ScalarOutcome, ScalarStep};
use crate::block::BlockReader;
use crate::plain::PlainReader;
use crate::quoted::QuotedReader;
use std::alloc::{AllocError, Allocator};

/// Reads a plain scalar that begins at the column `at`. `text` is its row from that column on, and
/// `rows` are all rows below. The value is that of the reader that is returned. The only error is
/// out of memory.
pub fn read_plain<A: Allocator + Copy>(
    alloc: A,
    flow: bool,
    least: usize,
    at: usize,
    text: &[char],
    rows: &[&[char]],
) -> Result<(PlainReader<A>, ScalarOutcome), AllocError>
    requires fits { at + length text.now < 2 ^ 64 }
    ensures { IfOk result (λ r. outcome_value r.1 (plain_reader_value r.0).value
        ≡ plain flow least at text.now (map (λ row. row.now) rows.now)) }
{
    let (mut reader, line) = PlainReader::begin(alloc, flow, least, at, text)?;
    match line {
        ScalarStep::GoesOn => {}
        ScalarStep::EndsIn(place) | ScalarStep::EndedAbove(place) => {
            return Ok((reader, ScalarOutcome::Whole(place)));
        }
        ScalarStep::Fails(fault, place) => return Ok((
            reader,
            ScalarOutcome::Refused(fault, place),
        )),
    }
    for row in rows {
        match reader.read(row)? {
            ScalarStep::GoesOn => {}
            ScalarStep::EndsIn(place) | ScalarStep::EndedAbove(place) => {
                return Ok((reader, ScalarOutcome::Whole(place)));
            }
            ScalarStep::Fails(fault, place) => return Ok((
                reader,
                ScalarOutcome::Refused(fault, place),
            )),
        }
    }
    let place = reader.finish();
    Ok((reader, ScalarOutcome::Whole(place)))
}

/// Reads a quoted scalar whose opening quote is at the column `opening`. `text` is the rest of its
/// row after the quote, and `rows` are all rows below. The value is that of the reader that is
/// returned. The only error is out of memory.
pub fn read_quoted<A: Allocator + Copy>(
    alloc: A,
    double: bool,
    opening: usize,
    text: &[char],
    rows: &[&[char]],
) -> Result<(QuotedReader<A>, ScalarOutcome), AllocError>
    requires fits { opening + 1 + length text.now < 2 ^ 64 }
    ensures { IfOk result (λ r. outcome_value r.1 (quoted_reader_value r.0).value
        ≡ quoted double opening text.now (map (λ row. row.now) rows.now)) }
{
    let (mut reader, line) = QuotedReader::begin(alloc, double, opening, text)?;
    match line {
        ScalarStep::GoesOn => {}
        ScalarStep::EndsIn(place) | ScalarStep::EndedAbove(place) => {
            return Ok((reader, ScalarOutcome::Whole(place)));
        }
        ScalarStep::Fails(fault, place) => return Ok((
            reader,
            ScalarOutcome::Refused(fault, place),
        )),
    }
    for row in rows {
        match reader.read(row)? {
            ScalarStep::GoesOn => {}
            ScalarStep::EndsIn(place) | ScalarStep::EndedAbove(place) => {
                return Ok((reader, ScalarOutcome::Whole(place)));
            }
            ScalarStep::Fails(fault, place) => return Ok((
                reader,
                ScalarOutcome::Refused(fault, place),
            )),
        }
    }
    let (fault, place) = reader.finish();
    Ok((reader, ScalarOutcome::Refused(fault, place)))
}

/// Reads a block scalar whose indicator is at the column `at`. `header` is the rest of its row
/// after the indicator, and `rows` are all rows below. The only error is out of memory.
pub fn read_block<A: Allocator + Copy>(
    alloc: A,
    least: usize,
    at: usize,
    header: &[char],
    rows: &[&[char]],
) -> Result<ScalarOutcome, AllocError>
    requires fits { at + 1 + length header.now < 2 ^ 64 }
    requires small { least < 2 ^ 63 }
    ensures { IfOk result (λ r. outcome_value r [] ≡ block least at header.now (map (λ row. row.now) rows.now)) }
{
    let (mut reader, line) = BlockReader::begin(alloc, least, at, header);
    match line {
        ScalarStep::GoesOn => {}
        ScalarStep::EndsIn(place) | ScalarStep::EndedAbove(place) => return Ok(ScalarOutcome::Whole(
            place,
        )),
        ScalarStep::Fails(fault, place) => return Ok(ScalarOutcome::Refused(fault, place)),
    }
    for row in rows {
        match reader.read(row)? {
            ScalarStep::GoesOn => {}
            ScalarStep::EndsIn(place) | ScalarStep::EndedAbove(place) => return Ok(
                ScalarOutcome::Whole(place),
            ),
            ScalarStep::Fails(fault, place) => return Ok(ScalarOutcome::Refused(fault, place)),
        }
    }
    Ok(ScalarOutcome::Whole(reader.finish()))
}
