//! Adds rows to a list of records, and puts what later rows report into the record to which it
//! belongs.

ghost use Rattle.std.specs.Prelude.{◌≡◌, ◌<◌, ◌+◌, ◌++◌, ◌^◌, ◌∷◌, [], OnOk, length, option_map};
ghost use Rattle.std.specs.Option.{ForSome};
ghost use Rattle.std.specs.Str.{chars};
ghost use Rattle.yl_text.specs.Character.{indentation};
ghost use Rattle.yl_row.specs.Entries.{LineStateValue};
ghost use Rattle.yl_scan.specs.Step.{fault_above_at, lexeme_above_at, step_value};
ghost use Rattle.yl_scan.specs.Settled.{with_last};
ghost use Rattle.yl_record.specs.Parts.{LiesIn, entries_in, entries_with_end, entries_with_step, indentations_in, with_fault_above, with_fault_in, with_lexeme_above, with_state};

use crate::record::{Record, push_lexeme, record_of, set_fault};
use crate::sharing::shared;
use crate::white::spaces_before;
use std::alloc::{AllocError, Allocator};
use yl_lexeme::Lexeme;
use yl_row::PlacedScanFault;
use yl_scan::{FaultAbove, LexemeAbove, Step};

/// Appends a lexeme to the record at index `at`. The only error is out of memory.
fn put_lexeme<A: Allocator>(
    records: &mut Vec<Record<A>, A>,
    at: usize,
    lexeme: Lexeme<A>,
) -> Result<(), AllocError>
    requires { at < length records.old.items }
    ensures entries { OnOk result (entries_in records.new.items ≡ with_last at lexeme (entries_in records.old.items)) }
    ensures indentations { OnOk result (indentations_in records.new.items ≡ indentations_in records.old.items) }
    ensures count { OnOk result (length records.new.items ≡ length records.old.items) }
{
    push_lexeme(&mut records[at], lexeme)
}

/// Sets the fault of the record at index `at`. The only error is out of memory.
fn put_fault<A: Allocator>(
    alloc: A,
    records: &mut Vec<Record<A>, A>,
    at: usize,
    fault: PlacedScanFault,
) -> Result<(), AllocError>
    requires { at < length records.old.items }
    ensures entries { OnOk result (entries_in records.new.items ≡ with_fault_in at fault (entries_in records.old.items)) }
    ensures indentations { OnOk result (indentations_in records.new.items ≡ indentations_in records.old.items) }
    ensures count { OnOk result (length records.new.items ≡ length records.old.items) }
{
    set_fault(alloc, &mut records[at], fault)
}

/// Appends a lexeme that began in a row above `line` to the record of that row, if there is one.
/// `taken` is the number of records that were released. The only error is out of memory.
#[inline(always)]
fn add_ended<A: Allocator>(
    records: &mut Vec<Record<A>, A>,
    taken: u32,
    line: u32,
    ended: Option<LexemeAbove<A>>,
) -> Result<(), AllocError>
    requires { ForSome ended (λ e. LiesIn taken (length records.old.items) line e.ago) }
    ensures entries { OnOk result (entries_in records.new.items ≡ with_lexeme_above taken (option_map (lexeme_above_at line) ended) (entries_in records.old.items)) }
    ensures indentations { OnOk result (indentations_in records.new.items ≡ indentations_in records.old.items) }
    ensures count { OnOk result (length records.new.items ≡ length records.old.items) }
{
    match ended {
        None => Ok(()),
        Some(LexemeAbove { ago, lexeme }) => {
            put_lexeme(records, (line - ago - taken) as usize, lexeme)
        }
    }
}

/// Sets the fault that the step of `line` reports in the record of the row in which its lexeme
/// began, if there is one. `taken` is the number of records that were released. The only error is
/// out of memory.
#[inline(always)]
fn add_failed<A: Allocator>(
    alloc: A,
    records: &mut Vec<Record<A>, A>,
    taken: u32,
    line: u32,
    failed: Option<FaultAbove>,
) -> Result<(), AllocError>
    requires { ForSome failed (λ f. LiesIn taken (length records.old.items) line f.ago) }
    ensures entries { OnOk result (entries_in records.new.items ≡ with_fault_above taken (option_map (fault_above_at line) failed) (entries_in records.old.items)) }
    ensures indentations { OnOk result (indentations_in records.new.items ≡ indentations_in records.old.items) }
    ensures count { OnOk result (length records.new.items ≡ length records.old.items) }
{
    match failed {
        None => Ok(()),
        Some(failed) => put_fault(
            alloc,
            records,
            (line - failed.ago - taken) as usize,
            failed.fault,
        ),
    }
}

/// Appends the record of the row `line`, whose text is `text`, and puts what its step reports of
/// the rows above into their records. `taken` is the number of records that were released. The only
/// error is out of memory.
pub fn add_row<A: Allocator + Copy>(
    alloc: A,
    records: &mut Vec<Record<A>, A>,
    taken: u32,
    line: u32,
    text: &str,
    step: Step<A>,
) -> Result<(), AllocError>
    requires fits { length (chars text.now) < 2 ^ 31 }
    requires ended { ForSome step.ended (λ e. LiesIn taken (length records.old.items) line e.ago) }
    requires failed { ForSome step.failed (λ f. LiesIn taken (length records.old.items + 1) line f.ago) }
    ensures entries { OnOk result ((s : LineStateValue) → entries_in records.new.items ≡ entries_with_step taken (with_state step.state (step_value line s step)) (entries_in records.old.items)) }
    ensures indentations { OnOk result (indentations_in records.new.items ≡ indentations_in records.old.items ++ indentation (chars text.now) ∷ []) }
    ensures count { OnOk result (length records.new.items ≡ length records.old.items + 1) }
{
    let Step {
        ended,
        lexemes,
        comment,
        state,
        failed,
        ..
    } = step;
    add_ended(records, taken, line, ended)?;
    let state = shared(records, state)?;
    let record = record_of(alloc, spaces_before(text), state, lexemes, comment)?;
    records.push(record)?;
    add_failed(alloc, records, taken, line, failed)
}

/// Puts what the end of the text reports into the records. `line` is the number of rows, and
/// `taken` is the number of records that were released. The only error is out of memory.
pub fn add_end<A: Allocator + Copy>(
    alloc: A,
    records: &mut Vec<Record<A>, A>,
    taken: u32,
    line: u32,
    step: Step<A>,
) -> Result<(), AllocError>
    requires ended { ForSome step.ended (λ e. LiesIn taken (length records.old.items) line e.ago) }
    requires failed { ForSome step.failed (λ f. LiesIn taken (length records.old.items) line f.ago) }
    ensures entries { OnOk result ((s : LineStateValue) → entries_in records.new.items ≡ entries_with_end taken (step_value line s step) (entries_in records.old.items)) }
    ensures indentations { OnOk result (indentations_in records.new.items ≡ indentations_in records.old.items) }
    ensures count { OnOk result (length records.new.items ≡ length records.old.items) }
{
    add_ended(records, taken, line, step.ended)?;
    add_failed(alloc, records, taken, line, step.failed)
}
