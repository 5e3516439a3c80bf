//! Writes the events of a text.
ghost use Rattle.std.specs.Prelude.{◌≡◌, ◌≢◌, ◌≤◌, [], drop, length, OnOk};
ghost use Rattle.yl_text.specs.declared.TheConstants.{MAX_BYTES};

use crate::document_fault::Behind;
use crate::documents::Documents;
use crate::fault::{DumpFault, FaultMessage, scan_fault};
use crate::text_scanner::TextScanner;
use std::alloc::Allocator;
use std::io::Write;
use yl_lexeme::Lexeme;
use yl_scan::{FaultAbove, LexemeAbove};

// Takes a lexeme that started before line `line`, counted from 0, if there is one.
fn take_ended<A: Allocator + Copy, W: Write>(
    documents: &mut Documents<A, W>,
    line: u32,
    ended: Option<LexemeAbove<A>>,
) -> Result<(), DumpFault> {
    match ended {
        Some(ended) => documents.take(line.saturating_sub(ended.ago), ended.lexeme),
        None => Ok(()),
    }
}

// Returns the scan fault that was found at line `line`, counted from 0, if there is one.
fn fault_told(line: u32, failed: Option<FaultAbove>) -> Option<FaultMessage> {
    match failed {
        Some(failed) => Some(scan_fault(line, failed)),
        None => None,
    }
}

// Takes the lexemes that were found at line `line`, counted from 0, and empties the list `lexemes`.
// Returns the scan fault, if one was found.
fn take_step<A: Allocator + Copy, W: Write>(
    documents: &mut Documents<A, W>,
    line: u32,
    ended: Option<LexemeAbove<A>>,
    lexemes: &mut Vec<Lexeme<A>, A>,
    failed: Option<FaultAbove>,
) -> Result<Option<FaultMessage>, DumpFault> {
    take_ended(documents, line, ended)?;
    documents.take_row(line, lexemes)?;
    Ok(fault_told(line, failed))
}

// Reads the next line of a text, and takes its lexemes. Returns the scan fault, if one is found.
fn take_line<A: Allocator + Copy, W: Write>(
    documents: &mut Documents<A, W>,
    scanner: &mut TextScanner<'_, '_, A>,
) -> Result<Option<FaultMessage>, DumpFault>
    requires { scanner.old.rows ≢ [] }
    ensures { OnOk result (scanner.new.rows ≡ drop 1 scanner.old.rows) }
{
    let line = scanner.line();
    let mut step = scanner.read_line()?;
    let told = take_step(documents, line, step.ended, &mut step.lexemes, step.failed)?;
    scanner.take_back(step.lexemes);
    Ok(told)
}

// Reads the lines of a text, and takes their lexemes. Returns the scan fault, if one is found.
fn take_lines<A: Allocator + Copy, W: Write>(
    documents: &mut Documents<A, W>,
    scanner: &mut TextScanner<'_, '_, A>,
) -> Result<Option<FaultMessage>, DumpFault>
    ensures { OnOk result (scanner.new.rows ≡ []) }
{
    let mut fault = None;
    while !scanner.is_done() {
        let told = take_line(documents, scanner)?;
        fault = fault.or(told);
    }
    Ok(fault)
}

// Takes the lexemes that are found at the end of a text. `fault` is the scan fault that was found
// in its lines. Returns what follows its last document.
fn take_end<A: Allocator + Copy, W: Write>(
    documents: &mut Documents<A, W>,
    scanner: TextScanner<'_, '_, A>,
    fault: Option<FaultMessage>,
) -> Result<Behind, DumpFault>
    requires { scanner.rows ≡ [] }
{
    let line = scanner.line();
    let end = scanner.end();
    let mut step = scanner.finish()?;
    let told = take_step(documents, line, step.ended, &mut step.lexemes, step.failed)?;
    Ok(match fault.or(told) {
        Some(fault) => Behind::Stop(fault),
        None => Behind::End(end),
    })
}

// Reads a text, and takes its lexemes. Returns what follows its last document.
fn take_text<A: Allocator + Copy, W: Write>(
    documents: &mut Documents<A, W>,
    alloc: &A,
    text: &str,
) -> Result<Behind, DumpFault>
    requires { length text.now ≤ MAX_BYTES }
{
    let mut scanner = TextScanner::without_states(alloc, text);
    let fault = take_lines(documents, &mut scanner)?;
    take_end(documents, scanner, fault)
}

// Writes the events of a text to the writer of its documents.
fn write_text<A: Allocator + Copy, W: Write>(
    documents: &mut Documents<A, W>,
    alloc: &A,
    text: &str,
) -> Result<(), DumpFault>
    requires { length text.now ≤ MAX_BYTES }
{
    documents.print_line("+STR\n")?;
    let behind = take_text(documents, alloc, text)?;
    documents.end(behind)?;
    documents.print_line("-STR\n")?;
    documents.write()
}

/// Writes the events of a text in the notation of the YAML test suite, with positions, each as a
/// line. Writes `+STR`, then the events of each document or `!DOC LINE:COLUMN "TEXT"` for its
/// fault, then `-STR`. If the text has a scan fault, the last document with a lexeme before it has
/// no events. Its fault is the earlier one of its parse fault and the scan fault. Nothing of a
/// document is written before the document ends.
///
/// Returns `Write` if the writer failed or accepted no bytes, or `Memory` if memory runs out.
pub fn write_events<A: Allocator + Copy, W: Write>(
    alloc: A,
    text: &str,
    out: &mut W,
) -> Result<(), DumpFault>
    requires { length text.now ≤ MAX_BYTES }
{
    let mut documents = Documents::new(alloc, out);
    write_text(&mut documents, &alloc, text)
}
