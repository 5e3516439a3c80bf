//! Writes lexemes and comments.
ghost use Rattle.std.specs.Prelude.{◌≡◌, ◌≢◌, ◌≤◌, [], ◌++◌, drop, length, OnOk};
ghost use Rattle.yl_text.specs.declared.TheConstants.{MAX_BYTES};
ghost use Rattle.std.specs.List.{flat_map};
ghost use Rattle.std.specs.Option.{option_map};
ghost use Rattle.yl_row.specs.Entries.{Stopped};
ghost use Rattle.yl_scan.specs.Step.{lexeme_above_at, fault_above_at, step_value};
ghost use Rattle.yl_dump.specs.StepLines.{above_lines, lines_of_comment, failed_lines, step_lines};
ghost use Rattle.yl_dump.specs.LexemeLine.{lexeme_line};
ghost use Rattle.yl_dump.specs.Printed.{AppendsPrinted, output_of_text};
ghost use Rattle.yl_dump.specs.Writing.{PrintsAll, PrintsOn, WritesOn, output_left};

use crate::fault::{DumpFault, scan_fault};
use crate::lexeme_line::{print_comment, print_fault, print_lexeme};
use crate::page::Page;
use crate::text_scanner::TextScanner;
use std::alloc::{AllocError, Allocator};
use std::io::Write;
use yl_lexeme::{Comment, Lexeme};
use yl_scan::{FaultAbove, LexemeAbove, Step};

// Prints a lexeme that started before line `line`, counted from 0, if there is one.
fn print_ended<A: Allocator>(
    page: &mut Page<A>,
    line: u32,
    ended: &Option<LexemeAbove<A>>,
) -> Result<(), AllocError>
    ensures { OnOk result (page.new ≡ page.old ++ above_lines (option_map (lexeme_above_at line) ended.now)) }
{
    match ended {
        Some(ended) => print_lexeme(page, line.saturating_sub(ended.ago), &ended.lexeme),
        None => Ok(()),
    }
}

// Prints the lexemes of line `line`, counted from 0.
fn print_lexemes<A: Allocator>(
    page: &mut Page<A>,
    line: u32,
    lexemes: &[Lexeme<A>],
) -> Result<(), AllocError>
    ensures { OnOk result (page.new ≡ page.old ++ flat_map (lexeme_line line) lexemes.now) }
{
    for lexeme in lexemes {
        print_lexeme(page, line, lexeme)?;
    }
    Ok(())
}

// Prints the comment of line `line`, counted from 0, if there is one.
fn print_own_comment<A: Allocator>(
    page: &mut Page<A>,
    line: u32,
    comment: &Option<Comment<A>>,
) -> Result<(), AllocError>
    ensures { OnOk result (page.new ≡ page.old ++ lines_of_comment line comment.now) }
{
    match comment {
        Some(comment) => print_comment(page, line, comment),
        None => Ok(()),
    }
}

// Prints the scan fault that was found at line `line`, counted from 0, if there is one.
fn print_failed<A: Allocator>(
    page: &mut Page<A>,
    line: u32,
    failed: Option<FaultAbove>,
) -> Result<(), AllocError>
    ensures { OnOk result (page.new ≡ page.old ++ failed_lines (option_map (fault_above_at line) failed)) }
{
    match failed {
        Some(failed) => print_fault(page, scan_fault(line, failed)),
        None => Ok(()),
    }
}

// Prints the lexemes, the comment and the scan fault that were found at line `line`, counted from
// 0.
fn print_step<A: Allocator>(page: &mut Page<A>, line: u32, step: &Step<A>) -> Result<(), AllocError>
    ensures { OnOk result (page.new ≡ page.old ++ step_lines line (step_value line Stopped step.now)) }
{
    print_ended(page, line, &step.ended)?;
    print_lexemes(page, line, &step.lexemes)?;
    print_own_comment(page, line, &step.comment)?;
    print_failed(page, line, step.failed)
}

// Reads the next line of a text, and prints what is found in it.
fn print_line<A: Allocator + Copy>(
    page: &mut Page<A>,
    scanner: &mut TextScanner<'_, '_, A>,
) -> Result<(), AllocError>
    requires { scanner.old.rows ≢ [] }
    ensures passed { OnOk result (scanner.new.rows ≡ drop 1 scanner.old.rows) }
    ensures printed { OnOk result (PrintsOn page.old page.new (output_left scanner.old) (output_left scanner.new)) }
{
    let line = scanner.line();
    let step = scanner.read_line()?;
    print_step(page, line, &step)?;
    scanner.take_back(step.lexemes);
    Ok(())
}

// Prints what is found at the end of a text.
fn print_end<A: Allocator + Copy>(
    page: &mut Page<A>,
    scanner: TextScanner<'_, '_, A>,
) -> Result<(), AllocError>
    requires { scanner.rows ≡ [] }
    ensures { OnOk result (PrintsAll page.old page.new (output_left scanner.entry)) }
{
    let line = scanner.line();
    let step = scanner.finish()?;
    print_ended(page, line, &step.ended)?;
    print_failed(page, line, step.failed)
}

// Reads the lines of a text, and prints what is found in them. Writes the page whenever it is
// large.
fn write_lines<A: Allocator + Copy, W: Write>(
    page: &mut Page<A>,
    scanner: &mut TextScanner<'_, '_, A>,
    out: &mut W,
) -> Result<(), DumpFault>
    ensures done { OnOk result (scanner.new.rows ≡ []) }
    ensures written { OnOk result (WritesOn (W.contents out.old) (W.contents out.new) page.old page.new
        (output_left scanner.old) (output_left scanner.new)) }
{
    while !scanner.is_done() {
        print_line(page, scanner)?;
        page.write_large(out)?;
    }
    Ok(())
}

// Reads a text, prints what is found in it on an empty page, and writes the page.
fn write_text<A: Allocator + Copy, W: Write>(
    page: &mut Page<A>,
    alloc: &A,
    text: &str,
    out: &mut W,
) -> Result<(), DumpFault>
    requires few { length text.now ≤ MAX_BYTES }
    requires empty { page.old ≡ [] }
    ensures { OnOk result (AppendsPrinted (W.contents out.old) (W.contents out.new) (output_of_text text.now)) }
{
    let mut scanner = TextScanner::without_states(alloc, text);
    write_lines(page, &mut scanner, out)?;
    print_end(page, scanner)?;
    page.write_to(out)
}

/// Writes a line `LINE:COLUMN-LINE:COLUMN KIND "VALUE"` for each lexeme and each comment of a text,
/// in order. If the text has a scan fault, a line `LINE:COLUMN fault "TEXT"` follows them.
///
/// Returns `Write` if the writer failed or accepted no bytes, or `Memory` if memory runs out.
pub fn write_lexemes<A: Allocator + Copy, W: Write>(
    alloc: A,
    text: &str,
    out: &mut W,
) -> Result<(), DumpFault>
    requires { length text.now ≤ MAX_BYTES }
    ensures { OnOk result (AppendsPrinted (W.contents out.old) (W.contents out.new) (output_of_text text.now)) }
{
    let mut page = Page::new(alloc);
    write_text(&mut page, &alloc, text, out)
}
