//! Writes the states of lines.
ghost use Rattle.std.specs.Prelude.{◌≡◌, ◌≢◌, ◌≤◌, [], ◌++◌, drop, length, true, OnOk};
ghost use Rattle.std.specs.Io.KnownBytes.{Appends};
ghost use Rattle.yl_text.specs.declared.TheConstants.{MAX_BYTES};
ghost use Rattle.yl_dump.specs.Printed.{states_text};
ghost use Rattle.yl_dump.specs.Writing.{states_left};

use crate::fault::DumpFault;
use crate::page::Page;
use crate::state::print_state;
use crate::text_scanner::TextScanner;
use std::alloc::{AllocError, Allocator};
use std::io::Write;

// Reads the next line of a text, and prints its number and its state.
fn print_line<A: Allocator + Copy>(
    alloc: A,
    page: &mut Page<A>,
    scanner: &mut TextScanner<'_, '_, A>,
) -> Result<(), AllocError>
    requires rows { scanner.old.rows ≢ [] }
    requires states { scanner.old.states ≡ true }
    ensures printed { OnOk result (page.new ++ states_left scanner.new ≡ page.old ++ states_left scanner.old) }
    ensures passed { OnOk result (scanner.new.rows ≡ drop 1 scanner.old.rows) }
    ensures states { scanner.new.states ≡ true }
{
    page.number(u64::from(scanner.line()) + 1)?;
    let step = scanner.read_line()?;
    print_state(alloc, page, &step.state)?;
    page.text("\n")
}

// Prints the number and the state of each line of a text, and writes them.
fn write_states<A: Allocator + Copy, W: Write>(
    alloc: A,
    page: &mut Page<A>,
    scanner: &mut TextScanner<'_, '_, A>,
    out: &mut W,
) -> Result<(), DumpFault>
    requires { scanner.old.states ≡ true }
    ensures { OnOk result (Appends (W.contents out.old) (W.contents out.new) (page.old ++ states_left scanner.old)) }
{
    while !scanner.is_done() {
        print_line(alloc, page, scanner)?;
        page.write_large(out)?;
    }
    page.write_to(out)
}

/// Writes a line for each line of a text. It is one of these:
///
/// - `LINE sound COLUMNS BRACKETS LAST`, with the columns of the open block collections, the open
///   brackets, and the kind of the last lexeme before the line.
/// - `LINE stopped`, if a fault is before the line.
/// - `LINE not-sound`, if the line is blank, or if a lexeme or the reach of a fault is in progress.
///
/// Returns `Write` if the writer failed or accepted no bytes, or `Memory` if memory runs out.
pub fn write_lines<A: Allocator + Copy, W: Write>(
    alloc: A,
    text: &str,
    out: &mut W,
) -> Result<(), DumpFault>
    requires { length text.now ≤ MAX_BYTES }
    ensures { OnOk result (Appends (W.contents out.old) (W.contents out.new) (states_text text.now)) }
{
    let mut page = Page::new(alloc);
    let mut scanner = TextScanner::new(&alloc, text);
    write_states(alloc, &mut page, &mut scanner, out)
}
