//! `yl_scan`: the lexemes, the comments and the scan fault of a text.

ghost use Rattle.std.specs.Prelude.{◌≡◌, IfOk};
ghost use Rattle.yl_row.specs.Entries.{entries};
ghost use Rattle.yl_scan.specs.Output.{output_of_entries};
ghost use Rattle.yl_scan.specs.Step.{characters_of};
ghost use Rattle.yl_scan.specs.Whole.{scanned_text_value, text_value_of_output};
ghost use Rattle.yl_text.specs.Store.{AreLines};

use std::alloc::{AllocError, Allocator};
use yl_lexeme::Meter;
use yl_scan::{ScannedText, scan};
use yl_text::{Row, lines_are_few_and_short};

/// What the lines of a text hold.
pub fn scanned<A: Allocator + Copy>(
    alloc: A,
    lines: &[Row<A>],
) -> Result<ScannedText<A>, AllocError>
    requires { AreLines lines.now }
    ensures { IfOk result (λ scanned. scanned_text_value scanned ≡ text_value_of_output (output_of_entries 0 (entries (characters_of lines.now)))) }
{
    lines_are_few_and_short();
    scan(alloc, lines, &mut Meter::new())
}
