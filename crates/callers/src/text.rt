//! `yl_text`: a text as lines.

ghost use Rattle.std.specs.Prelude.{◌≡◌, IfOk, length};
ghost use Rattle.yl_text.specs.Lines.{lines_of};

use std::alloc::Allocator;
use yl_text::{TextFault, split};

/// How many lines a text has.
pub fn line_count<A: Allocator + Copy>(alloc: A, bytes: &[u8]) -> Result<usize, TextFault>
    ensures { IfOk result (λ count. count ≡ length (lines_of bytes.now)) }
{
    let rows = split(alloc, bytes)?;
    Ok(rows.len())
}
