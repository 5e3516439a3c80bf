//! Looks at the text before and after a line, and counts the bytes of lines.
ghost use Rattle.std.specs.Prelude.{◌≡◌, ◌+◌, ◌^◌, ◌<◌, ◌≤◌, ◌↔◌, IsTrue, length, take, slice_get};
ghost use Rattle.yl_text.specs.Lines.{text_of};
ghost use Rattle.yl_text.specs.Store.{AreLines, IsRange};
ghost use Rattle.yl_text.specs.Edit.{last_byte};
ghost use Rattle.yl_text.specs.PutLines.{first_byte, front_of, back_of};

use crate::Break;
use crate::store::Lines;

/// Returns whether the text before line `a` ends in CR.
pub fn front_ends_in_cr<S: Lines>(lines: &S, a: usize) -> bool
    requires range { a < length (S.rows lines.now) }
    requires lines { AreLines (S.rows lines.now) }
    ensures { IsTrue result ↔ (last_byte (front_of (S.rows lines.now) a) ≡ 13) }
{
    a > 0 && lines.row(a - 1).end() == Break::Cr
}

/// Returns whether the text from line `b` on begins with LF.
pub fn back_starts_with_lf<S: Lines>(lines: &S, b: usize) -> bool
    requires range { b ≤ length (S.rows lines.now) }
    requires lines { AreLines (S.rows lines.now) }
    ensures { IsTrue result ↔ (first_byte (back_of (S.rows lines.now) b) ≡ 10) }
{
    b < lines.len()
        && {
            let row = lines.row(b);
            row.as_str().is_empty() && row.end() == Break::Lf
        }
}

/// Returns the number of bytes of the lines `a..b`, counted from 0, breaks included.
pub fn bytes_between<S: Lines>(lines: &S, a: usize, b: usize) -> u64
    requires range { IsRange a b (length (S.rows lines.now)) }
    requires lines { AreLines (S.rows lines.now) }
    ensures { length (text_of (take a (S.rows lines.now))) + result
        ≡ length (text_of (take b (S.rows lines.now))) }
{
    let mut sum = 0;
    for i in a..b {
        sum += lines.row(i).bytes() as u64;
    }
    sum
}
