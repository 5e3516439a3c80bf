//! Bounds on the number of lines of a text and on their lengths.
ghost use Rattle.std.specs.Prelude.{◌≡◌, ℕ, Some, slice_get};
ghost use Rattle.yl_text.specs.Bounds.{AreFew, IsShort, LinesAreFew, LinesAreShort};
ghost use Rattle.yl_text.specs.Lines.{RowValue};
ghost use Rattle.yl_text.specs.Store.{AreLines};

use crate::store::Lines;

/// Laws: a text has fewer than 2^32 - 1 lines, and each has fewer than 2^31 characters without its
/// break.
pub fn lines_are_few_and_short()
    ensures few { LinesAreFew }
    ensures short { LinesAreShort }
{}

/// A law: the rows of a store are fewer than 2^32 - 1, and each has fewer than 2^31 characters
/// without its break, since they are the lines of a text.
pub fn rows_fit<S: Lines>(lines: &S)
    requires { AreLines (S.rows lines.now) }
    ensures few { AreFew (S.rows lines.now) }
    ensures short { (i : ℕ) (row : RowValue) → slice_get (S.rows lines.now) i ≡ Some row → IsShort row }
{}
