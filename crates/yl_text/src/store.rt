//! Lists of rows, and stores of them.
ghost use Rattle.std.specs.Prelude.{◌≡◌, ◌+◌, ◌-◌, ◌<◌, ◌≤◌, List, [], drop, length, slice_get, take, Some, OnOk, OnErr, IfOk, MatchResult};
ghost use Rattle.std.specs.List.{splice};
ghost use Rattle.yl_text.specs.Lines.{RowValue, text_of};
ghost use Rattle.yl_text.specs.Store.{AreLines, IsRange};
ghost use Rattle.yl_text.specs.Edit.{CanEdit, IsEditFault};

use crate::places::{byte_place, bytes_from_to, is_behind};
use crate::{MAX_BYTES, Pos, Row, TextFault};
use std::alloc::{AllocError, Allocator};

/// A list of rows, counted from 0. `Alloc` is the allocator of the rows.
pub trait Lines {
    type Alloc: Allocator + Copy;

    ghost rows: { Self → List RowValue };

    /// Returns the number of rows.
    fn len(&self) -> usize
        ensures { result ≡ length (rows self.now) };

    /// Returns the row at the index `i`. Copies nothing and does not allocate.
    fn row(&self, i: usize) -> &Row<Self::Alloc>
        requires { i < length (rows self.now) }
        ensures { slice_get (rows self.now) i ≡ Some result.now };

    /// Returns rows from the index `i` on that are contiguous in memory, to be read one after
    /// another. The slice may be empty. Does not allocate.
    fn rows_from(&self, i: usize) -> &[Row<Self::Alloc>]
        requires { i < length (rows self.now) }
        ensures { take (length result.now) (drop i (rows self.now)) ≡ result.now }
    {
        let _ = i;
        &[]
    }
}

/// A store of the lines of a text. An edit between two positions is made in steps. `check` returns
/// whether it can be made, and `line_edit` returns the lines that it replaces and the bytes that
/// replace them. These bytes are split into rows. If a line that is kept follows, the last of these
/// rows, which is empty, is left out. `splice` puts the rows in place, so that the rows of the
/// store are the lines of the edited text.
pub trait LineStore: Lines + Drop {
    /// Checks whether `bytes` can replace the text between two positions. Returns the first fault
    /// in the order `NotUtf8`, `Range`, `TooLarge`, and never `Memory`. Does not allocate.
    final fn check(&self, from: Pos, to: Pos, bytes: &[u8]) -> Result<(), TextFault>
    where
        Self: Sized,
        requires { AreLines (Self.rows self.now) }
        ensures { MatchResult result (λ _. CanEdit (Self.rows self.now) from to bytes.now)
            (λ fault. IsEditFault (Self.rows self.now) from to bytes.now fault) }
    {
        if let Err(error) = simdutf8::compat::from_utf8(bytes) {
            return Err(TextFault::NotUtf8 {
                valid_up_to: error.valid_up_to(),
            });
        }
        let Some(first) = byte_place(self, from) else {
            return Err(TextFault::Range);
        };
        let Some(last) = byte_place(self, to) else {
            return Err(TextFault::Range);
        };
        if is_behind(first, last) {
            return Err(TextFault::Range);
        }
        let kept = self.bytes() - bytes_from_to(self, first, last);
        if kept + bytes.len() as u64 > MAX_BYTES as u64 {
            return Err(TextFault::TooLarge);
        }
        Ok(())
    }

    /// Creates a store of these rows, and leaves `rows` empty. The only error is out of memory:
    /// then `rows` is unchanged.
    fn from_rows(rows: &mut Vec<Row<Self::Alloc>, Self::Alloc>) -> Result<Self, AllocError>
    where
        Self: Sized,
        requires { AreLines rows.old.items }
        ensures ok { IfOk result (λ store. Self.rows store ≡ rows.old.items) }
        ensures taken { OnOk result (rows.new.items ≡ []) }
        ensures err { OnErr result (rows.new.items ≡ rows.old.items) };

    /// Returns the number of bytes of the text, breaks included.
    fn bytes(&self) -> u64
        requires { AreLines (Self.rows self.now) }
        ensures { result ≡ length (text_of (Self.rows self.now)) };

    /// Replaces the rows `a..b`, counted from 0, by these rows, and leaves `rows` empty. The only
    /// error is out of memory: then neither the store nor `rows` has changed.
    fn splice(
        &mut self,
        a: usize,
        b: usize,
        rows: &mut Vec<Row<Self::Alloc>, Self::Alloc>,
    ) -> Result<(), AllocError>
        requires range { IsRange a b (length (Self.rows self.old)) }
        requires lines { AreLines (splice (Self.rows self.old) a b rows.old.items) }
        ensures ok { OnOk result (Self.rows self.new ≡ splice (Self.rows self.old) a b rows.old.items) }
        ensures taken { OnOk result (rows.new.items ≡ []) }
        ensures err { OnErr result (Self.rows self.new ≡ Self.rows self.old) }
        ensures back { OnErr result (rows.new.items ≡ rows.old.items) };
}
