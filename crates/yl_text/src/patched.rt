//! A view of lines of which some are replaced. Copies nothing.
ghost use Rattle.std.specs.Prelude.{◌≡◌, ◌<◌, ◌≤◌, ◌+◌, ◌^◌, length, slice_get};
ghost use Rattle.std.specs.List.{splice};
ghost use Rattle.yl_text.specs.Store.{AreLines, IsRange};

use crate::Row;
use crate::store::Lines;
use std::marker::Model;

/// A view of the lines of a store, with other rows in place of the rows `a..b`, counted from 0.
pub struct Patched<'a, S: Lines> {
    lines: &'a S,
    a: usize,
    b: usize,
    rows: &'a [Row<S::Alloc>],
}

impl<'a, S: Lines> Model for Patched<'a, S> {
    ghost use Rattle.std.specs.Prelude.{List, length, ◌+◌, ◌<◌, ◌^◌};
    ghost use Rattle.std.specs.List.{splice};
    ghost use Rattle.yl_text.specs.Lines.{RowValue};
    ghost use Rattle.yl_text.specs.Store.{IsRange};

    ghost Value = { List RowValue };

    ghost view = { λ p. splice (S.rows p.lines.now) p.a p.b p.rows.now };

    ghost invariant = { λ p. IsRange p.a p.b (length (S.rows p.lines.now)) × (length (S.rows p.lines.now) + length p.rows.now < 2 ^ 64) };
}

impl<S: Lines> Drop for Patched<'_, S> {
    fn drop(self) {
        let Patched {
            lines: _,
            a: _,
            b: _,
            rows: _,
        } = self;
    }
}

impl<'a, S: Lines> Patched<'a, S> {
    /// Creates a view of `lines` with `rows` in place of the rows `a..b`, counted from 0. Does not
    /// allocate.
    pub fn new(lines: &'a S, a: usize, b: usize, rows: &'a [Row<S::Alloc>]) -> Patched<'a, S>
        requires range { IsRange a b (length (S.rows lines.now)) }
        requires few { length (S.rows lines.now) + length rows.now < 2 ^ 64 }
        ensures { result ≡ splice (S.rows lines.now) a b rows.now }
    {
        Patched { lines, a, b, rows }
    }
}

impl<'a, S: Lines> Lines for Patched<'a, S> {
    type Alloc = S::Alloc;

    ghost rows = { λ p. p };

    fn len(&self) -> usize {
        self.lines.len() - (self.b - self.a) + self.rows.len()
    }

    fn row(&self, i: usize) -> &Row<S::Alloc> {
        if i < self.a {
            self.lines.row(i)
        } else if i - self.a < self.rows.len() {
            &self.rows[i - self.a]
        } else {
            self.lines.row(i - self.a - self.rows.len() + self.b)
        }
    }

    fn rows_from(&self, i: usize) -> &[Row<S::Alloc>] {
        match i.checked_sub(self.a) {
            None => {
                let rows = self.lines.rows_from(i);
                let before = rows.len().min(self.a - i);
                &rows[..before]
            }
            Some(behind) if behind < self.rows.len() => &self.rows[behind..],
            Some(behind) => self.lines.rows_from(behind - self.rows.len() + self.b),
        }
    }
}
