//! A range of the lines of an edited text. Copies nothing.
ghost use Rattle.std.specs.Prelude.{◌≡◌, ◌-◌, length, take, drop};
ghost use Rattle.yl_text.specs.Store.{IsRange};

use std::marker::Model;
use yl_text::{Lines, Patched, Row};

/// The lines `from..end` of an edited text, counted from 0.
pub struct Window<'a, S: Lines> {
    lines: Patched<'a, S>,
    from: usize,
    end: usize,
}

impl<'a, S: Lines> Model for Window<'a, S> {
    ghost use Rattle.std.specs.Prelude.{List, length, take, drop, ◌-◌, ◌<◌, ◌^◌};
    ghost use Rattle.yl_text.specs.Lines.{RowValue};
    ghost use Rattle.yl_text.specs.Store.{IsRange};

    ghost Value = { List RowValue };

    ghost view = { λ w. take (w.end - w.from) (drop w.from w.lines) };

    ghost invariant = { λ w. IsRange w.from w.end (length w.lines) × (w.end < 2 ^ 64) };
}

impl<S: Lines> Drop for Window<'_, S> {
    fn drop(self) {
        let Window {
            lines: _,
            from: _,
            end: _,
        } = self;
    }
}

impl<'a, S: Lines> Window<'a, S> {
    /// Creates a view of the lines `from..end`. Does not allocate.
    pub fn new(lines: Patched<'a, S>, from: usize, end: usize) -> Window<'a, S>
        requires { IsRange from end (length lines) }
        ensures { result ≡ take (end - from) (drop from lines.entry) }
    {
        Window { lines, from, end }
    }
}

impl<'a, S: Lines> Lines for Window<'a, S> {
    type Alloc = S::Alloc;

    ghost rows = { λ w. w };

    fn len(&self) -> usize {
        self.end - self.from
    }

    fn row(&self, i: usize) -> &Row<S::Alloc> {
        self.lines.row(self.from + i)
    }
}
