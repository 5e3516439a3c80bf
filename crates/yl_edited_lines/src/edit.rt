//! An edit of the lines of a text.
ghost use Rattle.std.specs.Prelude.{◌≡◌};
ghost use Rattle.std.specs.List.{splice};
ghost use Rattle.yl_edited_lines.specs.Edit.{IsTextEdit};

use yl_text::{LineStore, Patched, Row};

/// An edit of the lines of a text: the lines of the range `a..b`, counted from 0, are replaced by
/// `rows`.
pub struct TextEdit<'a, S: LineStore> {
    /// The store of the lines.
    pub store: &'a S,
    /// The first line that is replaced.
    pub a: usize,
    /// The line after the last one that is replaced.
    pub b: usize,
    /// The new lines.
    pub rows: &'a [Row<S::Alloc>],
}

impl<S: LineStore> Drop for TextEdit<'_, S> {
    fn drop(self) {
        let TextEdit {
            store: _,
            a: _,
            b: _,
            rows: _,
        } = self;
    }
}

impl<'a, S: LineStore> TextEdit<'a, S> {
    /// Returns a view of the edited lines. Copies nothing.
    pub fn edited(&self) -> Patched<'a, S>
        requires { IsTextEdit (S.rows self.now.store.now) self.now.a self.now.b self.now.rows.now }
        ensures { result ≡ splice (S.rows self.now.store.now) self.now.a self.now.b self.now.rows.now }
    {
        Patched::new(self.store, self.a, self.b, self.rows)
    }
}
