//! Places that an editor names, and what it is told of places.
ghost use Rattle.std.specs.Prelude.{◌≡◌, length};
ghost use Rattle.std.specs.Str.{chars};
ghost use Rattle.yl_text.specs.Edit.{IsInText};
ghost use Rattle.yl_text.specs.Store.{AreLines};
ghost use Rattle.yl_text.specs.Store as store;
ghost use Rattle.yl_units.specs.Places as spec;

use crate::walk::Reached;
use crate::{Encoding, column_of};
use yl_text::{Lines, Pos};

/// A place as an editor names it: a line, counted from 0, and how many units of it stand before the place.
#[derive(Clone, Copy, Debug, PartialEq, Eq)]
pub struct EditorPlace {
    pub line: u64,
    pub units: u64,
}

/// How many characters a line has.
fn length_of(line: &str) -> usize
    ensures { result ≡ length (chars line.now) }
{
    line.chars().count()
}

/// The place after the last character of the last line.
fn end_of_lines<S: Lines>(lines: &S) -> Pos
    requires { AreLines (S.rows lines.now) }
    ensures place { result ≡ store.end_of_lines (S.rows lines.now) }
    ensures inside { IsInText (S.rows lines.now) result }
{
    let last = lines.len() - 1;
    Pos {
        line: last as u32,
        col: length_of(lines.row(last).as_str()) as u32,
    }
}

/// Returns the place of a text that an editor names, whatever numbers it gives: past a line's last character the line's end before
/// its break, inside a character the place before that character, past the last line the text's end. It takes no memory.
pub fn place_of<S: Lines>(encoding: Encoding, lines: &S, place: EditorPlace) -> Pos
    requires { AreLines (S.rows lines.now) }
    ensures place { result ≡ spec.place_of encoding (S.rows lines.now) place }
    ensures inside { IsInText (S.rows lines.now) result }
{
    if place.line >= lines.len() as u64 {
        return end_of_lines(lines);
    }
    let line = place.line as u32;
    let row = lines.row(line as usize);
    Pos {
        line,
        col: column_of(encoding, row.as_str(), place.units) as u32,
    }
}

/// Returns what an editor is told of a place of a text: its line, and how many units of the line stand before it. For many places one
/// after another `Reached` takes less time. It takes no memory.
pub fn told_place<S: Lines>(encoding: Encoding, lines: &S, place: Pos) -> EditorPlace
    requires { AreLines (S.rows lines.now) }
    ensures { result ≡ spec.told_place encoding (S.rows lines.now) place }
{
    let line = place.line as u64;
    let start = Reached::start_of(line);
    start.go_to(encoding, lines, line, place.col as u64).told()
}
