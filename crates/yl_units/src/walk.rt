//! A walk over the lines of a text from place to place.
ghost use Rattle.std.specs.Prelude.{◌≡◌, ◌<◌, ◌≤◌, ◌⊎◌, min, length, take, drop};
ghost use Rattle.std.specs.Str.{chars, encode_utf8_all};
ghost use Rattle.yl_text.specs.Store.{AreLines};
ghost use Rattle.yl_units.specs.Units.{units_of};
ghost use Rattle.yl_units.specs.Places.{IsReached, row_chars, row_start};

use crate::{EditorPlace, Encoding};
use yl_text::Lines;

/// A place of a text that a walk has reached, with how many bytes and units of its line stand before it. So what an editor is told of
/// many places of one line takes one walk over the line.
#[derive(Clone, Copy)]
pub struct Reached {
    pub line: u64,
    pub col: u64,
    pub byte: usize,
    pub units: u64,
}

/// How many of the first characters of a text a walk went over, with their bytes and units.
#[derive(Clone, Copy)]
struct Walked {
    characters: u64,
    byte: usize,
    units: u64,
}

/// Walks over so many characters of a text, or over all where it has fewer.
fn walk_over(encoding: Encoding, text: &str, characters: u64) -> Walked
    ensures characters { result.characters ≡ min characters (length (chars text.now)) }
    ensures byte { result.byte ≡ length (encode_utf8_all (take characters (chars text.now))) }
    ensures units { result.units ≡ units_of encoding (take characters (chars text.now)) }
{
    let mut walked = 0;
    let mut byte = 0;
    let mut units = 0;
    for c in text.chars().take(characters as usize) {
        walked += 1;
        byte += c.len_utf8();
        units += encoding.width(c) as u64;
    }
    Walked {
        characters: walked,
        byte,
        units,
    }
}

impl Reached {
    /// The start of a line.
    pub fn start_of(line: u64) -> Reached
        ensures { result ≡ row_start line }
    {
        Reached {
            line,
            col: 0,
            byte: 0,
            units: 0,
        }
    }

    /// From where a walk to a place goes on: from here if this stands before the place in its line, and from the line's start if not.
    fn start_before(self, line: u64, col: u64) -> Reached
        ensures at_line { result.line ≡ line }
        ensures at_col { result.col ≤ col }
        ensures which { (result ≡ self) ⊎ (result ≡ row_start line) }
    {
        if self.line == line && self.col <= col {
            self
        } else {
            Reached::start_of(line)
        }
    }

    /// Goes on to a place, or to its line's end where the place stands past that. It walks from here where this stands before the place
    /// in its line, and from the line's start if not. It takes no memory.
    pub fn go_to<S: Lines>(self, encoding: Encoding, lines: &S, line: u64, col: u64) -> Reached
        requires lines { AreLines (S.rows lines.now) }
        requires reached { IsReached encoding (S.rows lines.now) self }
        ensures at_line { result.line ≡ line }
        ensures at_col { result.col ≡ min col (length (row_chars (S.rows lines.now) line)) }
        ensures reached { IsReached encoding (S.rows lines.now) result }
    {
        if line >= lines.len() as u64 {
            return Reached::start_of(line);
        }
        let from = self.start_before(line, col);
        let walked = walk_over(encoding, text_from(lines, from), col - from.col);
        Reached {
            line,
            col: from.col + walked.characters,
            byte: from.byte + walked.byte,
            units: from.units + walked.units,
        }
    }

    /// What an editor is told of the place.
    pub fn told(self) -> EditorPlace
        ensures { result ≡ record { line = self.line; units = self.units } }
    {
        EditorPlace {
            line: self.line,
            units: self.units,
        }
    }
}

/// The text of a line from a place on, without the line's break. It takes no memory.
pub fn text_from<S: Lines>(lines: &S, from: Reached) -> &str
    requires line { from.line < length (S.rows lines.now) }
    requires col { from.col ≤ length (row_chars (S.rows lines.now) from.line) }
    requires byte { from.byte ≡ length (encode_utf8_all (take from.col (row_chars (S.rows lines.now) from.line))) }
    ensures { chars result.now ≡ drop from.col (row_chars (S.rows lines.now) from.line) }
{
    &lines.row(from.line as usize).as_str()[from.byte..]
}
