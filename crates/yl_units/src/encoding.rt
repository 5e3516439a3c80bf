//! The units in which an editor counts columns.
ghost use Rattle.std.specs.Prelude.{◌≡◌};
ghost use Rattle.std.specs.Str.{chars};
ghost use Rattle.yl_units.specs.Units.{width_of};
ghost use Rattle.yl_units.specs.Units as spec;

/// The units in which an editor counts columns.
#[derive(Clone, Copy, Debug, PartialEq, Eq)]
pub enum Encoding {
    /// Bytes of UTF-8.
    Utf8,
    /// 16-bit units of UTF-16.
    Utf16,
    /// Characters.
    Utf32,
}

impl Encoding {
    /// How many units the character has.
    pub fn width(self, c: char) -> usize
        ensures { result ≡ width_of self c }
    {
        match self {
            Encoding::Utf8 => c.len_utf8(),
            Encoding::Utf16 => c.len_utf16(),
            Encoding::Utf32 => 1,
        }
    }
}

/// Returns the column of the place after so many units of a line: inside a character that of the place before it, past the last
/// character that of the line's end. It takes no memory.
pub fn column_of(encoding: Encoding, line: &str, units: u64) -> usize
    ensures { result ≡ spec.column_of encoding (chars line.now) units }
{
    let mut left = units;
    let mut column = 0;
    for c in line.chars() {
        let width = encoding.width(c) as u64;
        if left < width {
            return column;
        }
        left -= width;
        column += 1;
    }
    column
}
