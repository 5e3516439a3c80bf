//! Comments at their positions in a text.

/// A comment at its position in a text. Lines count from 0, and columns from 0 in characters.
#[derive(Clone, Copy)]
pub struct PlacedComment<'a> {
    /// The line.
    pub line: u32,
    /// The column of the `#`.
    pub col: u32,
    /// The text from the `#` to the end of the line, without the line break.
    pub text: &'a str,
    /// The column after the lexeme before it, if a lexeme before it ends in its line.
    pub behind: Option<u32>,
}
