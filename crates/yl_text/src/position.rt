//! Positions in a text.

/// A position in a text: a line and a column. The column counts characters (code points) of the
/// line, break included: CR LF counts as two. The column after a break is the same position as
/// column 0 of the next line.
#[derive(Clone, Copy, Debug, PartialEq, Eq)]
pub struct Pos {
    /// The line, counted from 0.
    pub line: u32,
    /// The column, in characters, counted from 0.
    pub col: u32,
}
