//! The lines in which lexemes begin.

ghost use Rattle.std.specs.Prelude.{◌≡◌, ◌≤◌, ◌<◌, [], ◌∷◌, length, take, drop};
ghost use Rattle.yl_marks.specs.ByLine.{by_line, MarkedByLines};
ghost use Rattle.yl_marks.specs.FactsByLine.{KeysByLines};

use crate::token::Token;

/// Returns how many tokens, from the first on, begin in the line of the first token. Returns 0 if
/// there are no tokens.
pub fn line_len(tokens: &[Token]) -> usize
    ensures most { result ≤ length tokens.now }
    ensures some { 0 < length tokens.now → 0 < result }
    ensures line { 0 < length tokens.now → by_line tokens.now ≡ take result tokens.now ∷ by_line (drop result tokens.now) }
{
    let Some(first) = tokens.first() else {
        return 0;
    };
    let line = first.start.line;
    for (len, token) in tokens.iter().enumerate() {
        if token.start.line != line {
            return len;
        }
    }
    tokens.len()
}

/// A law: the marks of a document are the marks of its lines, one after another.
pub fn marked_by_lines()
    ensures { MarkedByLines }
{}

/// A law: the facts that the keys of a document decide about its lexemes are those of its lines,
/// one after another.
pub fn keys_by_lines()
    ensures { KeysByLines }
{}
