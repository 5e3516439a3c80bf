//! Lexemes without their values, and the distances between them.
ghost use Rattle.std.specs.Prelude.{◌≡◌};
ghost use Rattle.yl_marks.specs.Keys.{lexeme_at_line};
ghost use Rattle.yl_lexeme_rules.specs.Spans.{distance, is_less, span_of};

use std::alloc::Allocator;
use yl_lexeme::{Kind, LexemeAtLine};
use yl_text::Pos;

/// A lexeme without its value. Lines and columns count from 0, columns in characters.
#[derive(Clone, Copy)]
pub(crate) struct Span {
    /// Its kind.
    pub(crate) kind: Kind,
    /// Where it begins.
    pub(crate) start: Pos,
    /// The line in which it ends.
    pub(crate) end_line: u64,
    /// The column after its last character.
    pub(crate) end_col: u32,
}

/// A lexeme between its neighbours.
#[derive(Clone, Copy)]
pub(crate) struct Place {
    /// The lexeme before it, if there is one.
    pub(crate) before: Option<Span>,
    /// The lexeme.
    pub(crate) here: Span,
    /// The lexeme after it, if there is one.
    pub(crate) after: Option<Span>,
}

/// Returns the span of a lexeme at a line of the text.
pub(crate) fn span_of<A: Allocator>(at: &LexemeAtLine<'_, A>) -> Span
    ensures { result ≡ span_of (lexeme_at_line at.now.line at.now.lexeme.now) }
{
    let end = at.lexeme.end();
    Span {
        kind: at.lexeme.kind(),
        start: at.start(),
        end_line: u64::from(at.line) + u64::from(end.line),
        end_col: end.col,
    }
}

/// Returns the number of characters between two lexemes, or `None` if the second does not begin in
/// the line in which the first ends.
pub(crate) fn distance(x: &Span, y: &Span) -> Option<u32>
    ensures { result ≡ distance x.now y.now }
{
    if x.end_line == u64::from(y.start.line) {
        Some(y.start.col.saturating_sub(x.end_col))
    } else {
        None
    }
}

/// Returns whether both numbers are given and the first is less than the second.
pub(crate) fn is_less(m: Option<u32>, n: Option<u32>) -> bool
    ensures { result ≡ is_less m n }
{
    match (m, n) {
        (Some(m), Some(n)) => m < n,
        _ => false,
    }
}
