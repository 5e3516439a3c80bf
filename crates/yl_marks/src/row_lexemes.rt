//! The lexemes of a row.

use std::alloc::Allocator;
use yl_lexeme::Lexeme;

/// The lexemes that begin in a row of the text.
#[derive(Clone, Copy)]
pub struct RowLexemes<'a, A: Allocator> {
    /// The line of the text at which the row stands, from 0.
    pub line: u32,
    /// The lexemes, in order. Their lines count from the row.
    pub lexemes: &'a [Lexeme<A>],
}
