//! Lexemes without their values.

ghost use Rattle.std.specs.Prelude.{◌≡◌, ◌++◌, map, OnOk};
ghost use Rattle.yl_marks.specs.Keys.{lexeme_at_line, token_of};

use crate::row_lexemes::RowLexemes;
use std::alloc::{AllocError, Allocator};
use yl_lexeme::{Kind, LexemeAtLine};
use yl_text::Pos;

/// A lexeme of a document without its value.
#[derive(Clone, Copy)]
pub struct Token {
    /// Its kind.
    pub kind: Kind,
    /// Where it begins in the text: line and column from 0, the column in characters.
    pub start: Pos,
    /// The line of the text in which it ends, from 0.
    pub end_line: u64,
}

/// Returns the token of a lexeme at a line of the text.
pub fn token_of<A: Allocator>(at: &LexemeAtLine<'_, A>) -> Token
    ensures { result ≡ token_of (lexeme_at_line at.now.line at.now.lexeme.now) }
{
    Token {
        kind: at.lexeme.kind(),
        start: at.start(),
        end_line: u64::from(at.line) + u64::from(at.lexeme.end().line),
    }
}

/// Appends the tokens of the lexemes of a row. The only error is out of memory.
pub fn push_tokens<A: Allocator>(
    row: &RowLexemes<'_, A>,
    tokens: &mut Vec<Token, A>,
) -> Result<(), AllocError>
    ensures { OnOk result (tokens.new.items ≡ tokens.old.items ++ map token_of (map (lexeme_at_line row.now.line) row.now.lexemes.now)) }
{
    let line = row.line;
    for lexeme in row.lexemes {
        tokens.push(token_of(&LexemeAtLine { line, lexeme }))?;
    }
    Ok(())
}
