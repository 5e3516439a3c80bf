//! The marks of a whole document, and the facts that its keys decide about its lexemes.

ghost use Rattle.std.specs.Prelude.{◌≡◌, false, map, IfOk};
ghost use Rattle.yl_marks.specs.Facts.{facts_of_tokens, key_facts};
ghost use Rattle.yl_marks.specs.Keys.{lexeme_at_line, token_of};
ghost use Rattle.yl_marks.specs.Marks.{as_marked, column_at, marked_lexemes, symbols_of_lexemes, symbols_of_tokens};

use crate::facts::KeyFacts;
use crate::key_marker::KeyMarker;
use crate::lines::line_len;
use crate::symbol::{Collection, Marked, Symbol};
use crate::token::{Token, token_of};
use std::alloc::{AllocError, Allocator};
use yl_lexeme::LexemeAtLine;

/// The lexemes of a document with their marks, and the facts that the keys of the document decide
/// about each lexeme.
#[derive(Drop)]
pub struct DocumentMarks<A: Allocator> {
    /// The lexemes in order, with the marks between them.
    pub symbols: Vec<Symbol, A>,
    /// The facts about each lexeme, in order.
    pub keys: Vec<KeyFacts, A>,
}

/// Returns the column in which the lexeme of index `i` begins, in characters from 0, or 0 if there
/// is no such lexeme.
pub fn column_at<A: Allocator>(lexemes: &[LexemeAtLine<'_, A>], i: usize) -> u32
    ensures { result ≡ column_at (map token_of (map (λ x. lexeme_at_line x.line x.lexeme.now) lexemes.now)) i }
{
    match lexemes.get(i) {
        None => 0,
        Some(at) => at.lexeme.start().col,
    }
}

/// Returns the same lexemes and marks, except that whether a key unit begins at a lexeme is a flag
/// of the lexeme instead of a mark.
fn as_marked<A: Allocator + Copy>(
    alloc: A,
    lexemes: &[LexemeAtLine<'_, A>],
    symbols: &[Symbol],
) -> Result<Vec<Marked, A>, AllocError>
    ensures { IfOk result (λ v. v.items ≡ as_marked (map token_of (map (λ x. lexeme_at_line x.line x.lexeme.now) lexemes.now)) false symbols.now) }
{
    let mut marked = Vec::with_capacity(alloc, symbols.len())?;
    let mut begins_key = false;
    for symbol in symbols {
        match *symbol {
            Symbol::OpenSequence(i) => marked.push(Marked::Open(
                Collection::Sequence,
                column_at(lexemes, i as usize),
            ))?,
            Symbol::OpenMapping(i) => marked.push(Marked::Open(
                Collection::Mapping,
                column_at(lexemes, i as usize),
            ))?,
            Symbol::BeginKey(_) => begins_key = true,
            Symbol::Close => marked.push(Marked::Close)?,
            Symbol::One(_, i) => {
                marked.push(Marked::Lexeme(i as usize, begins_key))?;
                begins_key = false;
            }
        }
    }
    Ok(marked)
}

/// Returns the lexemes without their values.
fn tokens_of<A: Allocator + Copy>(
    alloc: A,
    lexemes: &[LexemeAtLine<'_, A>],
) -> Result<Vec<Token, A>, AllocError>
    ensures { IfOk result (λ v. v.items ≡ map token_of (map (λ x. lexeme_at_line x.line x.lexeme.now) lexemes.now)) }
{
    let mut tokens = Vec::with_capacity(alloc, lexemes.len())?;
    for at in lexemes {
        tokens.push(token_of(at))?;
    }
    Ok(tokens)
}

/// Returns the marks of a whole document and the facts that its keys decide about its lexemes.
/// Reads the tokens line by line.
fn marks_of_tokens<A: Allocator + Copy>(
    alloc: A,
    tokens: &[Token],
) -> Result<DocumentMarks<A>, AllocError>
    ensures symbols { IfOk result (λ m. m.symbols.items ≡ symbols_of_tokens tokens.now) }
    ensures keys { IfOk result (λ m. m.keys.items ≡ facts_of_tokens tokens.now) }
{
    let mut marker = KeyMarker::new(alloc);
    let mut symbols = Vec::with_capacity(alloc, tokens.len())?;
    let mut keys = Vec::with_capacity(alloc, tokens.len())?;
    let mut read = 0;
    while read < tokens.len() {
        let (_, rest) = tokens.split_at(read);
        let count = line_len(rest);
        let (line, _) = rest.split_at(count);
        marker.read(line, &mut symbols, &mut keys)?;
        read += count;
    }
    marker.close(&mut symbols)?;
    Ok(DocumentMarks { symbols, keys })
}

/// Returns the marks of a whole document, and the facts that its keys decide about each of its
/// lexemes. The only error is out of memory. It is also returned for a document with more than
/// `u32::MAX` lexemes.
pub fn document_marks<A: Allocator + Copy>(
    alloc: A,
    lexemes: &[LexemeAtLine<'_, A>],
) -> Result<DocumentMarks<A>, AllocError>
    ensures symbols { IfOk result (λ m. m.symbols.items ≡ symbols_of_lexemes (map (λ x. lexeme_at_line x.line x.lexeme.now) lexemes.now)) }
    ensures keys { IfOk result (λ m. m.keys.items ≡ key_facts (map (λ x. lexeme_at_line x.line x.lexeme.now) lexemes.now)) }
{
    let tokens = tokens_of(alloc, lexemes)?;
    marks_of_tokens(alloc, &tokens)
}

/// Returns the lexemes of a whole document, in order, with the marks between them. The only error
/// is out of memory. It is also returned for a document with more than `u32::MAX` lexemes.
pub fn mark<A: Allocator + Copy>(
    alloc: A,
    lexemes: &[LexemeAtLine<'_, A>],
) -> Result<Vec<Marked, A>, AllocError>
    ensures { IfOk result (λ v. v.items ≡ marked_lexemes (map (λ x. lexeme_at_line x.line x.lexeme.now) lexemes.now)) }
{
    let marks = document_marks(alloc, lexemes)?;
    as_marked(alloc, lexemes, &marks.symbols)
}
