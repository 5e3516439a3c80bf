//! The elements of a document: its lexemes, each with its surroundings, and the marks between them.
ghost use Rattle.std.specs.Prelude.{◌≡◌, ◌<◌, ◌+◌, ◌-◌, None, map, length, nat_lt, slice_get, slice_index};
ghost use Rattle.yl_marks.specs.Keys.{lexeme_at_line, token_of};
ghost use Rattle.yl_marks.specs.Marks.{column_at};
ghost use Rattle.yl_indentation.specs.Elements.{element_of, element_at, lexeme_element};
ghost use Rattle.yl_indentation.specs.SlimElements.{slim_element};
ghost use Rattle.yl_indentation.specs.LineFacts.{element_in_line, lexeme_in_line};

use std::alloc::Allocator;
use yl_lexeme::{Kind, LexemeAtLine};
use yl_marks::{Collection, Marked, Symbol, Token, token_of};

/// A lexeme with its surroundings.
#[derive(Clone, Copy)]
pub struct Site {
    /// The lexeme.
    pub token: Token,
    /// The lexeme after it. The code sets it only for an opening bracket.
    pub next: Option<Token>,
    /// The number of spaces at the beginning of its line. The code sets it only for an opening
    /// bracket.
    pub indentation: u32,
    /// Whether it is one of the lexemes that count. The places of the others are not checked.
    pub counts: bool,
}

/// An element of a document.
#[derive(Clone, Copy)]
pub enum Element {
    /// A block collection of this kind opens in this column, in characters from 0.
    Opening(Collection, u32),
    /// The innermost block collection closes.
    Closing,
    /// The marker `---` or `...`.
    Marker(Site),
    /// The bracket `[` or `{`.
    OpeningBracket(Site),
    /// The bracket `]` or `}`.
    ClosingBracket(Site),
    /// Any other lexeme.
    Other(Site),
    /// A mark with the index of no lexeme.
    Nothing,
}

/// Returns the token of the lexeme of index `i`, if there is one.
fn token_at<A: Allocator>(lexemes: &[LexemeAtLine<'_, A>], i: usize) -> Option<Token>
    ensures { result
        ≡ slice_get (map token_of (map (λ x. lexeme_at_line x.line x.lexeme.now) lexemes.now)) i }
{
    match lexemes.get(i) {
        None => None,
        Some(at) => Some(token_of(at)),
    }
}

/// Returns the number of spaces at the beginning of a line, or 0 if there is no such line.
fn indentation_at(indentations: &[u32], line: u32) -> u32
    ensures { result ≡ slice_index indentations.now line }
{
    match indentations.get(line as usize) {
        None => 0,
        Some(spaces) => *spaces,
    }
}

/// Returns the element of a lexeme with its surroundings.
#[inline(always)]
fn element_at(site: Site) -> Element
    ensures { result ≡ element_at site.token.kind site }
{
    match site.token.kind {
        Kind::DocStart | Kind::DocEnd => Element::Marker(site),
        Kind::SeqOpen | Kind::MapOpen => Element::OpeningBracket(site),
        Kind::SeqClose | Kind::MapClose => Element::ClosingBracket(site),
        _ => Element::Other(site),
    }
}

/// Returns the element of a lexeme without its surroundings.
#[inline(always)]
fn alone(token: Token, counts: bool) -> Element
    ensures { result ≡ element_at token.kind (record { token = token; next = None; indentation = 0; counts = counts }) }
{
    element_at(Site {
        token,
        next: None,
        indentation: 0,
        counts,
    })
}

/// Returns the element of the lexeme of index `i`. Sets its surroundings only if it is an opening
/// bracket, since no rule uses those of other lexemes.
fn element_of_lexeme<A: Allocator>(
    lexemes: &[LexemeAtLine<'_, A>],
    counted: usize,
    indentations: &[u32],
    i: usize,
) -> Element
    ensures { result ≡ slim_element (lexeme_element
        (map token_of (map (λ x. lexeme_at_line x.line x.lexeme.now) lexemes.now))
        counted indentations.now i (slice_get
        (map token_of (map (λ x. lexeme_at_line x.line x.lexeme.now) lexemes.now)) i)) }
{
    let Some(token) = token_at(lexemes, i) else {
        return Element::Nothing;
    };
    let counts = i < counted;
    if !token.kind.is_opening() {
        return alone(token, counts);
    }
    Element::OpeningBracket(Site {
        token,
        next: token_at(lexemes, i.saturating_add(1)),
        indentation: indentation_at(indentations, token.start.line),
        counts,
    })
}

/// Returns the element of a mark in a document with these lexemes, of which the first `counted`
/// count. `indentations` contains the number of spaces at the beginning of each line. Sets the
/// surroundings of a lexeme only if it is an opening bracket.
pub fn element_of<A: Allocator>(
    lexemes: &[LexemeAtLine<'_, A>],
    counted: usize,
    indentations: &[u32],
    mark: Marked,
) -> Element
    ensures { result ≡ slim_element (element_of
        (map token_of (map (λ x. lexeme_at_line x.line x.lexeme.now) lexemes.now))
        counted indentations.now mark) }
{
    match mark {
        Marked::Open(collection, column) => Element::Opening(collection, column),
        Marked::Close => Element::Closing,
        Marked::Lexeme(i, _) => element_of_lexeme(lexemes, counted, indentations, i),
    }
}

/// Returns the token of index `i` in a line, if there is one.
#[inline(always)]
fn token_in(line: &[Token], i: usize) -> Option<Token>
    ensures { result ≡ slice_get line.now i }
{
    match line.get(i) {
        None => None,
        Some(token) => Some(*token),
    }
}

/// Returns the column of the token of index `i` in a line, or 0 if there is none.
#[inline(always)]
fn column_in(line: &[Token], i: usize) -> u32
    ensures { result ≡ column_at line.now i }
{
    match line.get(i) {
        None => 0,
        Some(token) => token.start.col,
    }
}

/// Returns the element of the lexeme of index `i` in a line that begins with `indentation` spaces.
/// Sets its surroundings only if it is an opening bracket. The next lexeme is then the one after it
/// in the line.
#[inline(always)]
fn lexeme_in_line(line: &[Token], i: usize, counts: bool, indentation: u32) -> Element
    ensures { result ≡ slim_element (lexeme_in_line line.now i counts indentation (slice_get line.now i)) }
{
    let Some(token) = token_in(line, i) else {
        return Element::Nothing;
    };
    if !token.kind.is_opening() {
        return alone(token, counts);
    }
    Element::OpeningBracket(Site {
        token,
        next: token_in(line, i.saturating_add(1)),
        indentation,
        counts,
    })
}

/// Returns the element of a symbol in a line that begins with `indentation` spaces. `first` is the
/// number of lexemes before the line, and the first `counted` lexemes of the document count.
/// Returns `None` for the mark that a key begins. Sets the surroundings of a lexeme only if it is
/// an opening bracket.
#[inline(always)]
pub fn element_in_line(
    line: &[Token],
    first: usize,
    counted: usize,
    indentation: u32,
    symbol: Symbol,
) -> Option<Element>
    ensures { result ≡ element_in_line line.now first counted indentation symbol }
{
    match symbol {
        Symbol::OpenSequence(i) => Some(Element::Opening(
            Collection::Sequence,
            column_in(line, (i as usize).saturating_sub(first)),
        )),
        Symbol::OpenMapping(i) => Some(Element::Opening(
            Collection::Mapping,
            column_in(line, (i as usize).saturating_sub(first)),
        )),
        Symbol::BeginKey(_) => None,
        Symbol::Close => Some(Element::Closing),
        Symbol::One(_, i) => Some(lexeme_in_line(
            line,
            (i as usize).saturating_sub(first),
            (i as usize) < counted,
            indentation,
        )),
    }
}
