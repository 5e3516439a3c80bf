//! The lexemes of a document with their marks. A lexeme is named by its index in the document.

use yl_lexeme::Kind;
use yl_text::Pos;

/// The maximum number of lexemes in a document.
pub const MOST: usize = u32::MAX as usize;

/// A lexeme, or a mark between lexemes. Each mark but `Close` names the lexeme that it stands
/// before.
#[derive(Clone, Copy)]
pub enum Symbol {
    /// A block sequence opens before the lexeme of this index.
    OpenSequence(u32),
    /// A block mapping opens before the lexeme of this index.
    OpenMapping(u32),
    /// A key begins with the lexeme of this index.
    BeginKey(u32),
    /// The innermost open block collection closes.
    Close,
    /// The lexeme of this kind and index.
    One(Kind, u32),
}

/// A place where a key may begin.
#[derive(Clone, Copy)]
pub struct KeyStart {
    /// The number of lexemes before it in the document.
    pub index: usize,
    /// Its column, in characters from 0.
    pub column: u32,
}

/// A lexeme without its value, and what the lexemes before it decide about its place.
#[derive(Clone, Copy)]
pub struct KeyedToken {
    /// The line of the text in which it ends, from 0.
    pub end_line: u64,
    /// The number of brackets that are open before it.
    pub depth: usize,
    /// The number of lexemes before its key, if it is a Value that has a key.
    pub key: Option<usize>,
    /// Where it begins in the text: line and column from 0, the column in characters.
    pub start: Pos,
    /// Its kind.
    pub kind: Kind,
    /// Whether no earlier lexeme ends in its line.
    pub is_first: bool,
    /// Whether a key may begin with it.
    pub may_begin: bool,
}

/// A summary of the lexemes before a place.
#[derive(Clone, Copy)]
pub struct Earlier {
    /// The number of these lexemes.
    pub count: usize,
    /// The number of brackets that are open after them.
    pub depth: usize,
    /// The latest of them.
    pub latest: Option<KeyedToken>,
}

/// A lexeme, and whether a key begins with it.
#[derive(Clone, Copy)]
pub struct Marking {
    /// The lexeme.
    pub piece: KeyedToken,
    /// Whether a key begins with it.
    pub begins_key: bool,
}

/// An open block collection.
#[derive(Clone, Copy, PartialEq, Eq)]
pub struct OpenBlock {
    /// Whether it is a mapping. Otherwise it is a sequence.
    pub is_mapping: bool,
    /// Its column, in characters from 0.
    pub column: u32,
}

/// The kinds of block collections.
#[derive(Clone, Copy)]
pub enum Collection {
    /// A sequence.
    Sequence,
    /// A mapping.
    Mapping,
}

/// A lexeme of a document, or a mark between its lexemes.
#[derive(Clone, Copy)]
pub enum Marked {
    /// A block collection of this kind opens in this column, in characters from 0.
    Open(Collection, u32),
    /// The innermost open block collection closes.
    Close,
    /// The lexeme of this index, and whether a key unit begins with it.
    Lexeme(usize, bool),
}
