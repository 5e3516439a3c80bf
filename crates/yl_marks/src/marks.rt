//! The marks of a document.

ghost use Rattle.std.specs.Prelude.{◌≡◌, ◌++◌, ◌<◌, ◌+◌, ◌^◌, ◌||◌, ℕ, length, reverse, false, OnOk, slice_index_or};
ghost use Rattle.yl_marks.specs.Marks.{is_in_mapping, continues, closes_collection, collections_left, closings, collection_to_open, with_collection, opening, is_at, AreBegins, marks_at, open_behind, marks, open_behind_all, closings_of_all, key_mark};
ghost use Rattle.yl_marks.specs.Unmarked.{may_have_marks};
ghost use Rattle.yl_lexeme.specs.Lexeme.{is_entry};

use crate::symbol::{KeyedToken, Marking, OpenBlock, Symbol};
use std::alloc::{AllocError, Allocator};
use yl_lexeme::Kind;

/// Returns whether the lexeme belongs to a mapping in its column: a key begins with it, or it is a
/// Key or a Value without a key.
fn is_in_mapping(m: Marking) -> bool
    ensures { result ≡ is_in_mapping m }
{
    m.begins_key
        || match m.piece.kind {
            Kind::Key => true,
            Kind::Value => m.piece.key.is_none(),
            _ => false,
        }
}

fn is_entry(kind: Kind) -> bool
    ensures { result ≡ is_entry kind }
{
    matches!(kind, Kind::Entry)
}

/// Returns whether the lexeme continues a collection in its column.
fn continues(m: Marking, c: OpenBlock) -> bool
    ensures { result ≡ continues m c }
{
    is_entry(m.piece.kind) || (c.is_mapping && is_in_mapping(m))
}

/// Returns whether the lexeme closes the collection.
fn closes(m: Marking, c: OpenBlock) -> bool
    ensures { result ≡ closes_collection m c }
{
    let column = m.piece.start.col;
    m.piece.kind.is_document_marker()
        || (m.piece.depth == 0
            && m.piece.is_first
            && (column < c.column || (c.column == column && !continues(m, c))))
}

/// Removes the collections that the lexeme closes, and appends a mark for each of them. The only
/// error is out of memory.
fn close<A: Allocator>(
    m: Marking,
    collections: &mut Vec<OpenBlock, A>,
    symbols: &mut Vec<Symbol, A>,
) -> Result<(), AllocError>
    ensures left { OnOk result (reverse collections.new.items ≡ collections_left m (reverse collections.old.items)) }
    ensures closed { OnOk result (symbols.new.items ≡ symbols.old.items ++ closings m (reverse collections.old.items)) }
{
    while let Some(c) = collections.last().copied()
        && closes(m, c)
    {
        let _ = collections.pop();
        symbols.push(Symbol::Close)?;
    }
    Ok(())
}

/// Adds the collection that opens before the lexeme of this index, if any, and appends its mark.
/// The only error is out of memory.
fn open<A: Allocator>(
    m: Marking,
    i: u32,
    collections: &mut Vec<OpenBlock, A>,
    symbols: &mut Vec<Symbol, A>,
) -> Result<(), AllocError>
    ensures left { OnOk result (let new = collection_to_open m (reverse collections.old.items) in
        reverse collections.new.items ≡ with_collection new m.piece.start.col (reverse collections.old.items)) }
    ensures opened { OnOk result (let new = collection_to_open m (reverse collections.old.items) in
        symbols.new.items ≡ symbols.old.items ++ opening new i) }
{
    if m.piece.depth > 0 || m.piece.kind.is_document_marker() {
        return Ok(());
    }
    let column = m.piece.start.col;
    let innermost = collections.last().copied();
    let here = innermost.is_some_and(|c| c.column == column);
    let in_mapping = innermost.is_some_and(|c| c.column == column && c.is_mapping);
    if is_in_mapping(m) && !in_mapping {
        collections.push(OpenBlock {
            is_mapping: true,
            column,
        })?;
        symbols.push(Symbol::OpenMapping(i))?;
    } else if is_entry(m.piece.kind) && !here {
        collections.push(OpenBlock {
            is_mapping: false,
            column,
        })?;
        symbols.push(Symbol::OpenSequence(i))?;
    }
    Ok(())
}

/// Records that a key begins with the lexeme of index `key`, if it is among the lexemes of the
/// flags. They are those from the index `first` on.
fn note_key(begins: &mut [bool], first: usize, key: Option<usize>)
    ensures { (i : ℕ) → i < length begins.old → slice_index_or begins.new i false ≡ (slice_index_or begins.old i false || is_at (first + i) key) }
{
    if let Some(key) = key
        && first <= key
        && key - first < begins.len()
    {
        begins[key - first] = true;
    }
}

/// Replaces the contents of `begins`: for each lexeme of a line, whether the key of a Value of the
/// line begins with it. `first` is the index of the first lexeme. The only error is out of memory.
pub fn note_keys<A: Allocator>(
    begins: &mut Vec<bool, A>,
    first: usize,
    pieces: &[KeyedToken],
) -> Result<(), AllocError>
    ensures { OnOk result (AreBegins begins.new.items first pieces.now) }
{
    begins.clear();
    begins.resize(pieces.len(), false)?;
    for piece in pieces {
        note_key(begins, first, piece.key);
    }
    Ok(())
}

/// Appends the marks that stand before the lexeme of this index. The only error is out of memory.
fn mark_place<A: Allocator>(
    m: Marking,
    i: u32,
    collections: &mut Vec<OpenBlock, A>,
    symbols: &mut Vec<Symbol, A>,
) -> Result<(), AllocError>
    ensures left { OnOk result (reverse collections.new.items ≡ open_behind m (reverse collections.old.items)) }
    ensures marks { OnOk result (let new = collection_to_open m (collections_left m (reverse collections.old.items)) in
        symbols.new.items ≡ symbols.old.items ++ closings m (reverse collections.old.items) ++ opening new i ++ key_mark m.begins_key i) }
{
    close(m, collections, symbols)?;
    open(m, i, collections, symbols)?;
    if m.begins_key {
        symbols.push(Symbol::BeginKey(i))?;
    }
    Ok(())
}

/// Returns `true` if marks may stand before a lexeme: it is the first of its line, a document
/// marker or an Entry, or it belongs to a mapping in its column. No other lexeme has marks.
fn may_have_marks(m: Marking) -> bool
    ensures { result ≡ may_have_marks m }
{
    m.piece.is_first
        || m.piece.kind.is_document_marker()
        || is_entry(m.piece.kind)
        || is_in_mapping(m)
}

/// Appends a lexeme with its marks. Most lexemes have none. The only error is out of memory.
#[tactic(auto, using(crate::proofs::Unmarked::unmarked_open, crate::proofs::Unmarked::unmarked_marks))]
#[inline(always)]
pub fn mark_one<A: Allocator>(
    m: Marking,
    i: u32,
    collections: &mut Vec<OpenBlock, A>,
    symbols: &mut Vec<Symbol, A>,
) -> Result<(), AllocError>
    ensures left { OnOk result (reverse collections.new.items ≡ open_behind m (reverse collections.old.items)) }
    ensures marks { OnOk result (symbols.new.items ≡ symbols.old.items ++ marks_at m i (reverse collections.old.items)) }
{
    if !may_have_marks(m) {
        symbols.push(Symbol::One(m.piece.kind, i))?;
        return Ok(());
    }
    mark_place(m, i, collections, symbols)?;
    symbols.push(Symbol::One(m.piece.kind, i))?;
    Ok(())
}

/// Appends the lexemes of a line with their marks. `first` is the index of the first of them in the
/// document, and `begins` says of each whether a key begins with it. The only error is out of
/// memory.
pub fn marks<A: Allocator>(
    pieces: &[KeyedToken],
    begins: &[bool],
    first: usize,
    collections: &mut Vec<OpenBlock, A>,
    symbols: &mut Vec<Symbol, A>,
) -> Result<(), AllocError>
    requires count { first + length pieces.now < 2 ^ 32 }
    requires begins { AreBegins begins.now first pieces.now }
    ensures left { OnOk result (reverse collections.new.items ≡ open_behind_all pieces.now (reverse collections.old.items) first pieces.now) }
    ensures marks { OnOk result (symbols.new.items ≡ symbols.old.items ++ marks pieces.now (reverse collections.old.items) first pieces.now) }
{
    for (i, piece) in pieces.iter().enumerate() {
        let m = Marking {
            piece: *piece,
            begins_key: begins[i],
        };
        mark_one(m, (first + i) as u32, collections, symbols)?;
    }
    Ok(())
}

/// Appends a mark that closes each collection. The only error is out of memory.
pub fn close_all<A: Allocator>(
    collections: &[OpenBlock],
    symbols: &mut Vec<Symbol, A>,
) -> Result<(), AllocError>
    ensures { OnOk result (symbols.new.items ≡ symbols.old.items ++ closings_of_all (reverse collections.now)) }
{
    for _collection in collections {
        symbols.push(Symbol::Close)?;
    }
    Ok(())
}
