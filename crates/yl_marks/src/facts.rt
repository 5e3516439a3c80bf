//! The facts that the keys of a document decide about its lexemes.

ghost use Rattle.std.specs.Prelude.{◌≡◌, ◌++◌, IfOk, OnOk, slice_get};
ghost use Rattle.yl_marks.specs.Marks.{AreBegins};
ghost use Rattle.yl_marks.specs.FactsByLine.{ahead_of_all, fact_by, facts_ahead, has_key, has_tag_behind, is_key_behind, next_ahead};

use crate::symbol::{KeyedToken, Marking};
use std::alloc::{AllocError, Allocator};
use yl_lexeme::Kind;

/// The facts that the keys of a document decide about one of its lexemes.
#[derive(Clone, Copy, PartialEq, Eq)]
pub struct KeyFacts {
    /// Whether a key unit ends with the lexeme, or only properties stand between an indicator `?`
    /// and the lexeme. A scalar with this flag is a key.
    pub is_key: bool,
    /// Whether a tag is among the properties of the lexeme's own node, which stand directly before
    /// the lexeme.
    pub has_tag: bool,
}

/// Returns whether a tag is among the properties that end with this lexeme. `has_tag` says whether
/// one is among the properties directly before the lexeme.
fn has_tag_behind(has_tag: bool, m: Marking) -> bool
    ensures { result ≡ has_tag_behind has_tag m }
{
    match m.piece.kind {
        Kind::Tag => true,
        Kind::Anchor => !m.begins_key && has_tag,
        _ => false,
    }
}

/// Returns whether the lexeme is a Key, or a property after a Key. `is_key` says whether the
/// lexemes before it end in a Key with at most properties after it.
fn is_key_behind(is_key: bool, kind: Kind) -> bool
    ensures { result ≡ is_key_behind is_key kind }
{
    match kind {
        Kind::Anchor | Kind::Tag => is_key,
        Kind::Key => true,
        _ => false,
    }
}

/// Returns whether there is a lexeme and it is a Value that has a key.
fn has_key(piece: Option<KeyedToken>) -> bool
    ensures { result ≡ has_key piece }
{
    match piece {
        None => false,
        Some(piece) => piece.key.is_some(),
    }
}

/// Returns the first lexeme, if there is one.
fn first_of(pieces: &[KeyedToken]) -> Option<KeyedToken>
    ensures { result ≡ slice_get pieces.now 0 }
{
    match pieces {
        [] => None,
        [first, ..] => Some(*first),
    }
}

/// Returns the facts about a lexeme that is followed by `next`. `ahead` contains the facts that the
/// lexemes before it decide about it, if no key begins or ends with it.
fn fact_by(ahead: KeyFacts, m: Marking, next: Option<KeyedToken>) -> KeyFacts
    ensures { result ≡ fact_by ahead m next }
{
    let ends_key = has_key(next);
    KeyFacts {
        is_key: ends_key | ahead.is_key,
        has_tag: !m.begins_key & ahead.has_tag,
    }
}

/// Returns the facts that this lexeme and those before it decide about the lexeme after it, if no
/// key begins or ends with that one.
pub fn next_ahead(ahead: KeyFacts, m: Marking) -> KeyFacts
    ensures { result ≡ next_ahead ahead m }
{
    KeyFacts {
        is_key: is_key_behind(ahead.is_key, m.piece.kind),
        has_tag: has_tag_behind(ahead.has_tag, m),
    }
}

/// Appends the facts about the lexemes of a line. Returns what they decide about the lexeme after
/// them. `first` is the index of the first of them in the document, and `begins` says of each
/// whether a key begins with it. The only error is out of memory.
pub fn push_facts<A: Allocator>(
    pieces: &[KeyedToken],
    begins: &[bool],
    first: usize,
    mut ahead: KeyFacts,
    facts: &mut Vec<KeyFacts, A>,
) -> Result<KeyFacts, AllocError>
    requires { AreBegins begins.now first pieces.now }
    ensures facts { OnOk result (facts.new.items ≡ facts.old.items ++ facts_ahead ahead pieces.now first pieces.now) }
    ensures ahead { IfOk result (λ behind. behind ≡ ahead_of_all ahead pieces.now first pieces.now) }
{
    for (i, piece) in pieces.iter().enumerate() {
        let m = Marking {
            piece: *piece,
            begins_key: begins[i],
        };
        let (_, behind) = pieces.split_at(i + 1);
        facts.push(fact_by(ahead, m, first_of(behind)))?;
        ahead = next_ahead(ahead, m);
    }
    Ok(ahead)
}
