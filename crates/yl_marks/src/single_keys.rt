//! Lines without properties in which each key is one scalar or alias, directly before its Value.
//! Most lines are such, and one pass over their lexemes marks them.

ghost use Rattle.std.specs.Prelude.{◌≡◌, ◌<◌, ◌≤◌, ◌+◌, ◌^◌, ◌++◌, length, reverse, false, None, OnOk, IfOk};
ghost use Rattle.yl_marks.specs.SingleKeys.{facts_of, has_single_keys, is_key_next, leaf_place, marks_of, may_follow, open_behind_each, single_fact, single_markings, HasPassed};

use crate::facts::{KeyFacts, next_ahead};
use crate::keys::{depth_behind, key_at, piece_at, place_of};
use crate::marks::mark_one;
use crate::symbol::{Earlier, KeyStart, KeyedToken, Marking, OpenBlock, Symbol};
use crate::token::Token;
use std::alloc::{AllocError, Allocator};
use yl_lexeme::Kind;

/// Returns whether a lexeme may stand in such a line: it is no property, and no Value directly
/// after a closing bracket.
fn may_follow(is_behind_closing: bool, kind: Kind) -> bool
    ensures { result ≡ may_follow is_behind_closing kind }
{
    match kind {
        Kind::Anchor | Kind::Tag => false,
        Kind::Value => !is_behind_closing,
        _ => true,
    }
}

/// Returns whether a line has no property, and no Value directly after a closing bracket. Then each
/// of its keys is one scalar or alias, directly before its Value.
pub fn has_single_keys(line: &[Token]) -> bool
    ensures { result ≡ has_single_keys false line.now }
{
    let mut is_behind_closing = false;
    let mut rest = line;
    while let [token, behind @ ..] = rest {
        if !may_follow(is_behind_closing, token.kind) {
            return false;
        }
        is_behind_closing = token.kind.is_closing();
        rest = behind;
    }
    true
}

/// Returns the place of a scalar or an alias of this index, if a key may begin at it.
fn leaf_place(index: usize, piece: KeyedToken) -> Option<KeyStart>
    ensures { result ≡ leaf_place index piece }
{
    match piece.kind {
        Kind::Scalar(_) | Kind::Alias => place_of(index, piece),
        _ => None,
    }
}

/// Returns whether the next lexeme is a Value whose key begins at this place.
fn is_key_next(place: Option<KeyStart>, behind: &[Token]) -> bool
    ensures { result ≡ is_key_next place behind.now }
{
    match behind {
        [] => false,
        [next, ..] => {
            matches!(next.kind, Kind::Value) && key_at(next.start.col, place).is_some()
        }
    }
}

/// Returns the facts about a lexeme of such a line. `ahead` contains the facts that the lexemes
/// before it decide about it, if no key begins or ends with it.
fn single_fact(ahead: KeyFacts, m: Marking) -> KeyFacts
    ensures { result ≡ single_fact ahead m }
{
    KeyFacts {
        is_key: m.begins_key | ahead.is_key,
        has_tag: !m.begins_key & ahead.has_tag,
    }
}

/// Appends the lexemes of such a line with their marks to `symbols`, and the facts about them to
/// `keys`. Returns the summary of these lexemes and the earlier ones, and the facts that they
/// decide about the lexeme after them. The only error is out of memory.
pub fn mark_single_keys<A: Allocator>(
    line: &[Token],
    mut earlier: Earlier,
    mut ahead: KeyFacts,
    collections: &mut Vec<OpenBlock, A>,
    symbols: &mut Vec<Symbol, A>,
    keys: &mut Vec<KeyFacts, A>,
) -> Result<(Earlier, KeyFacts), AllocError>
    requires count { earlier.count + length line.now < 2 ^ 32 }
    requires depth { earlier.depth ≤ earlier.count }
    ensures marks { OnOk result (let ms = single_markings earlier.count earlier.depth earlier.latest None line.now in
        symbols.new.items ≡ symbols.old.items ++ marks_of (reverse collections.old.items) earlier.count ms) }
    ensures left { OnOk result (let ms = single_markings earlier.count earlier.depth earlier.latest None line.now in
        reverse collections.new.items ≡ open_behind_each (reverse collections.old.items) ms) }
    ensures facts { OnOk result (let ms = single_markings earlier.count earlier.depth earlier.latest None line.now in
        keys.new.items ≡ keys.old.items ++ facts_of ahead ms) }
    ensures behind { IfOk result (λ r. HasPassed earlier ahead line.now r.0 r.1) }
{
    let mut place = None;
    let mut rest = line;
    while let [token, behind @ ..] = rest {
        let piece = piece_at(*token, earlier, place);
        place = leaf_place(earlier.count, piece);
        let m = Marking {
            piece,
            begins_key: is_key_next(place, behind),
        };
        mark_one(m, earlier.count as u32, collections, symbols)?;
        keys.push(single_fact(ahead, m))?;
        ahead = next_ahead(ahead, m);
        earlier = Earlier {
            count: earlier.count + 1,
            depth: depth_behind(piece.kind, earlier.depth),
            latest: Some(piece),
        };
        rest = behind;
    }
    Ok((earlier, ahead))
}
