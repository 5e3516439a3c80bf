//! Keys, and where they may begin.

ghost use Rattle.std.specs.Prelude.{◌≡◌, ◌<◌, ◌≤◌, ◌+◌, ◌-◌, ◌^◌, [], length, drop, false, OnOk, IfOk, if◌then◌else◌, ◌&&◌, ◌==◌, option_map};
ghost use Rattle.std.specs.List.{list_any};
ghost use Rattle.std.specs.Option.{option_map_or};
ghost use Rattle.yl_lexeme.specs.Lexeme.{is_value};
ghost use Rattle.yl_lexeme.specs.Kept.{key_unit_behind};
ghost use Rattle.yl_lexeme.specs.Past.{opens_item, asks_behind};
ghost use Rattle.yl_marks.specs.Keys.{depth_behind, is_first, may_begin, place_of, key_at, keyed_token_at};
ghost use Rattle.yl_marks.specs.ByLine.{line_pieces, IsBehind};

use crate::symbol::{Earlier, KeyStart, KeyedToken};
use crate::token::Token;
use std::alloc::{AllocError, Allocator};
use yl_lexeme::{KeyUnit, Kind, is_near};

/// Returns how many brackets are open after a lexeme of this kind. `depth` brackets are open before
/// it.
pub fn depth_behind(kind: Kind, depth: usize) -> usize
    requires { depth < 2 ^ 64 - 1 }
    ensures one { result ≡ depth_behind kind depth }
    ensures most { result ≤ depth + 1 }
{
    if kind.is_document_marker() {
        0
    } else if kind.is_opening() {
        depth + 1
    } else if kind.is_closing() {
        depth.saturating_sub(1)
    } else {
        depth
    }
}

/// Returns whether no earlier lexeme ends in this line.
fn is_first(line: u32, latest: Option<KeyedToken>) -> bool
    ensures { result ≡ is_first line latest }
{
    match latest {
        None => true,
        Some(piece) => piece.end_line < u64::from(line),
    }
}

/// Returns whether the latest lexeme is an opening bracket or a comma.
fn is_behind_flow(latest: Option<KeyedToken>) -> bool
    ensures { result ≡ opens_item (option_map (λ x. x.kind) latest) }
{
    match latest {
        None => false,
        Some(piece) => piece.kind.opens_item(),
    }
}

/// Returns whether the latest lexeme begins in this line and is an Entry, a Key, or a Value without
/// a key.
fn is_behind_indicator(line: u32, latest: Option<KeyedToken>) -> bool
    ensures { result
        ≡ option_map_or (λ x. x.start.line == line && asks_behind x.kind x.key) latest false }
{
    match latest {
        None => false,
        Some(piece) => piece.start.line == line && piece.kind.asks(piece.key),
    }
}

/// Returns whether a key may begin in this line, inside `depth` brackets, after the latest lexeme.
fn may_begin(line: u32, depth: usize, latest: Option<KeyedToken>) -> bool
    ensures { result ≡ may_begin line depth latest }
{
    if depth > 0 {
        is_behind_flow(latest)
    } else {
        is_first(line, latest) || is_behind_indicator(line, latest)
    }
}

/// Returns the place of the lexeme of this index, if a key may begin at it.
pub fn place_of(index: usize, piece: KeyedToken) -> Option<KeyStart>
    ensures { result ≡ place_of index piece }
{
    piece.may_begin.then_some(KeyStart {
        index,
        column: piece.start.col,
    })
}

/// Returns the number of lexemes before `key`, which is the place where the key of a Value in this
/// column begins. Returns `None` if there is no such place, or the Value is more than 1024
/// characters after it.
pub fn key_at(column: u32, key: Option<KeyStart>) -> Option<usize>
    ensures { result ≡ key_at column key }
{
    match key {
        Some(key) if is_near(column as usize, key.column as usize) => Some(key.index),
        _ => None,
    }
}

/// Returns the lexeme with what the earlier lexemes decide about its place. If it is a Value, `key`
/// is the place where its key would begin.
pub fn piece_at(token: Token, earlier: Earlier, key: Option<KeyStart>) -> KeyedToken
    ensures { result ≡ keyed_token_at token earlier.depth earlier.latest key }
{
    let Token {
        kind,
        start,
        end_line,
    } = token;
    let key = match kind {
        Kind::Value => key_at(start.col, key),
        _ => None,
    };
    KeyedToken {
        kind,
        start,
        end_line,
        depth: earlier.depth,
        is_first: is_first(start.line, earlier.latest),
        may_begin: may_begin(start.line, earlier.depth, earlier.latest),
        key,
    }
}

/// Returns the index of the last Value in a line, or 0 if there is none. It is the last lexeme for
/// which the place of a key is looked up.
fn last_value(tokens: &[Token]) -> usize
    ensures { list_any (λ x. is_value x.kind) (drop (result + 1) tokens.now) ≡ false }
{
    for i in (0..tokens.len()).rev() {
        if matches!(tokens[i].kind, Kind::Value) {
            return i;
        }
    }
    0
}

/// Adds a lexeme to the unit, if a later Value needs to know where its key begins. The only error
/// is out of memory.
fn pass_if_asked<A: Allocator + Copy>(
    is_asked: bool,
    unit: &mut KeyUnit<KeyStart, A>,
    index: usize,
    piece: KeyedToken,
) -> Result<(), AllocError>
    ensures { OnOk result (unit.new ≡ (if is_asked then key_unit_behind piece.kind (place_of index piece) unit.old else unit.old)) }
{
    if is_asked {
        unit.pass(piece.kind, place_of(index, piece))?;
    }
    Ok(())
}

/// Reads the lexemes of a line, and replaces the contents of `pieces` with them. Returns the
/// summary of these lexemes and the earlier ones. Discards the contents of `unit`, but reuses its
/// allocation and that of `pieces`. The only error is out of memory.
pub fn line_pieces<A: Allocator + Copy>(
    tokens: &[Token],
    mut earlier: Earlier,
    unit: &mut KeyUnit<KeyStart, A>,
    pieces: &mut Vec<KeyedToken, A>,
) -> Result<Earlier, AllocError>
    requires count { earlier.count + length tokens.now < 2 ^ 64 }
    requires depth { earlier.depth ≤ earlier.count }
    ensures pieces { OnOk result (pieces.new.items ≡ line_pieces earlier.count earlier.depth earlier.latest [] tokens.now) }
    ensures len { OnOk result (length pieces.new.items ≡ length tokens.now) }
    ensures behind { IfOk result (λ e. IsBehind earlier tokens.now pieces.new.items e) }
{
    unit.new_line();
    pieces.clear();
    let last = last_value(tokens);
    for (i, token) in tokens.iter().enumerate() {
        let piece = piece_at(*token, earlier, unit.start());
        pass_if_asked(i < last, unit, earlier.count, piece)?;
        pieces.push(piece)?;
        earlier = Earlier {
            count: earlier.count + 1,
            depth: depth_behind(piece.kind, earlier.depth),
            latest: Some(piece),
        };
    }
    Ok(earlier)
}
