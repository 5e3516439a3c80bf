//! Positions in a text by bytes, and the edit of whole lines that makes an edit between two
//! positions.
ghost use Rattle.std.specs.Prelude.{◌≡◌, ◌+◌, ◌-◌, ◌<◌, ◌≤◌, ◌↔◌, ◌++◌, true, IsTrue, IfOk, MatchOption, length, take, drop, slice_index, vec_capacity, vec_len, [], ◌^◌, if◌then◌else◌};
ghost use Rattle.std.specs.Str.{chars, encode_utf8_all, IsAscii, IsUtf8};
ghost use Rattle.yl_text.specs.Lines.{row_bytes, break_bytes};
ghost use Rattle.yl_text.specs.Store.{AreLines};
ghost use Rattle.yl_text.specs.Edit.{IsInText, CanEdit, offset, last_byte};
ghost use Rattle.yl_text.specs.PutLines.{IsLineEdit, back_of};
ghost use Rattle.yl_text.specs.Places.{line_bytes, line_start, IsByteOf, IsCut, IsBytePlace, IsBehind, IsFrontCut, BeginsBehind};

use crate::decode::are_ascii;
use crate::edit::{back_starts_with_lf, bytes_between, front_ends_in_cr};
use crate::store::Lines;
use crate::{Pos, Row};
use std::alloc::{AllocError, Allocator};

/// An edit of whole lines: `bytes` replaces the lines `first..end`, counted from 0.
#[derive(Drop)]
pub struct LineEdit<A: Allocator> {
    /// The first line of the range.
    pub first: usize,
    /// The line after the last one of the range.
    pub end: usize,
    /// The bytes that replace the lines of the range.
    pub bytes: Vec<u8, A>,
}

/// A position by bytes: a line, and the number of its bytes before the position, break included.
#[derive(Clone, Copy)]
pub(crate) struct BytePlace {
    /// The line, counted from 0.
    pub line: usize,
    /// The number of bytes of the line before the position.
    pub byte: usize,
}

/// The number of bytes of the first characters of a text, and the number of characters that the
/// text lacks.
#[derive(Clone, Copy)]
struct Walked {
    byte: usize,
    left: usize,
}

/// Returns the number of bytes of the first `characters` characters of a text, or of all if it has
/// fewer, and how many it lacks.
fn walk_over(text: &str, characters: usize) -> Walked
    ensures byte { result.byte ≡ length (encode_utf8_all (take characters (chars text.now))) }
    ensures left { result.left ≡ characters - length (chars text.now) }
{
    let front = characters.min(text.len());
    if are_ascii(&text.as_bytes()[..front]) {
        return Walked {
            byte: front,
            left: characters - front,
        };
    }
    walk_one_by_one(text, characters)
}

/// Returns what `walk_over` returns. Looks at one character after another.
fn walk_one_by_one(text: &str, characters: usize) -> Walked
    ensures byte { result.byte ≡ length (encode_utf8_all (take characters (chars text.now))) }
    ensures left { result.left ≡ characters - length (chars text.now) }
{
    let mut byte = 0;
    let mut left = characters;
    for c in text.chars() {
        if left == 0 {
            return Walked { byte, left };
        }
        byte += c.len_utf8();
        left -= 1;
    }
    Walked { byte, left }
}

/// Returns the number of bytes of the first `characters` characters of a line, break included, or
/// `None` if the line has fewer characters.
fn byte_of<A: Allocator>(row: &Row<A>, characters: usize) -> Option<usize>
    requires { length (row_bytes row.now) < 2 ^ 32 }
    ensures { MatchOption result (length (chars (row_bytes row.now)) < characters) (λ byte. IsByteOf (row_bytes row.now) characters byte) }
{
    let Walked { byte, left } = walk_over(row.as_str(), characters);
    if left > row.end().len() {
        return None;
    }
    Some(byte + left)
}

/// Returns the position after `byte` bytes of a line. After all bytes of a line, it is the start of
/// the next line, if there is one.
fn renamed<S: Lines>(lines: &S, line: usize, byte: usize) -> BytePlace
    requires lines { AreLines (S.rows lines.now) }
    requires line { line < length (S.rows lines.now) }
    requires cut { IsCut (line_bytes (S.rows lines.now) line) byte }
    ensures { IsBytePlace (S.rows lines.now) (line_start (S.rows lines.now) line + byte) result.line result.byte }
{
    if line + 1 < lines.len() && byte == lines.row(line).bytes() {
        return BytePlace {
            line: line + 1,
            byte: 0,
        };
    }
    BytePlace { line, byte }
}

/// Returns the position by bytes, or `None` if it is not in the text.
pub(crate) fn byte_place<S: Lines>(lines: &S, place: Pos) -> Option<BytePlace>
    requires { AreLines (S.rows lines.now) }
    ensures { MatchOption result (¬ (IsInText (S.rows lines.now) place))
        (λ at. IsInText (S.rows lines.now) place × IsBytePlace (S.rows lines.now) (offset (S.rows lines.now) place) at.line at.byte) }
{
    let line = place.line as usize;
    if line >= lines.len() {
        return None;
    }
    match byte_of(lines.row(line), place.col as usize) {
        Some(byte) => Some(renamed(lines, line, byte)),
        None => None,
    }
}

/// Returns whether the first position is after the second one.
pub(crate) fn is_behind(one: BytePlace, other: BytePlace) -> bool
    ensures { IsTrue result ↔ IsBehind one.line one.byte other.line other.byte }
{
    other.line < one.line || other.line == one.line && other.byte < one.byte
}

/// Returns the number of bytes between two positions. The first is not after the second.
pub(crate) fn bytes_from_to<S: Lines>(lines: &S, from: BytePlace, to: BytePlace) -> u64
    requires lines { AreLines (S.rows lines.now) }
    requires first { from.line ≤ to.line }
    requires last { to.line < length (S.rows lines.now) }
    requires within { to.byte ≤ length (line_bytes (S.rows lines.now) to.line) }
    requires ordered { line_start (S.rows lines.now) from.line + from.byte ≤ line_start (S.rows lines.now) to.line + to.byte }
    ensures { line_start (S.rows lines.now) from.line + from.byte + result ≡ line_start (S.rows lines.now) to.line + to.byte }
{
    bytes_between(lines, from.line, to.line) + to.byte as u64 - from.byte as u64
}

/// Returns whether two positions of a text are the same, even if they are written differently: the
/// column after a line's break is column 0 of the next line. Does not allocate.
pub fn are_one_place<S: Lines>(lines: &S, from: Pos, to: Pos) -> bool
    requires lines { AreLines (S.rows lines.now) }
    requires from { IsInText (S.rows lines.now) from }
    requires to { IsInText (S.rows lines.now) to }
    ensures { IsTrue result ↔ (offset (S.rows lines.now) from ≡ offset (S.rows lines.now) to) }
{
    let one = byte_place(lines, from).unwrap();
    let other = byte_place(lines, to).unwrap();
    one.line == other.line && one.byte == other.byte
}

/// Returns the first position of an edit, by bytes of the first line that the edit touches. If the
/// position begins a line and the line before that one ends in CR, it is the end of the line
/// before.
fn front_cut<S: Lines>(lines: &S, from: Pos) -> BytePlace
    requires lines { AreLines (S.rows lines.now) }
    requires from { IsInText (S.rows lines.now) from }
    ensures { IsFrontCut (S.rows lines.now) from result.line result.byte }
{
    let at = byte_place(lines, from).unwrap();
    if at.byte > 0 || !front_ends_in_cr(lines, at.line) {
        return at;
    }
    let line = at.line - 1;
    BytePlace {
        line,
        byte: lines.row(line).bytes(),
    }
}

/// Returns the byte before the index `place` of a line, break included.
fn byte_before<A: Allocator>(row: &Row<A>, place: usize) -> u8
    requires some { 0 < place }
    requires within { place ≤ length (row_bytes row.now) }
    ensures { result ≡ slice_index (row_bytes row.now) (place - 1) }
{
    let text = row.as_str().as_bytes();
    if place <= text.len() {
        text[place - 1]
    } else {
        row.end().as_bytes()[place - 1 - text.len()]
    }
}

/// Returns the last byte that the edited line has before the text from the second position on: the
/// last of `bytes`, or else the last before `cut` in its line. Returns `None` if there is neither.
fn last_before<S: Lines>(lines: &S, cut: BytePlace, bytes: &[u8]) -> Option<u8>
    requires line { cut.line < length (S.rows lines.now) }
    requires within { cut.byte ≤ length (line_bytes (S.rows lines.now) cut.line) }
    ensures { let t = take cut.byte (line_bytes (S.rows lines.now) cut.line) ++ bytes.now in
        MatchOption result (t ≡ []) (λ last. (last ≡ last_byte t) × (0 < length t)) }
{
    match bytes.last() {
        Some(byte) => Some(*byte),
        None if cut.byte == 0 => None,
        None => Some(byte_before(lines.row(cut.line), cut.byte)),
    }
}

/// Returns whether the second position of an edit begins a line both in the old text and in the
/// edited text. That line is then kept.
fn is_kept<S: Lines>(lines: &S, cut: BytePlace, bytes: &[u8], to: BytePlace) -> bool
    requires lines { AreLines (S.rows lines.now) }
    requires line { cut.line < length (S.rows lines.now) }
    requires within { cut.byte ≤ length (line_bytes (S.rows lines.now) cut.line) }
    requires last { to.line < length (S.rows lines.now) }
    ensures { IsTrue result ↔ ((to.byte ≡ 0) × BeginsBehind (take cut.byte (line_bytes (S.rows lines.now) cut.line) ++ bytes.now) (back_of (S.rows lines.now) to.line)) }
{
    if to.byte > 0 {
        return false;
    }
    match last_before(lines, cut, bytes) {
        None | Some(b'\n') => true,
        Some(b'\r') => !back_starts_with_lf(lines, to.line),
        Some(_) => false,
    }
}

/// The end of an edit of whole lines: the line after the last one that is replaced, and the byte of
/// the second position's line from which on the rest of this line is put in again. If the line is
/// kept, that is its number of bytes, so there is no rest.
#[derive(Clone, Copy)]
struct Ending {
    line: usize,
    byte: usize,
}

/// Returns the end of an edit whose second position is `at`, in a line of `bytes` bytes.
fn end_of(at: BytePlace, bytes: usize, is_kept: bool) -> Ending
    requires { at.line < 2 ^ 32 }
    ensures line { result.line ≡ (if is_kept then at.line else at.line + 1) }
    ensures byte { result.byte ≡ (if is_kept then bytes else at.byte) }
{
    if is_kept {
        Ending {
            line: at.line,
            byte: bytes,
        }
    } else {
        Ending {
            line: at.line + 1,
            byte: at.byte,
        }
    }
}

/// Appends the first `count` bytes of a line, break included. `piece` has capacity for them.
fn put_front<A: Allocator, B: Allocator>(row: &Row<A>, count: usize, piece: &mut Vec<u8, B>)
    requires within { count ≤ length (row_bytes row.now) }
    requires room { vec_len piece.old + count ≤ vec_capacity piece.old }
    ensures utf8 { IsUtf8 (row_bytes row.now) }
    ensures items { piece.new.items ≡ piece.old.items ++ take count (row_bytes row.now) }
    ensures capacity { vec_capacity piece.old ≤ vec_capacity piece.new }
{
    let text = row.as_str().as_bytes();
    piece
        .extend_from_slice(&text[..count.min(text.len())])
        .unwrap();
    piece
        .extend_from_slice(&row.end().as_bytes()[..count.saturating_sub(text.len())])
        .unwrap();
}

/// Appends the bytes of a line after the first `count` ones, break included. `piece` has capacity
/// for them.
fn put_rest<A: Allocator, B: Allocator>(row: &Row<A>, count: usize, piece: &mut Vec<u8, B>)
    requires within { count ≤ length (row_bytes row.now) }
    requires room { vec_len piece.old + (length (row_bytes row.now) - count) ≤ vec_capacity piece.old }
    ensures utf8 { IsUtf8 (row_bytes row.now) }
    ensures items { piece.new.items ≡ piece.old.items ++ drop count (row_bytes row.now) }
{
    let text = row.as_str().as_bytes();
    piece
        .extend_from_slice(&text[count.min(text.len())..])
        .unwrap();
    piece
        .extend_from_slice(&row.end().as_bytes()[count.saturating_sub(text.len())..])
        .unwrap();
}

/// Returns the edit of whole lines that makes an edit between two positions. Its bytes are the
/// front of the first line, the new bytes, and the rest of the second position's line, unless that
/// line is kept. Allocates at most once. The only error is out of memory.
pub fn line_edit<S: Lines, A: Allocator>(
    alloc: A,
    lines: &S,
    from: Pos,
    to: Pos,
    bytes: &[u8],
) -> Result<LineEdit<A>, AllocError>
    requires lines { AreLines (S.rows lines.now) }
    requires edit { CanEdit (S.rows lines.now) from to bytes.now }
    ensures { IfOk result (λ edit. IsLineEdit (S.rows lines.now) from to bytes.now edit.first edit.end edit.bytes.items) }
{
    let cut = front_cut(lines, from);
    let at = byte_place(lines, to).unwrap();
    let last = lines.row(at.line);
    let end = end_of(at, last.bytes(), is_kept(lines, cut, bytes, at));
    let size = cut.byte + bytes.len() + (last.bytes() - end.byte);
    let mut piece = Vec::with_capacity(alloc, size)?;
    put_front(lines.row(cut.line), cut.byte, &mut piece);
    piece.extend_from_slice(bytes).unwrap();
    put_rest(last, end.byte, &mut piece);
    Ok(LineEdit {
        first: cut.line,
        end: end.line,
        bytes: piece,
    })
}
