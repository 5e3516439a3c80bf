//! Splits texts into lines.
ghost use Rattle.std.specs.Prelude.{◌≡◌, ◌≢◌, ◌≤◌, ◌<◌, ◌⊎◌, ◌∷◌, length, take, IfOk, IsUtf8, MatchResult, slice_index};
ghost use Rattle.yl_text.specs.Lines.{HasNoBreak, lines_of, IsLines};
ghost use Rattle.yl_text.specs.Split.{BreakAt, lines_behind};
ghost use Rattle.yl_text.specs.Fault.{IsText, IsFaultOf};
ghost use Rattle.yl_text.specs.declared.row.Break.TheVariants.{No};

use crate::MAX_BYTES;
use crate::fault::TextFault;
use crate::row::{Break, Row};
use crate::special::first_special;
use memchr::memchr2;
use std::alloc::{AllocError, Allocator};

/// The first line of a text, its break, and the rest of the text.
#[derive(Clone, Copy)]
pub struct FirstLine<'a> {
    /// The text of the line, without its break.
    pub line: &'a str,
    /// The break after the line.
    pub end: Break,
    /// The text after the break.
    pub rest: &'a str,
}

/// Returns the index of the first LF or CR, in bytes from 0, or the length if there is none.
fn first_break(bytes: &[u8]) -> usize
    ensures within { result ≤ length bytes.now }
    ensures before { HasNoBreak (take result bytes.now) }
    ensures at { result < length bytes.now → (slice_index bytes.now result ≡ 10) ⊎ (slice_index bytes.now result ≡ 13) }
{
    let special = first_special(bytes);
    special + found_break(&bytes[special..])
}

/// Returns the index of the first LF or CR, in bytes from 0, or the length if there is none. Looks
/// at the first byte before it searches, since that byte is most likely to be the break. The search
/// passes other bytes that are not printable ASCII.
fn found_break(bytes: &[u8]) -> usize
    ensures within { result ≤ length bytes.now }
    ensures before { HasNoBreak (take result bytes.now) }
    ensures at { result < length bytes.now → (slice_index bytes.now result ≡ 10) ⊎ (slice_index bytes.now result ≡ 13) }
{
    if matches!(bytes.first(), Some(b'\n' | b'\r')) {
        return 0;
    }
    memchr2(b'\n', b'\r', bytes).unwrap_or(bytes.len())
}

/// Returns the break that begins at the index `place`, in bytes from 0, or `Break::No` if none
/// does.
fn break_at(bytes: &[u8], place: usize) -> Break
    ensures { BreakAt bytes.now place result }
{
    match bytes.get(place) {
        Some(b'\n') => Break::Lf,
        Some(b'\r') => {
            if bytes.get(place + 1) == Some(&b'\n') {
                Break::CrLf
            } else {
                Break::Cr
            }
        }
        _ => Break::No,
    }
}

/// Splits off the first line of a text. Copies nothing.
pub fn cut_line(text: &str) -> FirstLine<'_>
    ensures first { lines_of text.now ≡ record { text = result.line.now; end = result.end } ∷ lines_behind result.end result.rest.now }
    ensures utf8 { IsUtf8 result.rest.now }
    ensures smaller { result.end ≢ No → length result.rest.now < length text.now }
{
    let bytes = text.as_bytes();
    let place = first_break(bytes);
    let end = break_at(bytes, place);
    FirstLine {
        line: &text[..place],
        end,
        rest: &text[place + end.len()..],
    }
}

/// Returns the lines of a text. The only error is out of memory.
fn rows_of<A: Allocator + Copy>(alloc: A, text: &str) -> Result<Vec<Row<A>, A>, AllocError>
    ensures { IfOk result (λ rows. rows.items ≡ lines_of text.now) }
{
    let mut rows = Vec::new(alloc);
    let mut rest = text;
    loop {
        let first = cut_line(rest);
        rows.push(Row::new(alloc, first.line, first.end)?)?;
        if first.end == Break::No {
            return Ok(rows);
        }
        rest = first.rest;
    }
}

/// Splits bytes into the lines of a text, after each break of YAML 1.2.2, section 5.4. Every line
/// but the last ends in one break, the last one in none, and CR LF is never split. So an empty text
/// has one line, and a text that ends in a break has an empty last line.
///
/// The errors, in the order in which they are looked for, are `NotUtf8`, `TooLarge` for more than
/// `MAX_BYTES` bytes, and `Memory`.
pub fn split<A: Allocator + Copy>(alloc: A, bytes: &[u8]) -> Result<Vec<Row<A>, A>, TextFault>
    ensures text { MatchResult result (λ rows. IsText bytes.now) (λ fault. IsFaultOf bytes.now fault) }
    ensures lines { IfOk result (λ rows. IsLines bytes.now rows.items) }
{
    let text = match simdutf8::compat::from_utf8(bytes) {
        Ok(text) => text,
        Err(error) => {
            return Err(TextFault::NotUtf8 {
                valid_up_to: error.valid_up_to(),
            });
        }
    };
    if text.len() > MAX_BYTES {
        return Err(TextFault::TooLarge);
    }
    rows_of(alloc, text).map_err(|_| TextFault::Memory)
}
