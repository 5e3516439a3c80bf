//! Decodes lines into characters.
ghost use Rattle.std.specs.Prelude.{◌≡◌, [], IfOk, OnOk, OnErr, length, IsTrue};
ghost use Rattle.std.specs.Str.{IsAscii, chars};

use crate::Row;
use std::alloc::{AllocError, Allocator};

/// Decodes a line, without its break, into characters (code points). They replace the items of the
/// buffer, so an index of the buffer is a column, counted from 0. The only error is out of memory:
/// then the buffer is empty.
pub fn characters<A: Allocator, B: Allocator>(
    row: &Row<A>,
    buffer: &mut Vec<char, B>,
) -> Result<(), AllocError>
    ensures ok { OnOk result (buffer.new.items ≡ chars row.now.text) }
    ensures err { OnErr result (buffer.new.items ≡ []) }
{
    characters_of(row.as_str(), buffer)
}

/// Decodes a text into characters (code points), which replace the items of the buffer. The only
/// error is out of memory: then the buffer is empty.
pub fn characters_of<B: Allocator>(text: &str, buffer: &mut Vec<char, B>) -> Result<(), AllocError>
    ensures ok { OnOk result (buffer.new.items ≡ chars text.now) }
    ensures err { OnErr result (buffer.new.items ≡ []) }
{
    let bytes = text.as_bytes();
    if are_ascii(bytes) {
        return widened(bytes, buffer);
    }
    buffer.clear();
    buffer.try_reserve(text.len())?;
    for c in text.chars() {
        buffer.push_reserved(c);
    }
    Ok(())
}

/// Returns whether all bytes are ASCII. Looks at all of them, without an early return, so that
/// several are compared at once.
pub(crate) fn are_ascii(bytes: &[u8]) -> bool
    ensures { IsTrue result → IsAscii bytes.now }
{
    let mut all = true;
    for byte in bytes {
        all &= *byte < 0x80;
    }
    all
}

/// Converts each byte into the character with this code point. The characters replace the items of
/// the buffer. The only error is out of memory: then the buffer is empty.
fn widened<B: Allocator>(bytes: &[u8], buffer: &mut Vec<char, B>) -> Result<(), AllocError>
    ensures ok { OnOk result (buffer.new.items ≡ bytes.now) }
    ensures err { OnErr result (buffer.new.items ≡ []) }
{
    if buffer.resize(bytes.len(), '\0').is_err() {
        buffer.clear();
        return Err(AllocError);
    }
    widen(bytes, buffer);
    Ok(())
}

/// Replaces each character by the one whose code point is the byte at the same index. Both slices
/// have the same length.
fn widen(bytes: &[u8], characters: &mut [char])
    requires { length characters.old ≡ length bytes.now }
    ensures { characters.new ≡ bytes.now }
{
    for (i, byte) in bytes.iter().enumerate() {
        characters[i] = char::from(*byte);
    }
}
