//! Texts as cases say them.

use std::alloc::{AllocError, Global};

// What a letter behind a backslash stands for.
const LETTERS: [(&str, char); 3] = [("n", '\n'), ("r", '\r'), ("t", '\t')];

// The number in hexadecimal, in braces behind a letter, and what is behind it.
fn in_braces<'a>(piece: &'a str, letter: &str) -> Option<(u32, &'a str)> {
    let (hex, rest) = piece
        .strip_prefix(letter)?
        .strip_prefix('{')?
        .split_once('}')?;
    Some((u32::from_str_radix(hex, 16).ok()?, rest))
}

// The character that stands first behind a backslash, and what is behind it.
fn escape(piece: &str) -> Option<(char, &str)> {
    for (letter, c) in LETTERS {
        if let Some(rest) = piece.strip_prefix(letter) {
            return Some((c, rest));
        }
    }
    let (number, rest) = in_braces(piece, "u")?;
    Some((char::from_u32(number)?, rest))
}

// The byte that stands first behind a backslash, and what is behind it.
fn byte(piece: &str) -> Option<(u8, &str)> {
    let (number, rest) = in_braces(piece, "x")?;
    Some((u8::try_from(number).ok()?, rest))
}

// Puts what a backslash and this piece behind it stand for behind a text, unless they are no escape. Whether they are one.
fn push_escape(out: &mut Vec<u8>, piece: &str) -> Result<bool, AllocError> {
    if let Some((c, rest)) = escape(piece) {
        out.extend_from_slice(c.encode_utf8(&mut [0; 4]).as_bytes())?;
        out.extend_from_slice(rest.as_bytes())?;
    } else if let Some((byte, rest)) = byte(piece) {
        out.push(byte)?;
        out.extend_from_slice(rest.as_bytes())?;
    } else {
        return Ok(false);
    }
    Ok(true)
}

/// Puts what a line says behind a text. The only error is out of memory.
pub fn push_unescaped(out: &mut Vec<u8>, text: &str) -> Result<(), AllocError> {
    let mut is_plain = true;
    for piece in text.split('\\') {
        if is_plain {
            out.extend_from_slice(piece.as_bytes())?;
            is_plain = false;
        } else if !push_escape(out, piece)? {
            out.push(b'\\')?;
            out.extend_from_slice(piece.as_bytes())?;
            is_plain = piece.is_empty();
        }
    }
    Ok(())
}

/// The first word of a line, and what is behind the space behind it.
pub fn first_word(line: &str) -> (&str, &str) {
    line.split_once(' ').unwrap_or((line, ""))
}
