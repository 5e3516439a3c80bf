//! Line folding (YAML 1.2.2, 6.5), and values as text in UTF-8.
ghost use Rattle.std.specs.Prelude.{◌≡◌, ◌++◌, ◌↔◌, ◌∷◌, [], None, IfOk, IsTrue, length, string_bytes};
ghost use Rattle.std.specs.Char.{len_utf8};
ghost use Rattle.std.specs.Str.{chars, encode_utf8_all, IsAscii, IsUtf8};
ghost use Rattle.yl_scalar.specs.Folding.{joint};

use std::alloc::{AllocError, Allocator};
use yl_text::InlineString;

/// Appends what a break with `blanks` blank rows after it stands for: a line feed for each blank
/// row, or a space if there is none. The only error is out of memory.
pub fn push_break<A: Allocator>(value: &mut Vec<char, A>, blanks: usize) -> Result<(), AllocError>
    ensures { IfOk result (λ _. value.new.items ≡ value.old.items ++ joint None blanks) }
{
    if blanks == 0 {
        value.push(' ')?;
        return Ok(());
    }
    for _i in 0..blanks {
        value.push('\n')?;
    }
    Ok(())
}

/// Appends what a break with `blanks` blank rows after it stands for: a line feed for each blank
/// row. If there is none, it is a space, or nothing if a backslash is before the break. The only
/// error is out of memory.
pub fn push_joint<A: Allocator>(
    value: &mut Vec<char, A>,
    backslash: Option<usize>,
    blanks: usize,
) -> Result<(), AllocError>
    ensures { IfOk result (λ _. value.new.items ≡ value.old.items ++ joint backslash blanks) }
{
    match backslash {
        None => push_break(value, blanks),
        Some(_) => {
            for _i in 0..blanks {
                value.push('\n')?;
            }
            Ok(())
        }
    }
}

/// Appends to a text what a break with `blanks` blank rows after it stands for: a line feed for
/// each blank row, or a space if there is none. The only error is out of memory.
pub fn add_break<A: Allocator>(value: &mut String<A>, blanks: usize) -> Result<(), AllocError>
    ensures { IfOk result (λ _. chars (string_bytes value.new) ≡ chars (string_bytes value.old) ++ joint None blanks) }
{
    if blanks == 0 {
        add(value, ' ')?;
        return Ok(());
    }
    for _i in 0..blanks {
        add(value, '\n')?;
    }
    Ok(())
}

/// Appends a character to a text. The only error is out of memory.
fn add<A: Allocator>(value: &mut String<A>, c: char) -> Result<(), AllocError>
    ensures { IfOk result (λ _. chars (string_bytes value.new) ≡ chars (string_bytes value.old) ++ c ∷ []) }
{
    value.push(c)?;
    Ok(())
}

/// Returns the number of bytes of the character in UTF-8. Computes it as a sum, so that several
/// characters are counted at once.
fn char_len(c: char) -> usize
    ensures { result ≡ len_utf8 c }
{
    1 + (c >= '\u{80}') as usize + (c >= '\u{800}') as usize + (c >= '\u{10000}') as usize
}

/// Returns the number of bytes of the characters in UTF-8.
fn utf8_len(characters: &[char]) -> usize
    ensures { result ≡ length (encode_utf8_all characters.now) }
{
    let mut len = 0;
    for c in characters {
        len += char_len(*c);
    }
    len
}

/// Appends characters to a text. Allocates at most once. The only error is out of memory.
fn add_characters<A: Allocator>(
    value: &mut String<A>,
    characters: &[char],
) -> Result<(), AllocError>
    ensures { IfOk result (λ _. chars (string_bytes value.new) ≡ chars (string_bytes value.old) ++ characters.now) }
{
    value.try_reserve(utf8_len(characters))?;
    for c in characters {
        add(value, *c)?;
    }
    Ok(())
}

/// Returns a text with the characters after it. Allocates at most once. The only error is out of
/// memory.
pub fn with_characters<A: Allocator>(
    text: String<A>,
    characters: &[char],
) -> Result<String<A>, AllocError>
    ensures { IfOk result (λ r. chars (string_bytes r) ≡ chars (string_bytes text) ++ characters.now) }
{
    if is_ascii(characters) {
        let text = with_ascii(text, characters)?;
        return Ok(text);
    }
    let mut text = text;
    add_characters(&mut text, characters)?;
    Ok(text)
}

/// Returns a text with ASCII characters after it. Allocates at most once. The only error is out of
/// memory.
fn with_ascii<A: Allocator>(text: String<A>, characters: &[char]) -> Result<String<A>, AllocError>
    requires { IsAscii characters.now }
    ensures { IfOk result (λ r. string_bytes r ≡ string_bytes text ++ characters.now) }
{
    let mut bytes = text.into_bytes();
    bytes.try_reserve(characters.len())?;
    for c in characters {
        bytes.push_reserved(*c as u8);
    }
    Ok(text_of_utf8(bytes))
}

/// Returns the text of bytes that are UTF-8.
fn text_of_utf8<A: Allocator>(bytes: Vec<u8, A>) -> String<A>
    requires { IsUtf8 bytes.items }
    ensures { string_bytes result ≡ bytes.items }
{
    unsafe { String::from_utf8_unchecked(bytes) }
}

/// Returns the characters as text in UTF-8. Allocates at most once. The only error is out of
/// memory.
pub fn text_of<A: Allocator>(alloc: A, characters: &[char]) -> Result<String<A>, AllocError>
    ensures bytes { IfOk result (λ text. string_bytes text ≡ encode_utf8_all characters.now) }
    ensures characters { IfOk result (λ text. chars (string_bytes text) ≡ characters.now) }
{
    if is_ascii(characters) {
        let text = ascii_text(alloc, characters)?;
        return Ok(text);
    }
    let mut text = String::new(alloc);
    add_characters(&mut text, characters)?;
    Ok(text)
}

/// Returns the characters as a string. Allocates only if there are more than 16 characters or one
/// is not ASCII. The only error is out of memory.
pub fn inline_text_of<A: Allocator>(
    alloc: A,
    characters: &[char],
) -> Result<InlineString<A>, AllocError>
    ensures { IfOk result (λ text. text ≡ characters.now) }
{
    if is_ascii(characters)
        && let Some(text) = InlineString::of_ascii(characters)
    {
        return Ok(text);
    }
    Ok(InlineString::of_string(text_of(alloc, characters)?))
}

/// Returns whether all characters are ASCII.
fn is_ascii(characters: &[char]) -> bool
    ensures { IsTrue result ↔ IsAscii characters.now }
{
    let mut greatest = 0;
    for c in characters {
        greatest = greatest.max(u32::from(*c));
    }
    greatest < 128
}

/// Returns the text of ASCII characters. The only error is out of memory.
fn ascii_text<A: Allocator>(alloc: A, characters: &[char]) -> Result<String<A>, AllocError>
    requires { IsAscii characters.now }
    ensures { IfOk result (λ text. string_bytes text ≡ characters.now) }
{
    let mut bytes = Vec::with_capacity(alloc, characters.len())?;
    for c in characters {
        bytes.push_reserved(*c as u8);
    }
    Ok(text_of_ascii(bytes))
}

/// Returns the text of ASCII bytes, which are always UTF-8.
fn text_of_ascii<A: Allocator>(bytes: Vec<u8, A>) -> String<A>
    requires { IsAscii bytes.items }
    ensures { string_bytes result ≡ bytes.items }
{
    unsafe { String::from_utf8_unchecked(bytes) }
}
