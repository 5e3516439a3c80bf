//! Prints text in double quotes.
ghost use Rattle.std.specs.Prelude.{◌≡◌, ◌≤◌, ◌<◌, ◌++◌, drop, length, true, OnOk};
ghost use Rattle.std.specs.List.{list_all};
ghost use Rattle.std.specs.Fmt.{digits, digit_glyph};
ghost use Rattle.yl_dump.specs.Quoting.{stands_for_itself, escaped_character, escaped_text, text_in_quotes};

use crate::page::Page;
use std::alloc::{AllocError, Allocator};

// Returns `true` if a byte stands for itself between quotes.
fn is_plain(byte: u8) -> bool
    ensures { result ≡ stands_for_itself byte }
{
    byte >= b' ' && byte <= b'~' && byte != b'"' && byte != b'\\'
}

// Returns a hexadecimal digit in upper case.
fn digit(n: u32) -> u8
    requires { n < 16 }
    ensures { result ≡ digit_glyph true n }
{
    if n < 10 { 48 + n as u8 } else { 55 + n as u8 }
}

// Writes a number in upper-case hexadecimal digits, without leading zeros, at the end of `room`.
// Returns the index of the first digit.
fn write_hex(n: u32, room: &mut [u8; 64]) -> usize
    ensures within { result ≤ 64 }
    ensures written { drop result room.new ≡ digits 16 true n }
{
    let mut at = 64;
    let mut rest = n;
    while at > 0 {
        at -= 1;
        room[at] = digit(rest % 16);
        if rest < 16 {
            return at;
        }
        rest /= 16;
    }
    0
}

// Prints a number in upper-case hexadecimal digits, without leading zeros.
fn print_hex<A: Allocator>(page: &mut Page<A>, n: u32) -> Result<(), AllocError>
    ensures { OnOk result (page.new ≡ page.old ++ digits 16 true n) }
{
    let mut room = [0; 64];
    let start = write_hex(n, &mut room);
    page.bytes(&room[start..])
}

// Prints a character as it is printed between quotes.
fn print_character<A: Allocator>(page: &mut Page<A>, c: char) -> Result<(), AllocError>
    ensures { OnOk result (page.new ≡ page.old ++ escaped_character c) }
{
    match c {
        '"' => page.text("\\\"")?,
        '\\' => page.text("\\\\")?,
        ' '..='~' => page.bytes(&[c as u8])?,
        _ => {
            page.text("\\u{")?;
            print_hex(page, c as u32)?;
            page.text("}")?;
        }
    }
    Ok(())
}

// Returns `true` if each byte stands for itself between quotes. Checks all bytes, several at once.
fn is_plain_text(text: &[u8]) -> bool
    ensures { result ≡ list_all stands_for_itself text.now }
{
    let mut plain = true;
    for byte in text {
        plain &= is_plain(*byte);
    }
    plain
}

/// Prints a text as it is printed between double quotes: `\\` for a backslash, `\"` for a quote,
/// and `\u{HEX}` for a character that is not printable ASCII. The only error is out of memory.
pub fn print_escaped<A: Allocator>(page: &mut Page<A>, text: &str) -> Result<(), AllocError>
    ensures { OnOk result (page.new ≡ page.old ++ escaped_text text.now) }
{
    if is_plain_text(text.as_bytes()) {
        return page.text(text);
    }
    for c in text.chars() {
        print_character(page, c)?;
    }
    Ok(())
}

/// Prints a text in double quotes. The only error is out of memory.
pub fn print_quoted<A: Allocator>(page: &mut Page<A>, text: &str) -> Result<(), AllocError>
    ensures { OnOk result (page.new ≡ page.old ++ text_in_quotes text.now) }
{
    page.byte(b'"')?;
    print_escaped(page, text)?;
    page.byte(b'"')
}
