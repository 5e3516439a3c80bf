//! Texts as JSON writes them.
ghost use Rattle.std.specs.Prelude.{◌≡◌, ◌<◌, true, OnOk, OnErr, MatchOption};
ghost use Rattle.std.specs.Char.{digit_char};
ghost use Rattle.json.specs.Print.{escape_byte, escape_letter, quoted};
ghost use Rattle.yl_frames.specs.Escapes.{is_special};

use crate::pieces::Pieces;
use yl_devices::WriteFault;

// The letter of a byte's short escape.
fn short_escape(byte: u8) -> Option<u8>
    ensures { MatchOption result (escape_letter byte ≡ 0) (λ letter. (escape_letter byte ≡ letter) × (0 < letter)) }
{
    match byte {
        b'"' | b'\\' => Some(byte),
        8 => Some(b'b'),
        9 => Some(b't'),
        10 => Some(b'n'),
        12 => Some(b'f'),
        13 => Some(b'r'),
        _ => None,
    }
}

fn hex_digit(digit: u8) -> u8
    requires { digit < 16 }
    ensures { result ≡ digit_char digit }
{
    if digit < 10 {
        b'0' + digit
    } else {
        b'a' + (digit - 10)
    }
}

fn is_special(byte: u8) -> bool
    ensures { result ≡ is_special byte }
{
    byte < 32 || byte == b'"' || byte == b'\\'
}

// Puts the escape of a byte that needs one.
fn put_escape<P: Pieces>(to: &mut P, byte: u8) -> Result<(), WriteFault>
    requires can { P.can_put to.old }
    requires special { is_special byte ≡ true }
    ensures ok { OnOk result (P.puts to.old (escape_byte byte) to.new) }
    ensures err { OnErr result (P.breaks to.old (escape_byte byte) to.new) }
{
    match short_escape(byte) {
        Some(letter) => to.put(&[b'\\', letter]),
        None => {
            let high = hex_digit(byte / 16);
            let low = hex_digit(byte % 16);
            to.put(&[b'\\', b'u', b'0', b'0', high, low])
        }
    }
}

/// Puts a text in quotes, with JSON's shortest escapes.
pub fn put_text<P: Pieces>(to: &mut P, text: &str) -> Result<(), WriteFault>
    requires { P.can_put to.old }
    ensures ok { OnOk result (P.puts to.old (quoted text.now) to.new) }
    ensures err { OnErr result (P.breaks to.old (quoted text.now) to.new) }
{
    to.put(b"\"")?;
    let bytes = text.as_bytes();
    let mut from = 0;
    for (i, byte) in bytes.iter().enumerate() {
        if !is_special(*byte) {
            continue;
        }
        to.put(&bytes[from..i])?;
        put_escape(to, *byte)?;
        from = i + 1;
    }
    to.put(&bytes[from..])?;
    to.put(b"\"")
}
