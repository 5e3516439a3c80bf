//! Escapes in double quotes: YAML 1.2.2, 5.7.
ghost use Rattle.std.specs.Prelude.{◌≡◌, ◌≤◌, IfSome, length};
ghost use Rattle.yl_scalar.specs.Escape.{escape, hex_value, hex_len, simple_escape};

/// Returns the character that a backslash followed by this one stands for, or `None` if they are no
/// escape by themselves.
fn simple_escape(c: char) -> Option<char>
    ensures { result ≡ simple_escape c }
{
    match c {
        '0' => Some('\0'),
        'a' => Some('\u{7}'),
        'b' => Some('\u{8}'),
        't' | '\t' => Some('\t'),
        'n' => Some('\n'),
        'v' => Some('\u{b}'),
        'f' => Some('\u{c}'),
        'r' => Some('\r'),
        'e' => Some('\u{1b}'),
        ' ' | '"' | '/' | '\\' => Some(c),
        'N' => Some('\u{85}'),
        '_' => Some('\u{a0}'),
        'L' => Some('\u{2028}'),
        'P' => Some('\u{2029}'),
        _ => None,
    }
}

/// Returns the number of hexadecimal digits that follow this character after a backslash, or 0 if
/// it takes none.
fn hex_len(c: char) -> usize
    ensures count { result ≡ hex_len c }
    ensures within { result ≤ 8 }
{
    match c {
        'x' => 2,
        'u' => 4,
        'U' => 8,
        _ => 0,
    }
}

/// Returns the character whose code point the hexadecimal digits give, or `None` if one is not a
/// digit or there is no such character.
fn hex_value(digits: &[char]) -> Option<char>
    requires { length digits.now ≤ 8 }
    ensures { result ≡ hex_value digits.now }
{
    let mut value: u32 = 0;
    for c in digits {
        let digit = c.to_digit(16)?;
        value = value * 16 + digit;
    }
    char::from_u32(value)
}

/// Returns the character that an escape stands for, and the number of characters of the escape
/// after its first one. `text` is what follows the backslash. Returns `None` if it begins with no
/// escape, or with one that stands for no character.
pub fn escape(text: &[char]) -> Option<(char, usize)>
    ensures value { result ≡ escape text.now }
    ensures within { IfSome result (λ e. e.1 ≤ 8) }
{
    let (c, more) = text.split_first()?;
    let len = hex_len(*c);
    if len == 0 {
        let x = simple_escape(*c)?;
        return Some((x, 0));
    }
    if more.len() < len {
        return None;
    }
    let x = hex_value(&more[..len])?;
    Some((x, len))
}
