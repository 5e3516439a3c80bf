//! The white space of a row.

ghost use Rattle.std.specs.Prelude.{◌≡◌, ◌<◌, ◌^◌, length};
ghost use Rattle.std.specs.Str.{chars};
ghost use Rattle.yl_text.specs.Character.{indentation, is_blank};

use yl_scalar::is_white;

/// Returns whether the row has only white space.
pub fn is_blank(text: &str) -> bool
    ensures { result ≡ is_blank (chars text.now) }
{
    text.chars().all(|c| is_white(c))
}

/// Returns the number of spaces at the front.
fn leading_spaces_in(bytes: &[u8]) -> usize
    ensures { result ≡ indentation bytes.now }
{
    bytes.iter().take_while(|byte| **byte == b' ').count()
}

/// Returns the number of spaces at the start of a row. Counts bytes: a space is one byte, and no
/// byte of another character is equal to it.
fn leading_spaces(text: &str) -> usize
    ensures { result ≡ indentation (chars text.now) }
{
    leading_spaces_in(text.as_bytes())
}

/// Returns the number of spaces at the start of a row of fewer than 2^31 characters.
pub fn spaces_before(text: &str) -> u32
    requires { length (chars text.now) < 2 ^ 31 }
    ensures { result ≡ indentation (chars text.now) }
{
    leading_spaces(text) as u32
}
