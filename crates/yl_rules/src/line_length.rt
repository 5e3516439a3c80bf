//! The rule line-length.
ghost use Rattle.std.specs.Prelude.{◌≡◌, IfOk};
ghost use Rattle.std.specs.Option.{option_to_list};
ghost use Rattle.std.specs.Str.{chars};
ghost use Rattle.yl_rules.specs.LineLength.{is_non_breakable, is_one_word, line_length, past_mark};

use crate::bytes::{count_front, past};
use crate::options::RowOptions;
use crate::width::character_count;
use std::alloc::{AllocError, Allocator};
use yl_text::{Finding, RuleId};

/// Returns what follows the `#` characters of a comment, or the `-` of an entry, and one more byte.
fn past_mark(bytes: &[u8]) -> &[u8]
    ensures { result.now ≡ past_mark bytes.now }
{
    match bytes {
        [b'#', ..] => past(past(bytes, count_front(bytes, b'#')), 1),
        [b'-', ..] => past(bytes, 2),
        _ => bytes,
    }
}

/// Returns whether there are bytes, without a space after the mark.
fn is_one_word(bytes: &[u8]) -> bool
    ensures { result ≡ is_one_word bytes.now }
{
    !bytes.is_empty() && !past_mark(bytes).contains(&b' ')
}

/// Returns whether the line has no space at which it could be broken. Looks at bytes, since only
/// ASCII characters matter.
fn is_non_breakable(text: &str) -> bool
    ensures { result ≡ is_non_breakable (chars text.now) }
{
    let bytes = text.as_bytes();
    let inner = past(bytes, count_front(bytes, b' '));
    is_one_word(inner)
}

/// The capacity of a message, in bytes. It is enough for lines of fewer than a billion characters,
/// so that the message is allocated once.
const MESSAGE_BYTES: usize = 48;

/// Returns the finding of a line, if it is too long. The number of the line counts from 1. The only
/// error is out of memory.
pub(crate) fn line_length_problem<A: Allocator + Copy>(
    alloc: A,
    line: u64,
    text: &str,
    options: &RowOptions,
) -> Result<Option<Finding<A>>, AllocError>
    ensures { IfOk result (λ o. option_to_list o ≡ line_length options.now line (chars text.now)) }
{
    let width = character_count(text);
    let max = options.max;
    if width <= max as usize || options.allow_non_breakable_words && is_non_breakable(text) {
        return Ok(None);
    }
    let mut message = String::with_capacity(alloc, MESSAGE_BYTES)?;
    write!(message, "line too long ({width} > {max} characters)")?;
    Ok(Some(Finding::new(line, max as u64 + 1, RuleId::LineLength, message)))
}
