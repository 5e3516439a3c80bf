//! The rule trailing-spaces.
ghost use Rattle.std.specs.Prelude.{◌≡◌, ◌==◌, ◌||◌, ◌≤◌, ◌<◌, ◌^◌, length};
ghost use Rattle.std.specs.Option.{option_to_list};
ghost use Rattle.std.specs.Str.{chars};
ghost use Rattle.yl_text.specs.Character.{is_white};
ghost use Rattle.yl_rules.specs.TrailingSpaces.{end_white, trailing_spaces};

use crate::width::character_count;
use std::alloc::Allocator;
use yl_text::{Finding, RuleId};

/// Returns whether the byte is white space: a space or a tab.
pub fn is_white(byte: u8) -> bool
    ensures { result ≡ is_white byte }
{
    byte == b' ' || byte == b'\t'
}

/// Returns the number of bytes of white space at the end.
pub(crate) fn end_white(bytes: &[u8]) -> usize
    ensures { result ≡ end_white bytes.now }
{
    let mut kept = bytes.len();
    while kept > 0 && is_white(bytes[kept - 1]) {
        kept -= 1;
    }
    bytes.len() - kept
}

/// Returns the finding of a line, if it ends in white space. The number of the line counts from 1.
pub(crate) fn trailing_spaces_problem<A: Allocator>(line: u64, text: &str) -> Option<Finding<A>>
    ensures { option_to_list result ≡ trailing_spaces line (chars text.now) }
{
    let white = end_white(text.as_bytes());
    if white == 0 {
        return None;
    }
    let column = (character_count(text) - white) as u64 + 1;
    Some(Finding::fixed(line, column, RuleId::TrailingSpaces, "trailing spaces"))
}
