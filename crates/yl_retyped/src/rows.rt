//! Compares rows as far as the rules see them, apart from the text of a value.
ghost use Rattle.std.specs.Prelude.{◌≡◌, true, option_map, IfOk};
ghost use Rattle.yl_retyped.specs.Rows.{IsRowAlike};

use crate::lexemes::{are_same, is_last_retyped};
use std::alloc::{AllocError, Allocator};
use yl_lexeme::Comment;
use yl_lexeme_rules::LexemeOptions;
use yl_record::Record;

/// Returns `true` only if the two comments are equal, or both are missing.
fn is_same_comment<A: Allocator>(one: Option<&Comment<A>>, other: Option<&Comment<A>>) -> bool
    ensures { result ≡ true → option_map (λ c. c.now) one.entry ≡ option_map (λ c. c.now) other.entry }
{
    match (one, other) {
        (None, None) => true,
        (Some(c), Some(d)) => c.col() == d.col() && c.text() == d.text(),
        _ => false,
    }
}

/// Returns `true` only if two rows are the same for the rules, apart from the text of a value at
/// which the rules on values find nothing. The only error is out of memory.
pub fn is_row_alike<A: Allocator + Copy>(
    alloc: A,
    options: &LexemeOptions,
    old: &Record<A>,
    new: &Record<A>,
) -> Result<bool, AllocError>
    ensures { IfOk result (λ b. b ≡ true → IsRowAlike options.now old.now new.now) }
{
    if old.indentation() != new.indentation() || old.fault() != new.fault() {
        return Ok(false);
    }
    if are_same(old.lexemes(), new.lexemes()) {
        return Ok(is_same_comment(old.comment(), new.comment()));
    }
    if old.comment().is_some() || new.comment().is_some() {
        return Ok(false);
    }
    is_last_retyped(alloc, options, old.lexemes(), new.lexemes())
}
