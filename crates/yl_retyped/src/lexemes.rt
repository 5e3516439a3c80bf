//! Compares lexemes, and decides whether only the text of a value differs.
ghost use Rattle.std.specs.Prelude.{◌≡◌, true, length, take, IfOk};
ghost use Rattle.yl_marks.specs.Keys.{lexeme_at_line};
ghost use Rattle.yl_retyped.specs.Retyped.{IsQuiet, asks_for_value, is_scalar};
ghost use Rattle.yl_retyped.specs.Rows.{IsLastRetyped, IsValueRetyped};

use std::alloc::{AllocError, Allocator};
use yl_lexeme::{Kind, Lexeme, LexemeAtLine};
use yl_lexeme_rules::{LexemeOptions, lexeme_problems};
use yl_marks::KeyFacts;

/// Returns `true` only if the two lexemes are equal.
fn is_same<A: Allocator>(one: &Lexeme<A>, other: &Lexeme<A>) -> bool
    ensures { result ≡ true → one.now ≡ other.now }
{
    one.kind() == other.kind()
        && one.start() == other.start()
        && one.end() == other.end()
        && one.value() == other.value()
}

/// Returns `true` only if the two lists of lexemes are equal.
pub fn are_same<A: Allocator>(one: &[Lexeme<A>], other: &[Lexeme<A>]) -> bool
    ensures { result ≡ true → one.now ≡ other.now }
{
    if one.len() != other.len() {
        return false;
    }
    for i in 0..one.len() {
        if !is_same(&one[i], &other[i]) {
            return false;
        }
    }
    true
}

/// Returns `true` for the indicators that ask for a value. A node that follows one in its line is a
/// key only if a mapping begins with it.
fn asks_for_value(kind: Kind) -> bool
    ensures { result ≡ asks_for_value kind }
{
    matches!(kind, Kind::Entry | Kind::Value)
}

fn is_scalar(kind: Kind) -> bool
    ensures { result ≡ is_scalar kind }
{
    matches!(kind, Kind::Scalar(_))
}

/// Returns `true` only if `old` and `new` are scalars of one kind after a lexeme that asks for a
/// value, which begin at one position and end in their row.
fn is_value_retyped<A: Allocator>(before: &Lexeme<A>, old: &Lexeme<A>, new: &Lexeme<A>) -> bool
    ensures { result ≡ true → IsValueRetyped before.now old.now new.now }
{
    asks_for_value(before.kind())
        && before.end().line == 0
        && is_scalar(old.kind())
        && new.kind() == old.kind()
        && new.start() == old.start()
        && old.end().line == 0
        && new.end().line == 0
}

/// Returns `true` only if the rules on values find nothing at this scalar, which must be no key.
/// The only error is out of memory.
fn is_quiet<A: Allocator + Copy>(
    alloc: A,
    options: &LexemeOptions,
    lexeme: &Lexeme<A>,
) -> Result<bool, AllocError>
    requires { is_scalar lexeme.now.kind ≡ true }
    ensures { IfOk result (λ b. b ≡ true → IsQuiet options.now (lexeme_at_line 0 lexeme.now)) }
{
    let keys = [KeyFacts {
        is_key: false,
        has_tag: false,
    }];
    let lexemes = [LexemeAtLine { line: 0, lexeme }];
    let found = lexeme_problems(alloc, &lexemes, &keys, 1, options)?;
    Ok(found.is_empty())
}

/// Returns `true` only if the lexemes of two rows differ in the last one alone, if only the text of
/// this value differs, and if the rules on values find nothing at the old text and at the new one.
/// The only error is out of memory.
pub fn is_last_retyped<A: Allocator + Copy>(
    alloc: A,
    options: &LexemeOptions,
    old: &[Lexeme<A>],
    new: &[Lexeme<A>],
) -> Result<bool, AllocError>
    ensures { IfOk result (λ b. b ≡ true → IsLastRetyped options.now old.now new.now) }
{
    let (Some((x, old_front)), Some((y, new_front))) = (old.split_last(), new.split_last()) else {
        return Ok(false);
    };
    let Some((before, _)) = old_front.split_last() else {
        return Ok(false);
    };
    if !is_value_retyped(before, x, y) || !are_same(old_front, new_front) {
        return Ok(false);
    }
    Ok(is_quiet(alloc, options, x)? && is_quiet(alloc, options, y)?)
}
