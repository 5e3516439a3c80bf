//! Findings whose messages name a key or an anchor.
ghost use Rattle.std.specs.Prelude.{◌≡◌, ◌<◌, ◌++◌, ◌/◌, ◌%◌, ◌||◌, ◌==◌, nat_lt, false, ◌∷◌, [], codes, string_bytes, IfOk, OnOk};
ghost use Rattle.std.specs.Fmt.{digit_glyph};
ghost use Rattle.std.specs.List.{flat_map};
ghost use Rattle.std.specs.Str.{chars};
ghost use Rattle.std.specs.Option.{option_to_list};
ghost use Rattle.yl_tree.specs.Messages.{printed_character, name_finding};

use std::alloc::{AllocError, Allocator};
use yl_text::{Finding, Pos, RuleId};

/// Returns whether the character is a control character of ASCII.
fn is_control(c: char) -> bool
    ensures { result ≡ nat_lt c 0x20 || c == 0x7F }
{
    c < ' ' || c == '\x7f'
}

/// Returns the digit of `n` to base 16, in lower case.
fn digit(n: u32) -> char
    requires { n < 16 }
    ensures value { result ≡ digit_glyph false n }
    ensures ascii { result < 128 }
{
    if n < 10 {
        (b'0' + n as u8) as char
    } else {
        (b'a' - 10 + n as u8) as char
    }
}

/// Appends `\x` and the two digits of `n` to base 16. The only error is out of memory.
fn push_number<A: Allocator>(text: &mut String<A>, n: u32) -> Result<(), AllocError>
    requires { n < 128 }
    ensures { OnOk result (string_bytes text.new
        ≡ string_bytes text.old ++ (codes "\\x" ++ digit_glyph false (n / 16)
        ∷ digit_glyph false (n % 16) ∷ [])) }
{
    text.push_str("\\x")?;
    text.push(digit(n / 16))?;
    text.push(digit(n % 16))?;
    Ok(())
}

/// Appends a character, or `\x` and two digits for a control character. The only error is out of
/// memory.
fn push_character<A: Allocator>(text: &mut String<A>, c: char) -> Result<(), AllocError>
    ensures { OnOk result (string_bytes text.new ≡ string_bytes text.old ++ printed_character c) }
{
    if is_control(c) {
        push_number(text, c as u32)?;
    } else {
        text.push(c)?;
    }
    Ok(())
}

/// Appends a name, with `\x` and two digits for each control character. The only error is out of
/// memory.
fn push_name<A: Allocator>(text: &mut String<A>, name: &str) -> Result<(), AllocError>
    ensures { OnOk result (string_bytes text.new ≡ string_bytes text.old
        ++ flat_map printed_character (chars name.now)) }
{
    for c in name.chars() {
        push_character(text, c)?;
    }
    Ok(())
}

/// Returns the message that consists of `front`, the name and `back`. The only error is out of
/// memory.
fn message_of<A: Allocator>(
    alloc: A,
    front: &str,
    name: &str,
    back: &str,
) -> Result<String<A>, AllocError>
    ensures { IfOk result (λ text. string_bytes text
        ≡ front.now ++ (flat_map printed_character (chars name.now) ++ back.now)) }
{
    let mut text = String::from_str(alloc, front)?;
    push_name(&mut text, name)?;
    text.push_str(back)?;
    Ok(text)
}

/// Returns the finding of a rule at a place, whose message names a key or an anchor between the
/// words `front` and `back`. `place` counts from 0. Returns `None` if there is no place. The only
/// error is out of memory.
pub(crate) fn name_problem<A: Allocator>(
    alloc: A,
    rule: RuleId,
    place: Option<Pos>,
    front: &str,
    name: &str,
    back: &str,
) -> Result<Option<Finding<A>>, AllocError>
    ensures { IfOk result (λ o. option_to_list o
        ≡ name_finding rule place front.now name.now back.now) }
{
    let Some(place) = place else {
        return Ok(None);
    };
    let message = message_of(alloc, front, name, back)?;
    let line = place.line as u64 + 1;
    let column = place.col as u64 + 1;
    Ok(Some(Finding::new(line, column, rule, message)))
}

/// Appends the finding, if there is one. The only error is out of memory.
pub(crate) fn push_found<A: Allocator>(
    found: &mut Vec<Finding<A>, A>,
    more: Option<Finding<A>>,
) -> Result<(), AllocError>
    ensures { OnOk result (found.new.items ≡ found.old.items ++ option_to_list more) }
{
    if let Some(one) = more {
        found.push(one)?;
    }
    Ok(())
}
