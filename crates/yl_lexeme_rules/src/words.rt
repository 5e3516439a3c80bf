//! The truthy words, and the message that lists the allowed ones.
ghost use Rattle.std.specs.Prelude.{◌≡◌, ◌++◌, ◌<◌, ◌∷◌, ℕ, List, bytes_eq, codes, Some, IfOk, OnOk, string_bytes, if◌then◌else◌};
ghost use Rattle.std.specs.List.{slice_get};
ghost use Rattle.yl_lexeme_rules.specs.Truthy.{truthy_index, truthy_text, truthy_words};
ghost use Rattle.yl_lexeme_rules.specs.WordList.{word_list};
ghost use Rattle.yl_lexeme_rules.specs.TruthyLetters.{is_first_letter, may_be_truthy};

use crate::truthy::TruthyWords;
use std::alloc::{AllocError, Allocator};

/// The number of truthy words.
const WORDS: usize = 18;

/// Returns the truthy word of this index, in ASCII order.
fn word_at(index: usize) -> &'static str
    requires { index < 18 }
    ensures { slice_get truthy_words index ≡ Some result.now }
{
    match index {
        0 => "FALSE",
        1 => "False",
        2 => "NO",
        3 => "No",
        4 => "OFF",
        5 => "ON",
        6 => "Off",
        7 => "On",
        8 => "TRUE",
        9 => "True",
        10 => "YES",
        11 => "Yes",
        12 => "false",
        13 => "no",
        14 => "off",
        15 => "on",
        16 => "true",
        _ => "yes",
    }
}

/// Returns whether some truthy word begins with this letter and has `more` further letters.
fn is_first_letter(more: usize, letter: u8) -> bool
    ensures { result ≡ is_first_letter more letter }
{
    (more == 1 && matches!(letter, b'N' | b'O' | b'n' | b'o'))
        || (more == 2 && matches!(letter, b'O' | b'Y' | b'o' | b'y'))
        || (more == 3 && matches!(letter, b'T' | b't'))
        || (more == 4 && matches!(letter, b'F' | b'f'))
}

/// Returns whether some truthy word has the length and the first letter of this word. `false`
/// implies that the word is not truthy.
fn may_be_truthy(word: &[u8]) -> bool
    ensures { result ≡ may_be_truthy word.now }
{
    match word {
        [] => false,
        [first, rest @ ..] => is_first_letter(rest.len(), *first),
    }
}

/// Returns whether the text is this word.
pub(crate) fn is_word(word: &str, text: &[u8]) -> bool
    ensures { result ≡ bytes_eq word.now text.now }
{
    word.as_bytes() == text
}

/// Returns the index of a word, or `None` if it is not truthy.
pub(crate) fn word_index(word: &[u8]) -> Option<usize>
    ensures { result ≡ truthy_index word.now }
{
    if !may_be_truthy(word) {
        return None;
    }
    for i in 0..WORDS {
        if is_word(word_at(i), word) {
            return Some(i);
        }
    }
    None
}

/// Appends a word to a list of words. Appends a comma and a space before it, unless it is the
/// first. The only error is out of memory.
fn push_word<A: Allocator>(
    text: &mut String<A>,
    is_first: bool,
    word: &str,
) -> Result<(), AllocError>
    ensures { OnOk result (string_bytes text.new
        ≡ string_bytes text.old ++ (if is_first then word.now else codes ", " ++ word.now)) }
{
    if !is_first {
        text.push_str(", ")?;
    }
    text.push_str(word)?;
    Ok(())
}

/// Appends a word to a list of words, if it is allowed. Returns whether the next word is the first
/// of the list. The only error is out of memory.
fn push_if_allowed<A: Allocator>(
    text: &mut String<A>,
    is_first: bool,
    is_allowed: bool,
    word: &str,
) -> Result<bool, AllocError>
    ensures { IfOk result (λ next. (rest : List (List ℕ))
        → string_bytes text.new ++ word_list next rest
        ≡ string_bytes text.old ++ word_list is_first (if is_allowed then word.now ∷ rest
        else rest)) }
{
    if !is_allowed {
        return Ok(is_first);
    }
    push_word(text, is_first, word)?;
    Ok(false)
}

/// Returns the message about a truthy word that is not in this set. The only error is out of
/// memory.
pub(crate) fn truthy_text<A: Allocator>(
    alloc: A,
    words: &TruthyWords,
) -> Result<String<A>, AllocError>
    ensures { IfOk result (λ s. string_bytes s ≡ truthy_text words.now) }
{
    let mut text = String::from_str(alloc, "truthy value should be one of [")?;
    let mut is_first = true;
    for i in 0..WORDS {
        is_first = push_if_allowed(&mut text, is_first, words.allowed[i], word_at(i))?;
    }
    text.push_str("]")?;
    Ok(text)
}
