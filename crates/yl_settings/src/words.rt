//! Reads words and numbers in the values of a configuration.
ghost use Rattle.std.specs.Prelude.{◌≡◌, ◌&&◌, ◌==◌, ◌≤◌, nat_le, if◌then◌else◌, Some, None};
ghost use Rattle.std.specs.Char.{is_ascii_digit};
ghost use Rattle.std.specs.List.{list_all};
ghost use Rattle.yl_events.specs.Event.{kind_value};
ghost use Rattle.yl_settings.specs.Words.{are_digits, digits_behind, flag, from_least, is_minus, is_one_of, false_words, limit, limit_by, number, plain_word, small_number, true_words, unsigned, word};

use yl_events::EventKind;
use yl_lexeme::Style;

/// The largest number that an option takes.
const LARGEST: u32 = 1_000_000;

/// Returns the text of a plain scalar, or an empty string for anything else.
pub fn plain_word(kind: EventKind<'_>) -> &str
    ensures { result.now ≡ plain_word (kind_value kind.entry) }
{
    match kind {
        EventKind::Scalar(Style::Plain, text) => text,
        _ => "",
    }
}

/// Returns the text of a plain or a quoted scalar, or an empty string for anything else.
pub fn word(kind: EventKind<'_>) -> &str
    ensures { result.now ≡ word (kind_value kind.entry) }
{
    match kind {
        EventKind::Scalar(Style::Plain | Style::Single | Style::Double, text) => text,
        _ => "",
    }
}

/// Returns whether the word denotes true.
pub fn is_true_word(word: &str) -> bool
    ensures { result ≡ is_one_of true_words word.now }
{
    matches!(
        word,
        "true" | "True" | "TRUE" | "yes" | "Yes" | "YES" | "on" | "On" | "ON"
    )
}

/// Returns whether the word denotes false.
pub fn is_false_word(word: &str) -> bool
    ensures { result ≡ is_one_of false_words word.now }
{
    matches!(
        word,
        "false" | "False" | "FALSE" | "no" | "No" | "NO" | "off" | "Off" | "OFF"
    )
}

/// Returns the truth value that a word denotes, or `None` if it denotes none.
pub fn flag(word: &str) -> Option<bool>
    ensures { result ≡ flag word.now }
{
    if is_true_word(word) {
        Some(true)
    } else if is_false_word(word) {
        Some(false)
    } else {
        None
    }
}

/// Returns the word after its sign, or the whole word if it has no sign.
fn unsigned(word: &[u8]) -> &[u8]
    ensures { result.now ≡ unsigned word.now }
{
    match word {
        [b'+' | b'-', digits @ ..] => digits,
        _ => word,
    }
}

fn is_minus(word: &[u8]) -> bool
    ensures { result ≡ is_minus word.now }
{
    matches!(word, [b'-', ..])
}

fn all_digits(bytes: &[u8]) -> bool
    ensures { result ≡ list_all is_ascii_digit bytes.now }
{
    bytes.iter().all(|byte| byte.is_ascii_digit())
}

fn are_digits(bytes: &[u8]) -> bool
    ensures { result ≡ are_digits bytes.now }
{
    !bytes.is_empty() && all_digits(bytes)
}

/// Returns the number that these decimal digits denote, unless it is greater than `LARGEST`.
fn digits_value(digits: &[u8]) -> Option<u32>
    ensures { result ≡ (if nat_le (digits_behind 0 digits.now) 1000000 then Some (digits_behind 0 digits.now) else None) }
{
    let mut value: u32 = 0;
    for digit in digits {
        value = 10 * value + u32::from(*digit).saturating_sub(u32::from(b'0'));
        if value > LARGEST {
            return None;
        }
    }
    Some(value)
}

/// Returns the number that these bytes denote. Returns `None` if they are not all decimal digits,
/// there are none, or the number is greater than `LARGEST`.
fn small_number(bytes: &[u8]) -> Option<u32>
    ensures { result ≡ small_number bytes.now }
{
    if are_digits(bytes) {
        digits_value(bytes)
    } else {
        None
    }
}

/// Returns the number that a word denotes, if it is at least `least` and at most `LARGEST`. The
/// word may have a sign.
pub fn number(least: u32, word: &str) -> Option<u32>
    ensures { result ≡ number least word.now }
{
    let minus = is_minus(word.as_bytes());
    match small_number(unsigned(word.as_bytes())) {
        Some(value) if least <= value && (!minus || value == 0) => Some(value),
        _ => None,
    }
}

/// Returns the bound that a word denotes: `Some(Some(n))` for a number `n` of at most `LARGEST`,
/// `Some(None)` for -1, which is no bound, and else `None`. The word may have a sign.
pub fn limit(word: &str) -> Option<Option<u32>>
    ensures { result ≡ limit word.now }
{
    let minus = is_minus(word.as_bytes());
    let value = small_number(unsigned(word.as_bytes()))?;
    if !minus || value == 0 {
        Some(Some(value))
    } else if value == 1 {
        Some(None)
    } else {
        None
    }
}
