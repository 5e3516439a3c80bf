//! Decides which plain scalars are strings.
ghost use Rattle.std.specs.Prelude.{◌≡◌, ◌≤◌, [], ◌∷◌, length, codes, bytes_eq};
ghost use Rattle.std.specs.List.{list_all, prefix_len};
ghost use Rattle.std.specs.Char.{is_digit};
ghost use Rattle.yl_text.specs.Character.{starts_by};
ghost use Rattle.yl_lexeme_rules.specs.FirstBytes.{begins_no_string, may_be_no_string};
ghost use Rattle.yl_lexeme_rules.specs.Strings.{all_and_some, is_based, is_decimal, is_exponent, is_number, is_reserved_word, is_signed, is_string, is_word_of, past_digits, past_fraction, unsigned_text};

fn is_digit(byte: u8) -> bool
    ensures { result ≡ is_decimal byte }
{
    char::from(byte).is_digit(10)
}

fn is_octal(byte: u8) -> bool
    ensures { result ≡ is_digit byte 8 }
{
    char::from(byte).is_digit(8)
}

fn is_hexadecimal(byte: u8) -> bool
    ensures { result ≡ is_digit byte 16 }
{
    char::from(byte).is_digit(16)
}

fn is_word(text: &[u8], word: &str) -> bool
    ensures { result ≡ bytes_eq word.now text.now }
{
    word.as_bytes() == text
}

fn is_one_of(text: &[u8], first: &str, second: &str, third: &str) -> bool
    ensures { result ≡ is_word_of (first.now ∷ second.now ∷ third.now ∷ []) text.now }
{
    is_word(text, first) || is_word(text, second) || is_word(text, third)
}

/// Returns whether the text is one of the words for null, true, false and not-a-number.
fn is_reserved_word(text: &[u8]) -> bool
    ensures { result ≡ is_reserved_word text.now }
{
    is_word(text, "~")
        || is_word(text, "null")
        || is_word(text, "Null")
        || is_word(text, "NULL")
        || is_word(text, "true")
        || is_word(text, "True")
        || is_word(text, "TRUE")
        || is_word(text, "false")
        || is_word(text, "False")
        || is_word(text, "FALSE")
        || is_word(text, ".nan")
        || is_word(text, ".NaN")
        || is_word(text, ".NAN")
}

fn is_infinity(text: &[u8]) -> bool
    ensures { result ≡ is_word_of (codes ".inf" ∷ codes ".Inf" ∷ codes ".INF" ∷ []) text.now }
{
    is_one_of(text, ".inf", ".Inf", ".INF")
}

fn all_digits(text: &[u8]) -> bool
    ensures { result ≡ list_all is_decimal text.now }
{
    text.iter().all(|byte| is_digit(*byte))
}

fn are_digits(text: &[u8]) -> bool
    ensures { result ≡ all_and_some is_decimal text.now }
{
    !text.is_empty() && all_digits(text)
}

fn all_octal(text: &[u8]) -> bool
    ensures { result ≡ list_all (λ c. is_digit c 8) text.now }
{
    text.iter().all(|byte| is_octal(*byte))
}

fn are_octal(text: &[u8]) -> bool
    ensures { result ≡ all_and_some (λ c. is_digit c 8) text.now }
{
    !text.is_empty() && all_octal(text)
}

fn all_hexadecimal(text: &[u8]) -> bool
    ensures { result ≡ list_all (λ c. is_digit c 16) text.now }
{
    text.iter().all(|byte| is_hexadecimal(*byte))
}

fn are_hexadecimal(text: &[u8]) -> bool
    ensures { result ≡ all_and_some (λ c. is_digit c 16) text.now }
{
    !text.is_empty() && all_hexadecimal(text)
}

/// Returns the text after its sign, or the whole text if it has no sign.
fn unsigned(text: &[u8]) -> &[u8]
    ensures { result.now ≡ unsigned_text text.now }
{
    match text {
        [b'+' | b'-', rest @ ..] => rest,
        _ => text,
    }
}

/// Returns the number of decimal digits at the beginning of the text.
fn count_digits(text: &[u8]) -> usize
    ensures count { result ≡ prefix_len is_decimal text.now }
    ensures most { result ≤ length text.now }
{
    for (i, byte) in text.iter().enumerate() {
        if !is_digit(*byte) {
            return i;
        }
    }
    text.len()
}

/// Returns the text after the decimal digits at its beginning.
fn past_digits(text: &[u8]) -> &[u8]
    ensures { result.now ≡ past_digits text.now }
{
    let (_, rest) = text.split_at(count_digits(text));
    rest
}

fn begins_with_digit(text: &[u8]) -> bool
    ensures { result ≡ starts_by is_decimal text.now }
{
    match text {
        [] => false,
        [first, ..] => is_digit(*first),
    }
}

/// Returns the text after a point at its beginning and the digits that follow the point. Returns
/// the whole text if it does not begin with a point.
fn past_fraction(text: &[u8]) -> &[u8]
    ensures { result.now ≡ past_fraction text.now }
{
    match text {
        [b'.', rest @ ..] => past_digits(rest),
        _ => text,
    }
}

/// Returns whether the text is empty or an exponent.
fn is_exponent(text: &[u8]) -> bool
    ensures { result ≡ is_exponent text.now }
{
    match text {
        [] => true,
        [b'e' | b'E', rest @ ..] => are_digits(unsigned(rest)),
        _ => false,
    }
}

/// Returns whether the text is a decimal number without a sign: digits with at most one point, and
/// perhaps an exponent. A point at its beginning must be followed by a digit.
fn is_number(text: &[u8]) -> bool
    ensures { result ≡ is_number text.now }
{
    match text {
        [] => false,
        [b'.', rest @ ..] => begins_with_digit(rest) && is_exponent(past_digits(rest)),
        [first, rest @ ..] => is_digit(*first) && is_exponent(past_fraction(past_digits(rest))),
    }
}

/// Returns whether the text is a number in base 8 or 16.
fn is_based(text: &[u8]) -> bool
    ensures { result ≡ is_based text.now }
{
    match text {
        [b'0', b'o', rest @ ..] => are_octal(rest),
        [b'0', b'x', rest @ ..] => are_hexadecimal(rest),
        _ => false,
    }
}

/// Returns whether the text is a decimal number or an infinity, without a sign.
fn is_signed(text: &[u8]) -> bool
    ensures { result ≡ is_signed text.now }
{
    is_number(text) || is_infinity(text)
}

/// Returns whether a plain scalar that begins with this byte can be something other than a string.
fn begins_no_string(first: u8) -> bool
    ensures { result ≡ begins_no_string first }
{
    match first {
        b'~' | b'.' | b'+' | b'-' | b'n' | b'N' | b't' | b'T' | b'f' | b'F' => true,
        _ => is_digit(first),
    }
}

/// Returns whether a plain scalar with the first byte of this value can be something other than a
/// string. `false` implies that the value is a string.
fn may_be_no_string(value: &[u8]) -> bool
    ensures { result ≡ may_be_no_string value.now }
{
    match value {
        [] => false,
        [first, ..] => begins_no_string(*first),
    }
}

/// Returns whether a plain scalar with this value, as UTF-8 bytes, is a string. Returns `true` for
/// an empty value, which no plain scalar has.
pub fn is_string(value: &[u8]) -> bool
    ensures { result ≡ is_string value.now }
{
    if !may_be_no_string(value) {
        return true;
    }
    !(is_reserved_word(value) || is_based(value) || is_signed(unsigned(value)))
}
