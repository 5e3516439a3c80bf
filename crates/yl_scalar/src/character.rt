//! Classes of characters, and tests of the start and the end of a row: YAML 1.2.2, chapters 5 to 9.
ghost use Rattle.std.specs.Prelude.{◌≡◌, ◌≤◌, ◌<◌, ◌+◌, IfSome, length, drop};
ghost use Rattle.std.specs.List.{list_all, prefix_len};
ghost use Rattle.yl_text.specs.Character.{is_white, is_flow_indicator, is_plain_safe, is_blank, is_marker, is_marker_of, indentation, without_end, without_front};
ghost use Rattle.yl_text.specs.Special.{is_printable_ascii};
ghost use Rattle.yl_scalar.specs.Allowed.{is_allowed, is_common, is_quoted_character, first_bad};

/// Returns whether the character is white space: a space or a tab.
pub fn is_white(c: char) -> bool
    ensures { result ≡ is_white c }
{
    c == ' ' || c == '\t'
}

/// Returns whether the character is one of `,[]{}`.
pub fn is_flow_indicator(c: char) -> bool
    ensures { result ≡ is_flow_indicator c }
{
    matches!(c, ',' | '[' | ']' | '{' | '}')
}

/// Returns whether the character is not white space, and, if `flow` is set, not a flow indicator.
pub fn is_plain_safe(flow: bool, c: char) -> bool
    ensures { result ≡ is_plain_safe flow c }
{
    !is_white(c) && !(flow && is_flow_indicator(c))
}

/// Returns whether a text may have the character outside quoted scalars.
pub fn is_allowed(c: char) -> bool
    ensures { result ≡ is_allowed c }
{
    c == '\t'
        || (' ' <= c && c <= '~')
        || c == '\u{85}'
        || ('\u{a0}' <= c && c <= '\u{d7ff}')
        || ('\u{e000}' <= c && c <= '\u{fffd}')
        || ('\u{10000}' <= c && c <= '\u{10ffff}')
}

/// Returns whether a text may have the character inside quotes.
pub fn is_quoted_character(c: char) -> bool
    ensures { result ≡ is_quoted_character c }
{
    c == '\t' || c >= ' '
}

/// Returns the index of the first character that is not allowed outside quoted scalars, or `None`
/// if all are allowed.
pub fn first_bad(text: &[char]) -> Option<usize>
    ensures place { result ≡ first_bad text.now }
    ensures within { IfSome result (λ at. at < length text.now) }
{
    if is_printable_ascii(text) {
        return None;
    }
    if are_common(text) {
        return None;
    }
    text.iter().position(|c| !is_allowed(*c))
}

/// Returns whether all characters are printable ASCII without the tab. Each of these is allowed.
fn is_printable_ascii(text: &[char]) -> bool
    ensures { result ≡ list_all is_printable_ascii text.now }
{
    let mut special = false;
    for c in text {
        special |= *c < ' ' || *c > '~';
    }
    !special
}

/// Returns whether all characters are printable ASCII without the tab, or U+00A0 to U+D7FF, as in
/// most texts. Each of these is allowed.
fn are_common(text: &[char]) -> bool
    ensures { result ≡ list_all is_common text.now }
{
    let mut special = false;
    for c in text {
        special |= *c < ' ' || ('~' < *c && *c < '\u{a0}') || *c > '\u{d7ff}';
    }
    !special
}

/// Returns whether the row consists of white space only.
pub fn is_blank(row: &[char]) -> bool
    ensures { result ≡ is_blank row.now }
{
    row.iter().all(|c| is_white(*c))
}

/// Returns the number of spaces at the start of the row.
pub fn indentation(row: &[char]) -> usize
    ensures { result ≡ indentation row.now }
{
    row.iter().take_while(|c| **c == ' ').count()
}

/// Returns the number of characters of white space at the start of the row.
pub fn leading_white(row: &[char]) -> usize
    ensures count { result ≡ prefix_len is_white row.now }
    ensures within { result ≤ length row.now }
    ensures rest { drop result row.now ≡ without_front row.now }
{
    for (i, c) in row.iter().enumerate() {
        if !is_white(*c) {
            return i;
        }
    }
    row.len()
}

/// Returns the row without the white space at its end.
pub fn without_end(row: &[char]) -> &[char]
    ensures trimmed { result.now ≡ without_end row.now }
    ensures within { length result.now ≤ length row.now }
{
    let mut len = row.len();
    while len > 0 && is_white(row[len - 1]) {
        len -= 1;
    }
    &row[..len]
}

/// Returns whether the row begins with three times this character, followed by white space or
/// nothing.
#[inline(always)]
pub fn is_marker_of(c: char, row: &[char]) -> bool
    ensures { result ≡ is_marker_of c row.now }
{
    match row {
        [x, y, z, rest @ ..] => {
            *x == c
                && *y == c
                && *z == c
                && match rest {
                    [] => true,
                    [next, ..] => is_white(*next),
                }
        }
        _ => false,
    }
}

/// Returns whether the row begins with a document marker, `---` or `...`, followed by white space
/// or nothing.
pub fn is_marker(row: &[char]) -> bool
    ensures { result ≡ is_marker row.now }
{
    is_marker_of('-', row) || is_marker_of('.', row)
}
