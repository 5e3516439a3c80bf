//! Words in a row (names, tags, directives and markers), and what may follow them.

ghost use Rattle.std.specs.Prelude.{◌≡◌, ◌≤◌, ◌==◌, ◌&&◌, ◌+◌, ◌<◌, ◌^◌, IfSome, length, slice_index, false, drop, option_and_then, take, not};
ghost use Rattle.std.specs.Bool.{then_some};
ghost use Rattle.std.specs.List.{list_any, position};
ghost use Rattle.std.specs.Option.{ForSome};
ghost use Rattle.yl_row.specs.Step.{name_len, directive_len, tag_len, is_plain_start};
ghost use Rattle.yl_text.specs.Character.{is_flow_indicator, without_end, is_blank, is_non_space};

use yl_scalar::{is_flow_indicator, is_safe_next, is_white, without_end};

/// Returns whether the character may be in a name: whether it is neither white space nor a flow
/// indicator.
fn is_name_character(c: char) -> bool
    ensures { result ≡ (is_non_space c && not (is_flow_indicator c)) }
{
    !is_white(c) && !is_flow_indicator(c)
}

/// Returns the number of characters of the name at the start of the text.
pub fn name_len(text: &[char]) -> usize
    ensures count { result ≡ name_len text.now }
    ensures within { result ≤ length text.now }
{
    text.iter().take_while(|c| is_name_character(**c)).count()
}

/// Returns whether the text is empty or begins with white space.
pub fn is_space_next(text: &[char]) -> bool
    ensures { result ≡ is_blank (take 1 text.now) }
{
    match text {
        [] => true,
        [c, ..] => is_white(*c),
    }
}

/// Returns whether the text begins with a flow indicator.
pub fn is_flow_indicator_next(text: &[char]) -> bool
    ensures { result ≡ is_flow_indicator (slice_index text.now 0) }
{
    match text {
        [] => false,
        [c, ..] => is_flow_indicator(*c),
    }
}

/// Returns whether the text begins with `#`.
pub fn is_comment_next(text: &[char]) -> bool
    ensures { result ≡ (slice_index text.now 0 == 35) }
{
    match text {
        [] => false,
        [c, ..] => *c == '#',
    }
}

/// Returns whether a comment begins with this character: whether it is `#`, and `behind_space` is
/// set, which says that it is after white space or at the start of the row.
pub fn begins_comment(c: char, behind_space: bool) -> bool
    ensures { result ≡ (c == 35 && behind_space) }
{
    c == '#' && behind_space
}

/// Returns whether the text begins with `<`.
fn is_verbatim_next(text: &[char]) -> bool
    ensures { result ≡ (slice_index text.now 0 == 60) }
{
    match text {
        [] => false,
        [c, ..] => *c == '<',
    }
}

/// Returns the number of characters of the directive at the start of the text, including white
/// space at its end.
fn directive_len(text: &[char]) -> usize
    ensures count { result ≡ directive_len false text.now }
    ensures within { result ≤ length text.now }
{
    let mut behind_space = false;
    for (i, c) in text.iter().enumerate() {
        if begins_comment(*c, behind_space) {
            return i;
        }
        behind_space = is_white(*c);
    }
    text.len()
}

/// Returns the directive at the start of the text, without white space at its end.
pub fn directive(text: &[char]) -> &[char]
    ensures directive { result.now ≡ without_end (take (directive_len false text.now) text.now) }
    ensures within { length result.now ≤ length text.now }
{
    without_end(&text[..directive_len(text)])
}

/// Returns the index of the first `>`.
fn closing_of(text: &[char]) -> Option<usize>
    ensures place { result ≡ position (λ c. c == 62) text.now }
    ensures within { IfSome result (λ place. place < length text.now) }
{
    text.iter().position(|c| *c == '>')
}

/// Returns the number of characters of a verbatim tag after its `!`, or `None` if the tag is bad.
/// `close` is the index of the first `>` in the text after the `!`.
fn verbatim_len(text: &[char], close: Option<usize>) -> Option<usize>
    requires { ForSome close (λ place. place < length text.now) }
    ensures count { result ≡ option_and_then (λ end. then_some (name_len (drop (end + 1) text.now) == 0) (end + 1)) close }
    ensures within { IfSome result (λ len. len ≤ length text.now) }
{
    match close {
        None => None,
        Some(close) => {
            if name_len(&text[close + 1..]) == 0 {
                Some(close + 1)
            } else {
                None
            }
        }
    }
}

/// Returns the number of characters of a tag after its `!`, or `None` if the tag is bad. `text` is
/// the text after the `!`.
pub fn tag_len(text: &[char]) -> Option<usize>
    ensures count { result ≡ tag_len text.now }
    ensures within { IfSome result (λ len. len ≤ length text.now) }
{
    if is_verbatim_next(text) {
        return verbatim_len(text, closing_of(text));
    }
    Some(name_len(text))
}

/// Returns whether a plain scalar may begin with the character `c`, before `text`. `flow` says
/// whether a bracket is open.
#[inline(always)]
pub fn is_plain_start(flow: bool, c: char, text: &[char]) -> bool
    ensures { result ≡ is_plain_start flow c text.now }
{
    match c {
        '-' | '?' | ':' => is_safe_next(flow, text),
        ','
        | '['
        | ']'
        | '{'
        | '}'
        | '#'
        | '&'
        | '*'
        | '!'
        | '|'
        | '>'
        | '\''
        | '"'
        | '%'
        | '@'
        | '`'
        | '\u{feff}' => false,
        _ => true,
    }
}

/// Returns the column of the first tab, in characters from 0.
pub fn first_tab(row: &[char]) -> Option<usize>
    ensures { result ≡ position (λ c. c == 9) row.now }
{
    if has_tab(row) {
        return row.iter().position(|c| *c == '\t');
    }
    None
}

/// Returns whether the row has a tab. Looks at all characters, several at a time.
fn has_tab(row: &[char]) -> bool
    ensures { result ≡ list_any (λ c. c == 9) row.now }
{
    let mut found = false;
    for c in row {
        found |= *c == '\t';
    }
    found
}
