//! Headers of block scalars: YAML 1.2.2, 8.1.1.
ghost use Rattle.std.specs.Prelude.{◌≡◌, ◌≤◌, ◌<◌, ◌-◌, IfSome, length, slice_index};
ghost use Rattle.yl_scalar.specs.Header.{is_indicator_digit, is_chomping, indicators, misfit, misfit_behind};

use crate::character::{is_blank, leading_white};

/// Returns whether the character is an indentation indicator: a digit from 1 to 9.
fn is_indicator_digit(c: char) -> bool
    ensures { result ≡ is_indicator_digit c }
{
    '1' <= c && c <= '9'
}

/// Returns whether the character is a chomping indicator: `+` or `-`.
fn is_chomping(c: char) -> bool
    ensures { result ≡ is_chomping c }
{
    c == '+' || c == '-'
}

/// Returns the first character, or NUL if there is none.
fn next(text: &[char]) -> char
    ensures { result ≡ slice_index text.now 0 }
{
    match text {
        [] => '\0',
        [c, ..] => *c,
    }
}

/// Returns the value of a digit from 1 to 9.
fn digit(c: char) -> usize
    requires { (48 < c) × (c < 58) }
    ensures value { result ≡ c - 48 }
    ensures small { result < 10 }
{
    (c as u32 - '0' as u32) as usize
}

/// Returns the indentation indicator, or 0 if there is none, and the number of characters of the
/// indicators.
pub fn indicators(header: &[char]) -> (usize, usize)
    ensures value { result ≡ indicators header.now }
    ensures small { result.0 < 10 }
    ensures within { result.1 ≤ length header.now }
{
    match header {
        [] => (0, 0),
        [c, rest @ ..] => {
            let d = next(rest);
            if is_indicator_digit(*c) {
                (digit(*c), if is_chomping(d) { 2 } else { 1 })
            } else if is_chomping(*c) {
                if is_indicator_digit(d) {
                    (digit(d), 2)
                } else {
                    (0, 1)
                }
            } else {
                (0, 0)
            }
        }
    }
}

/// Returns the index of the first character after the indicators that does not fit in a header, or
/// `None` if all fit. White space fits, and a comment after white space.
#[tactic(auto, using(crate::proofs::Front::white_within))]
fn misfit_behind(text: &[char]) -> Option<usize>
    ensures place { result ≡ misfit_behind text.now }
    ensures within { IfSome result (λ at. at < length text.now) }
{
    if is_blank(text) {
        return None;
    }
    let white = leading_white(text);
    if white > 0 && next(&text[white..]) == '#' {
        return None;
    }
    Some(white)
}

/// Returns the index of the first character that does not fit in a header, or `None` if all fit.
/// The header is what follows `|` or `>` in its row.
pub fn misfit(header: &[char]) -> Option<usize>
    ensures place { result ≡ misfit header.now }
    ensures within { IfSome result (λ at. at < length header.now) }
{
    let (_, taken) = indicators(header);
    let place = misfit_behind(&header[taken..])?;
    Some(taken + place)
}
