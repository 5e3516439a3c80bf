//! The end that two texts have in common.
ghost use Rattle.std.specs.Prelude.{◌≡◌, ◌≤◌, length};
ghost use Rattle.std.specs.Str.{IsUtf8, chars};
ghost use Rattle.yl_text.specs.declared.TheConstants.{MAX_BYTES};
ghost use Rattle.yl_difference.specs.Rest.{AreAlike, IsFrom};

use yl_text::{Break, Pos, cut_line};

/// A place of a text, and what stands from it on.
#[derive(Clone, Copy)]
pub(crate) struct Tail<'a> {
    pub place: Pos,
    pub rest: &'a str,
}

/// How many bytes both texts have in common at their end.
pub(crate) fn equal_at_end(xs: &[u8], ys: &[u8]) -> usize
    ensures { AreAlike xs.now ys.now result }
{
    let most = xs.len().min(ys.len());
    let mut same = 0;
    while same < most && xs[xs.len() - 1 - same] == ys[ys.len() - 1 - same] {
        same += 1;
    }
    same
}

/// How many characters a text has.
fn length_of(text: &str) -> usize
    ensures { result ≡ length (chars text.now) }
{
    text.chars().count()
}

/// The first line of a text that has at most so many bytes with those after it, or else the text's end.
pub(crate) fn tail_of(text: &str, bytes: usize) -> Tail<'_>
    requires { length text.now ≤ MAX_BYTES }
    ensures from { IsFrom text.now result.place result.rest.now }
    ensures utf8 { IsUtf8 result.rest.now }
    ensures few { length result.rest.now ≤ bytes }
{
    let mut line = 0;
    let mut rest = text;
    while rest.len() > bytes {
        let first = cut_line(rest);
        if first.end == Break::No {
            return Tail {
                place: Pos {
                    line,
                    col: length_of(rest) as u32,
                },
                rest: "",
            };
        }
        line += 1;
        rest = first.rest;
    }
    Tail {
        place: Pos { line, col: 0 },
        rest,
    }
}
