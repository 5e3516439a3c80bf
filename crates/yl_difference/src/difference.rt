//! An edit that makes one text of another.
ghost use Rattle.std.specs.Prelude.{MatchOption};
ghost use Rattle.yl_text.specs.Fault.{IsText};

use crate::front::without_front;
use crate::tail::{equal_at_end, tail_of};
use yl_text::{MAX_BYTES, Pos};

/// An edit of a text: this text in place of what stands between two places.
#[derive(Clone, Copy)]
pub struct Difference<'a> {
    pub from: Pos,
    pub to: Pos,
    pub text: &'a str,
}

impl<'a> Difference<'a> {
    ghost use Rattle.yl_difference.specs.Difference.{IsDifference};

    /// The edit that makes the new text of the old one. It is one of the lines that differ: those that both texts have at their front, and
    /// at their end, are left out. There is none where the old bytes are no text. It takes no memory.
    pub fn between(old: &[u8], new: &'a str) -> Option<Difference<'a>>
        ensures { MatchOption result (¬ (IsText old.now)) (λ d. IsDifference old.now new.now d.from d.to d.text.now) }
    {
        if old.len() > MAX_BYTES {
            return None;
        }
        let Ok(text) = simdutf8::compat::from_utf8(old) else {
            return None;
        };
        let rests = without_front(text, new);
        let same = equal_at_end(rests.old.as_bytes(), rests.new.as_bytes());
        let tail = tail_of(rests.old, same);
        let kept = rests.new.len() - tail.rest.len();
        Some(Difference {
            from: Pos {
                line: rests.lines,
                col: 0,
            },
            to: Pos {
                line: rests.lines + tail.place.line,
                col: tail.place.col,
            },
            text: &rests.new[..kept],
        })
    }
}
