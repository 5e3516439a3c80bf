//! The lines that two texts have at their front.
ghost use Rattle.std.specs.Prelude.{◌≡◌, ◌≤◌, ◌++◌, length};
ghost use Rattle.yl_text.specs.Lines.{lines_of};
ghost use Rattle.yl_text.specs.PutLines.{front_of};
ghost use Rattle.yl_text.specs.declared.TheConstants.{MAX_BYTES};
ghost use Rattle.yl_difference.specs.Rest.{IsRest};

use yl_text::{Break, cut_line};

/// What two texts have after so many lines that both have.
#[derive(Clone, Copy)]
pub(crate) struct Rests<'o, 'n> {
    pub lines: u32,
    pub old: &'o str,
    pub new: &'n str,
}

/// Leaves out the lines that both texts have at their front. The last line of either stays.
pub(crate) fn without_front<'o, 'n>(old: &'o str, new: &'n str) -> Rests<'o, 'n>
    requires { length old.now ≤ MAX_BYTES }
    ensures old { IsRest old.now result.lines result.old.now }
    ensures new { front_of (lines_of old.now) result.lines ++ result.new.now ≡ new.now }
{
    let mut lines = 0;
    let mut left = old;
    let mut right = new;
    loop {
        let first = cut_line(left);
        let second = cut_line(right);
        if first.end == Break::No || first.end != second.end || first.line != second.line {
            return Rests {
                lines,
                old: left,
                new: right,
            };
        }
        lines += 1;
        left = first.rest;
        right = second.rest;
    }
}
