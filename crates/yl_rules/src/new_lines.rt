//! The rule new-lines.
ghost use Rattle.std.specs.Prelude.{◌≡◌, ◌++◌, ◌∷◌, [], OnErr, OnOk};
ghost use Rattle.std.specs.Option.{option_to_list};
ghost use Rattle.yl_rules.specs.NewLines.{is_wrong_break, new_lines, wrong_break};
ghost use Rattle.yl_rules.specs.RunsLeft.{new_lines_left};

use crate::pushes::push_found;
use crate::width::character_count;
use std::alloc::{AllocError, Allocator};
use yl_text::{Break, Finding, RuleId};

/// The break in which the first line of a text has to end.
#[derive(Clone, Copy)]
pub enum NewLine {
    /// LF.
    Unix,
    /// CR LF.
    Dos,
}

impl NewLine {
    /// Returns the message about a line that ends in another break. The message has the expected
    /// break as an escape.
    fn message(self) -> &'static str
        ensures { result.now ≡ wrong_break self }
    {
        match self {
            NewLine::Unix => "wrong new line character: expected \\n",
            NewLine::Dos => "wrong new line character: expected \\r\\n",
        }
    }

    /// Returns whether the line ends in a break other than this one.
    fn is_wrong(self, end: Break) -> bool
        ensures { result ≡ is_wrong_break self end }
    {
        match (self, end) {
            (_, Break::No) | (NewLine::Unix, Break::Lf) | (NewLine::Dos, Break::CrLf) => false,
            _ => true,
        }
    }
}

/// Returns the finding in a text with this first line, if the line ends in a break other than
/// `wanted`.
fn new_lines_problem<A: Allocator>(wanted: NewLine, text: &str, end: Break) -> Option<Finding<A>>
    ensures { option_to_list result ≡ new_lines wanted (record { text = text.now; end = end } ∷ []) }
{
    if !wanted.is_wrong(end) {
        return None;
    }
    let column = character_count(text) as u64 + 1;
    Some(Finding::fixed(1, column, RuleId::NewLines, wanted.message()))
}

/// Appends the finding of the line after the first `count` lines, if it is the first line and ends
/// in a break other than `wanted`. The only error is out of memory: then nothing is appended.
pub(crate) fn push_new_lines<A: Allocator>(
    wanted: NewLine,
    count: usize,
    text: &str,
    end: Break,
    found: &mut Vec<Finding<A>, A>,
) -> Result<(), AllocError>
    ensures ok { OnOk result (found.new.items ≡ found.old.items ++ new_lines_left wanted count (record { text = text.now; end = end } ∷ [])) }
    ensures err { OnErr result (found.new.items ≡ found.old.items) }
{
    if count > 0 {
        return Ok(());
    }
    push_found(found, new_lines_problem(wanted, text, end))
}
