//! The rule new-line-at-end-of-file.
ghost use Rattle.std.specs.Prelude.{◌≡◌, Some};
ghost use Rattle.std.specs.Option.{option_to_list};
ghost use Rattle.yl_rules.specs.EndOfFile.{end_of_file_at};
ghost use Rattle.yl_text.specs.declared.row.Break.TheVariants.{No};

use crate::width::character_count;
use std::alloc::Allocator;
use yl_text::{Finding, RuleId};

/// Returns the finding in a text of `count` lines whose last line is `last`, if that line is not
/// empty.
pub(crate) fn end_of_file_problem<A: Allocator>(count: usize, last: &str) -> Option<Finding<A>>
    ensures { option_to_list result ≡ end_of_file_at count (Some (record { text = last.now; end = No })) }
{
    if last.is_empty() {
        return None;
    }
    let column = character_count(last) as u64 + 1;
    Some(Finding::fixed(
        count as u64,
        column,
        RuleId::NewLineAtEndOfFile,
        "no new line character at the end of file",
    ))
}
