//! The rows with which sections of an edited text begin.
ghost use Rattle.std.specs.Prelude.{◌≡◌, ◌≤◌, length, take, None};
ghost use Rattle.yl_sections.specs.Local.{is_start_at, kind_after};

use crate::sections::{is_section_start, last_kind};
use std::alloc::Allocator;
use yl_chunks::Spliced;
use yl_lexeme::Kind;
use yl_record::Record;

/// Returns the kind of the last lexeme before row `i`, counted from 0, if there is one.
pub fn kind_before<A: Allocator + Copy>(
    records: &Spliced<'_, Record<A>, A>,
    i: usize,
) -> Option<Kind>
    requires { i ≤ length records.now }
    ensures { result ≡ kind_after None (take i records.now) }
{
    let mut row = i;
    while row > 0 {
        row -= 1;
        let lexemes = records.get(row).lexemes();
        if lexemes.len() > 0 {
            return last_kind(None, lexemes);
        }
    }
    None
}

/// Returns `true` if a section begins with row `i`, counted from 0.
pub fn is_start_at<A: Allocator + Copy>(records: &Spliced<'_, Record<A>, A>, i: usize) -> bool
    ensures { result ≡ is_start_at records.now i }
{
    if i >= records.len() {
        return false;
    }
    let last = kind_before(records, i);
    is_section_start(last, records.get(i).lexemes())
}
