//! Where the sections of a text begin.
ghost use Rattle.std.specs.Prelude.{◌≡◌, ◌≤◌, map, length, None};
ghost use Rattle.yl_sections.specs.Sections.{is_section_start, last_kind_from, parts, row_count};

use std::alloc::Allocator;
use yl_events::begins_document;
use yl_lexeme::{Kind, Lexeme};
use yl_record::Record;

/// Returns the kind of the last lexeme after these lexemes. `last` is that before them.
pub fn last_kind<A: Allocator>(last: Option<Kind>, lexemes: &[Lexeme<A>]) -> Option<Kind>
    ensures { result ≡ last_kind_from last lexemes.now }
{
    let mut last = last;
    for lexeme in lexemes {
        last = Some(lexeme.kind());
    }
    last
}

/// Returns whether a section begins with the row that has these lexemes. `last` is the kind of the
/// last lexeme before them.
pub fn is_section_start<A: Allocator>(last: Option<Kind>, lexemes: &[Lexeme<A>]) -> bool
    ensures { result ≡ is_section_start last lexemes.now }
{
    match (last, lexemes) {
        (Some(last), [first, ..]) => begins_document(last, first.kind()),
        _ => false,
    }
}

/// Returns the number of rows of the first section of these rows. The other rows begin with the
/// first row of the next section.
pub fn section_len<A: Allocator>(records: &[&Record<A>]) -> usize
    ensures count { result ≡ row_count None (map (λ r. r.now) records.now) }
    ensures within { result ≤ length records.now }
{
    let mut last = None;
    for (i, record) in records.iter().enumerate() {
        let lexemes = record.lexemes();
        if is_section_start(last, lexemes) {
            return i;
        }
        last = last_kind(last, lexemes);
    }
    records.len()
}
