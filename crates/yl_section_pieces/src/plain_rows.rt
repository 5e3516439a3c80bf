//! Rows in whose place others may come without a change of other rows.
ghost use Rattle.std.specs.Prelude.{◌≡◌, map, true};
ghost use Rattle.std.specs.List.{AllByRecursion};
ghost use Rattle.yl_section_pieces.specs.Edit.{HasNoneOnEvents, is_on_events};
ghost use Rattle.yl_section_pieces.specs.Pieces.{BeginsWithLexeme};
ghost use Rattle.yl_section_pieces.specs.PlainRows.{ArePlain, IsPlainLexeme, IsPlainRow, is_reference_kind};

use std::alloc::Allocator;
use yl_lexeme::{Kind, Lexeme};
use yl_record::Record;
use yl_sections::Kept;
use yl_text::RuleId;

/// Returns whether a lexeme of this kind is an anchor or an alias.
fn is_reference_kind(kind: Kind) -> bool
    ensures { result ≡ is_reference_kind kind }
{
    matches!(kind, Kind::Anchor | Kind::Alias)
}

/// Returns whether each of these lexemes of a row ends in it or in one of the rows after it, of
/// which there are `rows` together, and none is an anchor or an alias.
fn are_plain_lexemes<A: Allocator>(rows: usize, lexemes: &[Lexeme<A>]) -> bool
    ensures { result ≡ true → AllByRecursion (IsPlainLexeme rows) lexemes.now }
{
    for lexeme in lexemes {
        if lexeme.end().line as usize >= rows || is_reference_kind(lexeme.kind()) {
            return false;
        }
    }
    true
}

/// Returns whether the lexemes of the row are plain, and no scan fault begins in it. `rows` is the
/// number of rows from this one on.
fn is_plain_row<A: Allocator>(rows: usize, row: &Record<A>) -> bool
    ensures { result ≡ true → IsPlainRow rows row.now }
{
    row.fault().is_none() && are_plain_lexemes(rows, row.lexemes())
}

/// Returns whether each lexeme of the rows ends in one of them, no scan fault begins in them, and
/// they have no anchor and no alias.
pub(crate) fn are_plain<A: Allocator>(rows: &[&Record<A>]) -> bool
    ensures { result ≡ true → ArePlain (map (λ r. r.now) rows.now) }
{
    for (i, row) in rows.iter().enumerate() {
        if !is_plain_row(rows.len() - i, row) {
            return false;
        }
    }
    true
}

/// Returns whether there is a first row, and it has a lexeme.
pub(crate) fn begins_with_lexeme<A: Allocator>(rows: &[&Record<A>]) -> bool
    ensures { result ≡ true → BeginsWithLexeme (map (λ r. r.now) rows.now) }
{
    match rows {
        [] => false,
        [row, ..] => !row.lexemes().is_empty(),
    }
}

/// Returns whether the rule is one on keys and anchors.
fn is_on_events(rule: RuleId) -> bool
    ensures { result ≡ is_on_events rule }
{
    matches!(
        rule,
        RuleId::KeyDuplicates | RuleId::KeyOrdering | RuleId::Anchors
    )
}

/// Returns whether nothing was found by the rules on keys and anchors.
pub(crate) fn has_none_on_events<A: Allocator>(kept: &Kept<A>) -> bool
    ensures { result ≡ true → HasNoneOnEvents kept.now }
{
    let found = kept.found();
    for finding in found {
        if is_on_events(finding.rule()) {
            return false;
        }
    }
    true
}
