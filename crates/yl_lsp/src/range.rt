//! The ranges of diagnostics.
ghost use Rattle.std.specs.Prelude.{◌≡◌, ◌≤◌, min, length, take};
ghost use Rattle.std.specs.Str.{chars, encode_utf8_all};
ghost use Rattle.yl_text.specs.Store.{AreLines};
ghost use Rattle.yl_units.specs.Places.{IsReached, row_chars};
ghost use Rattle.yl_lsp.specs.Words.{ends_word, is_to_line_end, range_of};
ghost use Rattle.yl_lsp.specs.Words as spec;

use yl_text::{Lines, RuleId};
use yl_units::{EditorPlace, Encoding, Reached, text_from};

/// A range of a text between two positions of an editor.
#[derive(Clone, Copy, Debug, PartialEq, Eq)]
pub struct Range {
    /// The start of the range.
    pub start: EditorPlace,
    /// The end of the range.
    pub end: EditorPlace,
}

/// Returns `true` if a word ends before the character.
fn ends_word(c: char) -> bool
    ensures { result ≡ ends_word c }
{
    matches!(c, ' ' | '\t' | ',' | '[' | ']' | '{' | '}')
}

/// Returns the number of characters in the word at the start of a text. Its end is looked for in
/// the first 256 characters, and one colon at its end does not count.
fn word_len(text: &str) -> u64
    ensures { result ≡ spec.word_len (chars text.now) }
{
    let mut len = 0;
    let mut kept = 0;
    for c in text.chars().take(256) {
        if ends_word(c) {
            return kept;
        }
        let next = len + 1;
        kept = if c == ':' { len } else { next };
        len = next;
    }
    kept
}

/// Returns `true` if the problems of the rule extend to the end of the line.
fn is_to_line_end(rule: RuleId) -> bool
    ensures { result ≡ is_to_line_end rule }
{
    matches!(rule, RuleId::LineLength | RuleId::TrailingSpaces)
}

/// Returns the column after the range of a rule's problem that starts at a position. It may be
/// after the end of the line.
fn end_column<S: Lines>(lines: &S, rule: RuleId, start: Reached) -> u64
    requires lines { AreLines (S.rows lines.now) }
    requires col { start.col ≤ length (row_chars (S.rows lines.now) start.line) }
    requires byte { start.byte ≡ length (encode_utf8_all (take start.col (row_chars (S.rows lines.now) start.line))) }
    ensures { let row = row_chars (S.rows lines.now) start.line in
        min result (length row) ≡ min (spec.end_column rule row start.col) (length row) }
{
    if start.line >= lines.len() as u64 {
        return 0;
    }
    if is_to_line_end(rule) {
        return u64::MAX;
    }
    start.col + word_len(text_from(lines, start)).max(1)
}

/// Returns the range of a rule's problem at a position of a text. `line` and `col` count from 0,
/// and `col` counts characters. Moves the walk to the position, so that the ranges of a line, in
/// order, take one walk over it. Does not allocate.
pub fn next_range<S: Lines>(
    encoding: Encoding,
    lines: &S,
    walk: &mut Reached,
    rule: RuleId,
    line: u64,
    col: u64,
) -> Range
    requires lines { AreLines (S.rows lines.now) }
    requires reached { IsReached encoding (S.rows lines.now) walk.old }
    ensures range { result ≡ range_of encoding (S.rows lines.now) rule (record { line = line; col = col }) }
    ensures reached { IsReached encoding (S.rows lines.now) walk.new }
{
    let start = walk.go_to(encoding, lines, line, col);
    *walk = start;
    let end = start.go_to(encoding, lines, line, end_column(lines, rule, start));
    let from = start.told();
    let to = end.told();
    Range {
        start: from,
        end: to,
    }
}
