//! Decides whether the findings of the rules on lines stay the same after an edit.
ghost use Rattle.std.specs.Prelude.{◌≡◌, ◌==◌, ◌+◌, ◌≤◌, ◌<◌, ◌^◌, length, drop, true, IfOk};
ghost use Rattle.std.specs.List.{splice};
ghost use Rattle.yl_text.specs.Store.{IsRange};
ghost use Rattle.yl_config.specs.Config.{options_of};
ghost use Rattle.yl_edited_lines.specs.Alike.{AreAlike, AreReadAlike, IsAlike};
ghost use Rattle.yl_edited_lines.specs.Edit.{IsTextEdit};

use crate::edit::TextEdit;
use std::alloc::{AllocError, Allocator};
use yl_config::Config;
use yl_rules::row_problems;
use yl_sections::are_same_findings;
use yl_text::{LineStore, Lines, Row};

/// Returns `true` only if both rows have the same line break, and both are empty or neither is.
fn is_same_kind<A: Allocator>(old: &Row<A>, new: &Row<A>) -> bool
    ensures end { result ≡ true → old.now.end ≡ new.now.end }
    ensures empty { result ≡ true → (length old.now.text == 0) ≡ (length new.now.text == 0) }
{
    old.end() == new.end() && old.as_str().is_empty() == new.as_str().is_empty()
}

/// Returns `true` only if the rules on lines cannot tell the old row from the new one: both have
/// the same findings and the same line break, and both are empty or neither is. `line` is the
/// number of the line, counted from 1. The only error is out of memory.
fn is_alike<A: Allocator + Copy>(
    alloc: A,
    config: &Config,
    line: u64,
    old: &Row<A>,
    new: &Row<A>,
) -> Result<bool, AllocError>
    ensures { IfOk result (λ same. same ≡ true → IsAlike (options_of config.now).row line old.now new.now) }
{
    if !is_same_kind(old, new) {
        return Ok(false);
    }
    let before = row_problems(alloc, line, old, config.row_options())?;
    let after = row_problems(alloc, line, new, config.row_options())?;
    Ok(are_same_findings(&before, &after))
}

/// Returns `true` only if the rules on lines cannot tell `rows` from the rows of the text from `a`
/// on. The only error is out of memory.
fn are_alike<L: Lines>(
    alloc: L::Alloc,
    config: &Config,
    lines: &L,
    a: usize,
    rows: &[Row<L::Alloc>],
) -> Result<bool, AllocError>
    requires within { a + length rows.now ≤ length (L.rows lines.now) }
    requires few { a + length rows.now < 2 ^ 64 }
    ensures { IfOk result (λ same. same ≡ true → AreAlike (options_of config.now).row (a + 1) (drop a (L.rows lines.now)) rows.now) }
{
    for i in 0..rows.len() {
        let old = lines.row(a + i);
        if !is_alike(alloc, config, (a + i) as u64 + 1, old, &rows[i])? {
            return Ok(false);
        }
    }
    Ok(true)
}

/// Returns `true` only if the edit replaces `b - a` lines by as many, none of which is the first or
/// the last line of the text.
fn is_inner(a: usize, b: usize, count: usize, lines: usize) -> bool
    requires { IsRange a b lines }
    ensures place { result ≡ true → (0 < a) × (b < lines) }
    ensures count { result ≡ true → b ≡ a + count }
{
    b - a == count && 0 < a && b < lines
}

/// Returns `true` only if the edit leaves the findings of the rules on lines, the first line and
/// the end of the text as they are: it replaces lines by as many lines, each with the same findings
/// as the line it replaces, and not the first line or the last. `false` implies nothing. The only
/// error is out of memory.
pub fn reads_alike<S: LineStore>(
    alloc: S::Alloc,
    config: &Config,
    text: &TextEdit<'_, S>,
) -> Result<bool, AllocError>
    requires { IsTextEdit (S.rows text.now.store.now) text.now.a text.now.b text.now.rows.now }
    ensures { IfOk result (λ same. same ≡ true → AreReadAlike config.now (S.rows text.now.store.now) (splice (S.rows text.now.store.now) text.now.a text.now.b text.now.rows.now)) }
{
    if !is_inner(text.a, text.b, text.rows.len(), text.store.len()) {
        return Ok(false);
    }
    let same = are_alike(alloc, config, text.store, text.a, text.rows)?;
    Ok(same)
}
