//! Parts of what is kept of a section: the items that stand in some rows.
ghost use Rattle.std.specs.Prelude.{◌≡◌, ◌+◌, drop, length, map, IfOk, IsPermutation};
ghost use Rattle.std.specs.List.Sorted.{IsNonDecreasingBy};
ghost use Rattle.yl_pieces.specs.Patched.{row_of};
ghost use Rattle.yl_piece_reports.specs.Told.{comment_above, fact_above, finding_above};
ghost use Rattle.yl_section_pieces.specs.Cut.{above_row};

use std::alloc::{AllocError, Allocator};
use yl_indentation::Fact;
use yl_lexeme::PlacedComment;
use yl_sections::KeptComment;
use yl_text::Finding;

/// Some rows of a section, one after another, counted from 0 from the section's first row.
#[derive(Clone, Copy)]
pub struct Rows {
    /// The first of the rows.
    pub start: u32,
    /// The row after the last one.
    pub end: u32,
}

/// Returns references to findings, in the order of their lines. The only error is out of memory.
pub fn by_line<'a, A: Allocator + Copy>(
    alloc: A,
    found: &'a [Finding<A>],
) -> Result<Vec<&'a Finding<A>, A>, AllocError>
    ensures same { IfOk result (λ v. IsPermutation found.now (map (λ f. f.now) v.items)) }
    ensures sorted { IfOk result (λ v. IsNonDecreasingBy (λ f. f.line) (map (λ f. f.now) v.items)) }
{
    let mut sorted = Vec::with_capacity(alloc, found.len())?;
    for finding in found {
        sorted.push(finding)?;
    }
    sorted.sort_unstable_by_key(|finding| finding.line());
    Ok(sorted)
}

/// Returns the row in which a finding stands, counted from 0.
fn row_of<A: Allocator>(finding: &Finding<A>) -> u64
    ensures { result ≡ row_of finding.now }
{
    finding.line().saturating_sub(1)
}

/// Returns copies of the findings from the index `at` on that stand above the end of the rows, with
/// lines that count from their start. Moves the index after these findings. The only error is out
/// of memory.
pub fn found_in<A: Allocator + Copy>(
    alloc: A,
    found: &[&Finding<A>],
    at: &mut usize,
    rows: Rows,
) -> Result<Vec<Finding<A>, A>, AllocError>
    ensures items { IfOk result (λ v. v.items ≡ map (finding_above rows.start) (above_row row_of rows.end (drop at.old (map (λ f. f.now) found.now)))) }
    ensures next { IfOk result (λ v. at.new ≡ at.old + length v.items) }
{
    let mut part = Vec::new(alloc);
    while *at < found.len() {
        let finding = found[*at];
        if row_of(finding) >= u64::from(rows.end) {
            break;
        }
        let line = finding.line().saturating_sub(u64::from(rows.start));
        part.push(finding.copy_at(alloc, line)?)?;
        *at += 1;
    }
    Ok(part)
}

/// Returns copies of the facts from the index `at` on that stand above the end of the rows, with
/// lines that count from their start. Moves the index after these facts. The only error is out of
/// memory.
pub fn facts_in<A: Allocator + Copy>(
    alloc: A,
    facts: &[Fact],
    at: &mut usize,
    rows: Rows,
) -> Result<Vec<Fact, A>, AllocError>
    ensures items { IfOk result (λ v. v.items ≡ map (fact_above rows.start) (above_row (λ f. f.line) rows.end (drop at.old facts.now))) }
    ensures next { IfOk result (λ v. at.new ≡ at.old + length v.items) }
{
    let mut part = Vec::new(alloc);
    while *at < facts.len() {
        let fact = facts[*at];
        if fact.line >= rows.end {
            break;
        }
        part.push(Fact {
            line: fact.line.saturating_sub(rows.start),
            column: fact.column,
            expectation: fact.expectation,
        })?;
        *at += 1;
    }
    Ok(part)
}

/// Returns a copy of a comment so many lines further up. The only error is out of memory.
pub fn comment_above<A: Allocator + Copy>(
    alloc: A,
    comment: &KeptComment<A>,
    lines: u32,
) -> Result<KeptComment<A>, AllocError>
    ensures { IfOk result (λ c. c ≡ comment_above lines comment.now) }
{
    let copy = PlacedComment {
        line: comment.line().saturating_sub(lines),
        col: comment.col(),
        text: comment.text(),
        behind: comment.behind(),
    };
    KeptComment::new(alloc, &copy)
}

/// Returns copies of the comments from the index `at` on that stand above the end of the rows, with
/// lines that count from their start. Moves the index after these comments. The only error is out
/// of memory.
pub fn comments_in<A: Allocator + Copy>(
    alloc: A,
    comments: &[KeptComment<A>],
    at: &mut usize,
    rows: Rows,
) -> Result<Vec<KeptComment<A>, A>, AllocError>
    ensures items { IfOk result (λ v. v.items ≡ map (comment_above rows.start) (above_row (λ c. c.line) rows.end (drop at.old comments.now))) }
    ensures next { IfOk result (λ v. at.new ≡ at.old + length v.items) }
{
    let mut part = Vec::new(alloc);
    while *at < comments.len() {
        let comment = &comments[*at];
        if comment.line() >= rows.end {
            break;
        }
        part.push(comment_above(alloc, comment, rows.start)?)?;
        *at += 1;
    }
    Ok(part)
}
