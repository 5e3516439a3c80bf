//! The last piece of a section that loses rows without a lexeme and a comment.
ghost use Rattle.std.specs.Prelude.{◌≡◌, ◌<◌, IfOk, Some, length, slice_get};
ghost use Rattle.yl_section_pieces.specs.Pieces.{PieceValue};
ghost use Rattle.yl_piece_list.specs.Anew.{IsShorter, with_rows};

use crate::list::PieceList;
use crate::one_piece::copy_of;
use std::alloc::{AllocError, Allocator};
use yl_config::Config;
use yl_indentation::Fact;
use yl_lexeme::PlacedComment;
use yl_section_pieces::SectionPiece;
use yl_sections::{Kept, KeptComment, kept_of_front};
use yl_text::Finding;

/// Returns copies of the findings. The only error is out of memory.
fn copied_findings<A: Allocator + Copy>(
    alloc: A,
    findings: &[Finding<A>],
) -> Result<Vec<Finding<A>, A>, AllocError>
    ensures { IfOk result (λ v. v.items ≡ findings.now) }
{
    let mut copies = Vec::new(alloc);
    for finding in findings {
        copies.push(finding.copy_at(alloc, finding.line())?)?;
    }
    Ok(copies)
}

/// Returns copies of the facts. The only error is out of memory.
fn copied_facts<A: Allocator + Copy>(alloc: A, facts: &[Fact]) -> Result<Vec<Fact, A>, AllocError>
    ensures { IfOk result (λ v. v.items ≡ facts.now) }
{
    let mut copies = Vec::new(alloc);
    for fact in facts {
        copies.push(*fact)?;
    }
    Ok(copies)
}

/// Returns a copy of the comment. The only error is out of memory.
fn copied_comment<A: Allocator + Copy>(
    alloc: A,
    comment: &KeptComment<A>,
) -> Result<KeptComment<A>, AllocError>
    ensures { IfOk result (λ c. c ≡ comment.now) }
{
    let copy = PlacedComment {
        line: comment.line(),
        col: comment.col(),
        text: comment.text(),
        behind: comment.behind(),
    };
    KeptComment::new(alloc, &copy)
}

/// Returns copies of the comments. The only error is out of memory.
fn copied_comments<A: Allocator + Copy>(
    alloc: A,
    comments: &[KeptComment<A>],
) -> Result<Vec<KeptComment<A>, A>, AllocError>
    ensures { IfOk result (λ v. v.items ≡ comments.now) }
{
    let mut copies = Vec::new(alloc);
    for comment in comments {
        copies.push(copied_comment(alloc, comment)?)?;
    }
    Ok(copies)
}

/// Returns the summary of the first `rows` rows of a piece that has no fault, given its summary, all
/// of which stands in these rows. The only error is out of memory.
fn with_rows<A: Allocator + Copy>(
    alloc: A,
    kept: &Kept<A>,
    rows: u32,
) -> Result<Kept<A>, AllocError>
    ensures { IfOk result (λ k. k ≡ with_rows rows kept.now) }
{
    let found = copied_findings(alloc, kept.found())?;
    let facts = copied_facts(alloc, kept.facts())?;
    let comments = copied_comments(alloc, kept.comments())?;
    Ok(Kept::faultless(rows, kept.first(), found, facts, comments))
}

/// Returns the piece that comes in place of the piece of index `i`, counted from 0, which is the
/// last one of its section, where only the first rows of the section are left, and `rows` of them in
/// this piece. All lexemes and comments of the section must begin in the rows that are left, and no
/// scan fault may. The only error is out of memory, or more rows or lexemes than a `u32` counts.
pub fn shorter_piece<A: Allocator + Copy>(
    alloc: A,
    config: &Config,
    pieces: &PieceList<'_, A>,
    i: usize,
    rows: u32,
) -> Result<SectionPiece<A>, AllocError>
    requires { i < length pieces.now }
    ensures { IfOk result (λ y. (x : PieceValue) → slice_get pieces.now i ≡ Some x → IsShorter config.now x rows y) }
{
    let kept = pieces.kept().get(i);
    match pieces.before().get(i).get() {
        None => {
            let kept = kept_of_front(alloc, kept, rows)?;
            Ok(SectionPiece { kept, before: None })
        }
        Some(state) => {
            let kept = with_rows(alloc, kept, rows)?;
            let before = copy_of(alloc, config, state)?;
            Ok(SectionPiece { kept, before })
        }
    }
}
