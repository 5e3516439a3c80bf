//! The summary of a piece.
ghost use Rattle.std.specs.Prelude.{◌≡◌, ◌++◌, ◌∷◌, [], map, IfOk, OnOk};
ghost use Rattle.std.specs.List.{filter};
ghost use Rattle.yl_lexeme.specs.PlacedComments.{placed_comment_value};
ghost use Rattle.yl_rules.specs.Addressed as spec;
ghost use Rattle.yl_sections.specs.Kept.{is_on, items_if, shown_comment_findings};
ghost use Rattle.yl_piece_reports.specs.Told.{comment_above, fact_above, finding_above, kept_by_told};

use crate::lists::comment_above;
use std::alloc::{AllocError, Allocator};
use yl_config::Config;
use yl_indentation::Fact;
use yl_lexeme::PlacedComment;
use yl_pieces::Piece;
use yl_rules::is_addressed;
use yl_sections::{Kept, KeptComment, comments_found, is_on};
use yl_text::{Finding, RuleId};

/// Returns the findings, each one line further up. The only error is out of memory.
fn findings_above<A: Allocator + Copy>(
    findings: Vec<Finding<A>, A>,
) -> Result<Vec<Finding<A>, A>, AllocError>
    ensures { IfOk result (λ all. all.items ≡ map (finding_above 1) findings.items) }
{
    let mut all = Vec::with_capacity(*findings.allocator(), findings.len())?;
    for mut finding in findings {
        let line = finding.line().saturating_sub(1);
        finding.set_line(line);
        all.push(finding)?;
    }
    Ok(all)
}

/// Returns the facts, each one line further up, if the rule indentation is on, else none. The only
/// error is out of memory.
fn facts_above<A: Allocator + Copy>(
    alloc: A,
    config: &Config,
    facts: &[Fact],
) -> Result<Vec<Fact, A>, AllocError>
    ensures { IfOk result (λ all. all.items ≡ items_if (is_on config.now RuleId.Indentation) (map (fact_above 1) facts.now)) }
{
    let mut all = Vec::new(alloc);
    if !is_on(config, RuleId::Indentation) {
        return Ok(all);
    }
    for fact in facts {
        all.push(Fact {
            line: fact.line.saturating_sub(1),
            column: fact.column,
            expectation: fact.expectation,
        })?;
    }
    Ok(all)
}

/// Returns a view of a comment.
fn placed<A: Allocator>(comment: &KeptComment<A>) -> PlacedComment<'_>
    ensures { placed_comment_value result ≡ comment.now }
{
    PlacedComment {
        line: comment.line(),
        col: comment.col(),
        text: comment.text(),
        behind: comment.behind(),
    }
}

/// Appends a copy of the comment, one line further up, if it may silence rules. The only error is
/// out of memory.
fn push_above<A: Allocator + Copy>(
    alloc: A,
    comment: &KeptComment<A>,
    all: &mut Vec<KeptComment<A>, A>,
) -> Result<(), AllocError>
    ensures { OnOk result (all.new.items ≡ all.old.items ++ map (comment_above 1) (filter spec.is_addressed (comment.now ∷ []))) }
{
    if is_addressed(&placed(comment)) {
        all.push(comment_above(alloc, comment, 1)?)?;
    }
    Ok(())
}

/// Returns copies of the comments that may silence rules, each one line further up. The only error
/// is out of memory.
fn comments_above<A: Allocator + Copy>(
    alloc: A,
    comments: &[KeptComment<A>],
) -> Result<Vec<KeptComment<A>, A>, AllocError>
    ensures { IfOk result (λ all. all.items ≡ map (comment_above 1) (filter spec.is_addressed comments.now)) }
{
    let mut all = Vec::new(alloc);
    for comment in comments {
        push_above(alloc, comment, &mut all)?;
    }
    Ok(all)
}

/// Appends the findings of the rule comments, or none if it is off. The only error is out of
/// memory.
fn push_comment_findings<A: Allocator + Copy>(
    alloc: A,
    config: &Config,
    comments: &[KeptComment<A>],
    found: &mut Vec<Finding<A>, A>,
) -> Result<(), AllocError>
    ensures { OnOk result (found.new.items ≡ found.old.items ++ shown_comment_findings config.now comments.now) }
{
    for comment in comments {
        let mut more = comments_found(alloc, config, &[placed(comment)])?;
        found.append(&mut more)?;
    }
    Ok(())
}

/// Returns the summary of so many rows without a fault that tell this, where they begin no section.
/// `in_events` has what the rules on keys and anchors find in them. Lines count from line 1, those
/// of the findings from line 2, and in the summary from one less. The only error is out of memory.
pub(crate) fn summary_of<A: Allocator + Copy>(
    alloc: A,
    config: &Config,
    rows: u32,
    piece: Piece<A>,
    mut in_events: Vec<Finding<A>, A>,
) -> Result<Kept<A>, AllocError>
    ensures { IfOk result (λ k. k ≡ kept_by_told config.now 0 rows 1 piece (map (finding_above 1) in_events.items)) }
{
    let Piece {
        mut found,
        facts,
        comments,
        ..
    } = piece;
    push_comment_findings(alloc, config, &comments, &mut found)?;
    found.append(&mut in_events)?;
    let found = findings_above(found)?;
    let facts = facts_above(alloc, config, &facts)?;
    let comments = comments_above(alloc, &comments)?;
    Ok(Kept::faultless(rows, 0, found, facts, comments))
}
