//! The summary of the first rows of a section.
ghost use Rattle.std.specs.Prelude.{◌≡◌, ◌≤◌, ◌++◌, List, IfOk, OnOk, length, take};
ghost use Rattle.yl_config.specs.declared.config.Config.{Config};
ghost use Rattle.yl_record.specs.Records.{RecordValue};
ghost use Rattle.yl_sections.specs.Front.{IsFront};
ghost use Rattle.yl_sections.specs.Judge.{kept_of_section};

use crate::kept::{Kept, KeptComment};
use std::alloc::{AllocError, Allocator};
use yl_indentation::Fact;
use yl_text::Finding;

/// Appends copies of the findings. The only error is out of memory.
fn push_findings<A: Allocator + Copy>(
    alloc: A,
    all: &mut Vec<Finding<A>, A>,
    findings: &[Finding<A>],
) -> Result<(), AllocError>
    ensures { OnOk result (all.new.items ≡ all.old.items ++ findings.now) }
{
    for finding in findings {
        all.push(finding.copy_at(alloc, finding.line())?)?;
    }
    Ok(())
}

/// Returns a copy of the facts. The only error is out of memory.
fn copied_facts<A: Allocator + Copy>(alloc: A, facts: &[Fact]) -> Result<Vec<Fact, A>, AllocError>
    ensures { IfOk result (λ v. v.items ≡ facts.now) }
{
    let mut copies = Vec::new(alloc);
    for fact in facts {
        copies.push(*fact)?;
    }
    Ok(copies)
}

/// Returns a copy of the comments. The only error is out of memory.
fn copied_comments<A: Allocator + Copy>(
    alloc: A,
    comments: &[KeptComment<A>],
) -> Result<Vec<KeptComment<A>, A>, AllocError>
    ensures { IfOk result (λ v. v.items ≡ comments.now) }
{
    let mut copies = Vec::new(alloc);
    for comment in comments {
        copies.push(comment.copied(alloc)?)?;
    }
    Ok(copies)
}

/// Returns the summary of the first `rows` rows of a section that has the summary `kept`. All
/// lexemes and comments of the section must begin in these rows, and no scan fault may. What a scan
/// fault after these rows hides is then shown. Parses no document. The only error is out of memory.
pub fn kept_of_front<A: Allocator + Copy>(
    alloc: A,
    kept: &Kept<A>,
    rows: u32,
) -> Result<Kept<A>, AllocError>
    ensures { IfOk result (λ k. (config : Config) (rs : List RecordValue) → rows ≤ length rs → IsFront rows rs → kept.now ≡ kept_of_section config rs
        → k ≡ kept_of_section config (take rows rs)) }
{
    let mut found = Vec::new(alloc);
    push_findings(alloc, &mut found, kept.found())?;
    push_findings(alloc, &mut found, kept.hidden())?;
    let facts = copied_facts(alloc, kept.facts())?;
    let comments = copied_comments(alloc, kept.comments())?;
    let fault = kept.parse_fault();
    Ok(Kept::new(
        rows,
        kept.first(),
        found,
        facts,
        comments,
        fault,
        Vec::new(alloc),
        fault,
    ))
}
