//! Reads the lines at which the comments of a text silence each rule.
ghost use Rattle.std.specs.Prelude.{◌≡◌, ◌++◌, ◌∷◌, [], ℕ, OnOk, IfOk, Some, codes, map, slice_get, if◌then◌else◌};
ghost use Rattle.std.specs.List.{filter};
ghost use Rattle.std.specs.List.Sorted.{IsNonDecreasingBy};
ghost use Rattle.yl_report.specs.Switched.{is_off_at};
ghost use Rattle.yl_lexeme.specs.PlacedComments.{placed_comment_value};
ghost use Rattle.yl_report.specs.Addressed.{is_addressed_comment};
ghost use Rattle.yl_report.specs.Directive.{is_silenced};
ghost use Rattle.yl_report.specs.Directive as spec;
ghost use Rattle.yl_report.specs.Silence.{is_silenced_in};
ghost use Rattle.yl_rules.specs.LevelOf.{rule_number};
ghost use Rattle.yl_text.specs.declared.finding.RuleId.{RuleId};

use crate::comment::{disables, enables, own_line, says};
use crate::marks::{SilencedLines, Switch, push_switch};
use std::alloc::{AllocError, Allocator};
use yl_lexeme::PlacedComment;
use yl_rules::is_addressed;
use yl_text::RuleId;

// Appends the switch that the comment makes of the rule, if it makes one.
fn note_switch<A: Allocator>(
    switches: &mut Vec<Switch, A>,
    rule: RuleId,
    comment: &PlacedComment<'_>,
) -> Result<(), AllocError>
    requires { IsNonDecreasingBy (λ w. w.line) switches.old.items }
    ensures rising { OnOk result (IsNonDecreasingBy (λ w. w.line) switches.new.items) }
    ensures switched { OnOk result ((at : ℕ) → is_off_at switches.new.items at
        ≡ (if spec.switches rule at (placed_comment_value comment.now) then spec.disables rule (placed_comment_value comment.now)
        else is_off_at switches.old.items at)) }
{
    let is_off = disables(rule, comment);
    if is_off || enables(rule, comment) {
        push_switch(switches, u64::from(comment.line), is_off)?;
    }
    Ok(())
}

// Appends the line at which the comment silences the rule, if it is a `disable-line` comment for
// it.
fn note_line<A: Allocator>(
    lines: &mut Vec<u64, A>,
    rule: RuleId,
    comment: &PlacedComment<'_>,
) -> Result<(), AllocError>
    ensures { OnOk result (lines.new.items ≡ lines.old.items
        ++ (if spec.says (codes "# yamllint disable-line") rule (placed_comment_value comment.now)
        then spec.own_line (placed_comment_value comment.now) ∷ [] else [])) }
{
    if says(b"# yamllint disable-line", rule, comment) {
        lines.push(own_line(comment))?;
    }
    Ok(())
}

// Returns the lines at which the comments silence the rule.
fn marks_of<A: Allocator + Copy>(
    alloc: A,
    comments: &[PlacedComment<'_>],
    rule: RuleId,
) -> Result<SilencedLines<A>, AllocError>
    ensures { IfOk result (λ m. (line : ℕ) → is_silenced_in (Some m) line
        ≡ is_silenced (map placed_comment_value comments.now) rule line) }
{
    let mut switches = Vec::new(alloc);
    let mut lines = Vec::new(alloc);
    for comment in comments {
        note_switch(&mut switches, rule, comment)?;
        note_line(&mut lines, rule, comment)?;
    }
    lines.sort_unstable();
    Ok(SilencedLines { switches, lines })
}

// Returns the comments that may silence a rule.
fn addressed<'a, A: Allocator + Copy>(
    alloc: A,
    comments: &[PlacedComment<'a>],
) -> Result<Vec<PlacedComment<'a>, A>, AllocError>
    ensures { IfOk result (λ v. v.items ≡ filter is_addressed_comment comments.now) }
{
    let mut kept = Vec::new(alloc);
    for comment in comments {
        if is_addressed(comment) {
            kept.push(*comment)?;
        }
    }
    Ok(kept)
}

const RULES: [RuleId; 19] = [
    RuleId::Anchors,
    RuleId::Braces,
    RuleId::Brackets,
    RuleId::Colons,
    RuleId::Commas,
    RuleId::Comments,
    RuleId::DocumentStart,
    RuleId::EmptyLines,
    RuleId::Hyphens,
    RuleId::Indentation,
    RuleId::KeyDuplicates,
    RuleId::KeyOrdering,
    RuleId::LineLength,
    RuleId::NewLineAtEndOfFile,
    RuleId::NewLines,
    RuleId::QuotedStrings,
    RuleId::Syntax,
    RuleId::TrailingSpaces,
    RuleId::Truthy,
];

// Returns the lines at which the comments silence each rule, indexed by the rule's number.
fn marks_of_all<A: Allocator + Copy>(
    alloc: A,
    comments: &[PlacedComment<'_>],
) -> Result<Vec<SilencedLines<A>, A>, AllocError>
    ensures { IfOk result (λ v. (rule : RuleId) (line : ℕ) → is_silenced_in (slice_get v.items (rule_number rule)) line
        ≡ is_silenced (map placed_comment_value comments.now) rule line) }
{
    let mut all = Vec::with_capacity(alloc, RULES.len())?;
    for rule in RULES {
        let marks = marks_of(alloc, comments, rule)?;
        all.push(marks)?;
    }
    Ok(all)
}

/// Returns the lines at which the comments of a text silence each rule, indexed by the rule's
/// number. Returns an empty list if no comment may silence a rule. The only error is out of memory.
pub fn marks_in<A: Allocator + Copy>(
    alloc: A,
    comments: &[PlacedComment<'_>],
) -> Result<Vec<SilencedLines<A>, A>, AllocError>
    ensures { IfOk result (λ v. (rule : RuleId) (line : ℕ) → is_silenced_in (slice_get v.items (rule_number rule)) line
        ≡ is_silenced (map placed_comment_value comments.now) rule line) }
{
    let addressed = addressed(alloc, comments)?;
    if addressed.is_empty() {
        return Ok(Vec::new(alloc));
    }
    marks_of_all(alloc, &addressed)
}
