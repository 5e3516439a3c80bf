//! What the comments of a text silence.
ghost use Rattle.std.specs.Prelude.{◌≡◌};
ghost use Rattle.yl_rules.specs.LevelOf.{rule_number};

use crate::comment::disables_file;
use crate::marks::SilencedLines;
use crate::noting::marks_in;
use std::alloc::{AllocError, Allocator};
use yl_lexeme::PlacedComment;
use yl_text::RuleId;

// Returns the number of the rule, which is its index in `Silences::rules`.
fn slot(rule: RuleId) -> usize
    ensures { result ≡ rule_number rule }
{
    rule as usize
}

/// What the comments of a text silence.
#[derive(Drop)]
pub struct Silences<A: Allocator> {
    is_file_silenced: bool,
    // The silenced lines of each rule, by its number. Empty if no comment of the text may silence a
    // rule.
    rules: Vec<SilencedLines<A>, A>,
}

impl<A: Allocator> Silences<A> {
    ghost use Rattle.std.specs.Prelude.{◌≡◌, false, IfOk, map};
    ghost use Rattle.yl_lexeme.specs.PlacedComments.{placed_comment_value};
    ghost use Rattle.yl_report.specs.Directive.{is_silenced};
    ghost use Rattle.yl_report.specs.Directive as spec;
    ghost use Rattle.yl_report.specs.Silence.{is_file_silenced_by, is_silenced_at};

    /// Creates a value that silences nothing.
    pub fn none(alloc: A) -> Silences<A>
        ensures file { is_file_silenced_by result ≡ false }
        ensures lines { is_silenced_at result ≡ (λ _ _. false) }
    {
        Silences {
            is_file_silenced: false,
            rules: Vec::new(alloc),
        }
    }

    /// Reads what the first line and the comments of a text silence. The only error is out of
    /// memory.
    pub fn read(
        alloc: A,
        first_row: &str,
        comments: &[PlacedComment<'_>],
    ) -> Result<Silences<A>, AllocError>
    where
        A: Copy,
        ensures file { IfOk result (λ s. is_file_silenced_by s ≡ spec.disables_file first_row.now) }
        ensures lines { IfOk result (λ s. is_silenced_at s ≡ is_silenced (map placed_comment_value comments.now)) }
    {
        let rules = marks_in(alloc, comments)?;
        Ok(Silences {
            is_file_silenced: disables_file(first_row),
            rules,
        })
    }

    /// Returns `true` if the whole file is silenced.
    pub fn is_file_silenced(&self) -> bool
        ensures { result ≡ is_file_silenced_by self.now }
    {
        self.is_file_silenced
    }

    /// Returns `true` if `rule` is silenced at `line`, counted from 0. A silenced file is not
    /// considered here.
    pub fn is_silenced(&self, rule: RuleId, line: u64) -> bool
        ensures { result ≡ is_silenced_at self.now rule line }
    {
        match self.rules.get(slot(rule)) {
            Some(marks) => marks.is_off(line),
            None => false,
        }
    }
}
