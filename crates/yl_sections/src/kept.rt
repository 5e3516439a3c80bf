//! The summary of a section.

use crate::fault::SectionFault;
use std::alloc::{AllocError, Allocator};
use std::marker::Model;
use yl_indentation::{Fact, Measure};
use yl_lexeme::PlacedComment;
use yl_text::Finding;

/// A comment of a section that may silence rules.
#[derive(Drop)]
pub struct KeptComment<A: Allocator> {
    /// The line, counted from 0 from the section's first row.
    line: u32,
    /// The column of the `#`, in characters, counted from 0.
    col: u32,
    /// The column at which the lexeme before the comment in its line ends, if there is one.
    behind: Option<u32>,
    /// The `#` and the characters after it, without the line break.
    text: String<A>,
}

impl<A: Allocator> Model for KeptComment<A> {
    ghost use Rattle.std.specs.Prelude.{string_bytes};
    ghost use Rattle.yl_lexeme.specs.Lexeme.{PlacedCommentValue};

    ghost Value = { PlacedCommentValue };

    ghost view = { λ c. record { line = c.line; column = c.col; text = string_bytes c.text; behind = c.behind } };
}

impl<A: Allocator + Copy> KeptComment<A> {
    ghost use Rattle.std.specs.Prelude.{◌≡◌, IfOk};
    ghost use Rattle.yl_lexeme.specs.PlacedComments.{placed_comment_value};

    /// Creates a copy of a comment. The only error is out of memory.
    pub fn new(alloc: A, comment: &PlacedComment<'_>) -> Result<KeptComment<A>, AllocError>
        ensures { IfOk result (λ c. c ≡ placed_comment_value comment.now) }
    {
        let text = String::from_str(alloc, comment.text)?;
        Ok(KeptComment {
            line: comment.line,
            col: comment.col,
            behind: comment.behind,
            text,
        })
    }

    /// Returns a copy of the comment. The only error is out of memory.
    pub(crate) fn copied(&self, alloc: A) -> Result<KeptComment<A>, AllocError>
        ensures { IfOk result (λ c. c ≡ self.now) }
    {
        let text = String::from_str(alloc, self.text.as_str())?;
        Ok(KeptComment {
            line: self.line,
            col: self.col,
            behind: self.behind,
            text,
        })
    }
}

impl<A: Allocator> KeptComment<A> {
    ghost use Rattle.std.specs.Prelude.{◌≡◌};

    /// Returns the line, counted from 0 from the section's first row.
    pub fn line(&self) -> u32
        ensures { result ≡ self.now.line }
    {
        self.line
    }

    /// Returns the column of the `#`, in characters, counted from 0.
    pub fn col(&self) -> u32
        ensures { result ≡ self.now.column }
    {
        self.col
    }

    /// Returns the column at which the lexeme before the comment in its line ends, in characters,
    /// if there is one.
    pub fn behind(&self) -> Option<u32>
        ensures { result ≡ self.now.behind }
    {
        self.behind
    }

    /// Returns the `#` and the characters after it, without the line break.
    pub fn text(&self) -> &str
        ensures { result.now ≡ self.now.text }
    {
        self.text.as_str()
    }
}

/// The summary of a section, which is a run of rows of a text that holds at most one document. It
/// has the findings of the rules on lexemes, comments, keys and anchors, the facts for the rule
/// indentation, the comments that may silence rules, and the fault. What the fault hides is left
/// out, except what only a scan fault hides, which is kept separately.
#[derive(Drop)]
pub struct Kept<A: Allocator> {
    /// The number of rows.
    rows: u32,
    /// The column of the first lexeme, or 0.
    first: u32,
    /// The findings that are shown.
    found: Vec<Finding<A>, A>,
    /// The facts for the rule indentation.
    facts: Vec<Fact, A>,
    /// The measure of the facts.
    measure: Measure,
    /// The comments that may silence rules.
    comments: Vec<KeptComment<A>, A>,
    /// The fault, if there is one.
    fault: Option<SectionFault>,
    /// The findings that only a scan fault hides.
    hidden: Vec<Finding<A>, A>,
    /// The fault without the scan fault, if there is one.
    parse_fault: Option<SectionFault>,
}

impl<A: Allocator> Model for Kept<A> {
    ghost use Rattle.std.specs.Prelude.{◌≡◌};
    ghost use Rattle.std.specs.Option.{option_map};
    ghost use Rattle.yl_indentation.specs.Measures.{measure_of};
    ghost use Rattle.yl_sections.specs.Kept.{KeptValue};
    ghost use Rattle.yl_sections.specs.Owned.{section_fault_value};

    ghost Value = { KeptValue };

    ghost view = { λ k. record {
      rows = k.rows;
      first = k.first;
      found = k.found.items;
      facts = k.facts.items;
      comments = k.comments.items;
      fault = option_map section_fault_value k.fault;
      hidden = k.hidden.items;
      parse_fault = option_map section_fault_value k.parse_fault;
    } };

    ghost invariant = { λ k. k.measure ≡ measure_of k.facts.items };
}

impl<A: Allocator + Copy> Kept<A> {
    ghost use Rattle.std.specs.Prelude.{◌≡◌, [], None};

    /// Creates the summary of rows without a fault, of which these parts are kept.
    pub fn faultless(
        rows: u32,
        first: u32,
        found: Vec<Finding<A>, A>,
        facts: Vec<Fact, A>,
        comments: Vec<KeptComment<A>, A>,
    ) -> Kept<A>
        ensures { result ≡ record {
          rows = rows;
          first = first;
          found = found.items;
          facts = facts.items;
          comments = comments.items;
          fault = None;
          hidden = [];
          parse_fault = None;
        } }
    {
        let hidden = Vec::new(*found.allocator());
        Kept::new(rows, first, found, facts, comments, None, hidden, None)
    }
}

impl<A: Allocator> Kept<A> {
    ghost use Rattle.std.specs.Prelude.{◌≡◌};
    ghost use Rattle.std.specs.Option.{option_map};
    ghost use Rattle.yl_indentation.specs.Measures.{measure_of};
    ghost use Rattle.yl_sections.specs.Owned.{section_fault_value};

    /// Creates a summary of these parts.
    pub(crate) fn new(
        rows: u32,
        first: u32,
        found: Vec<Finding<A>, A>,
        facts: Vec<Fact, A>,
        comments: Vec<KeptComment<A>, A>,
        fault: Option<SectionFault>,
        hidden: Vec<Finding<A>, A>,
        parse_fault: Option<SectionFault>,
    ) -> Kept<A>
        ensures { result ≡ record {
          rows = rows;
          first = first;
          found = found.items;
          facts = facts.items;
          comments = comments.items;
          fault = option_map section_fault_value fault;
          hidden = hidden.items;
          parse_fault = option_map section_fault_value parse_fault;
        } }
    {
        let measure = Measure::of(&facts);
        Kept {
            rows,
            first,
            found,
            facts,
            measure,
            comments,
            fault,
            hidden,
            parse_fault,
        }
    }

    /// Returns the number of rows.
    pub fn rows(&self) -> u32
        ensures { result ≡ self.now.rows }
    {
        self.rows
    }

    /// Returns the column of the first lexeme, in characters, counted from 0. Returns 0 if there is
    /// no lexeme.
    pub fn first(&self) -> u32
        ensures { result ≡ self.now.first }
    {
        self.first
    }

    /// Returns the findings of the rules on lexemes, comments, keys and anchors that are shown.
    /// Lines count from 1 from the section's first row, and columns count characters from 1.
    pub fn found(&self) -> &[Finding<A>]
        ensures { result.now ≡ self.now.found }
    {
        self.found.as_slice()
    }

    /// Returns the facts for the rule indentation. Lines count from 0 from the section's first row.
    pub fn facts(&self) -> &[Fact]
        ensures { result.now ≡ self.now.facts }
    {
        self.facts.as_slice()
    }

    /// Returns the measure of the facts.
    pub fn measure(&self) -> Measure
        ensures { result ≡ measure_of self.now.facts }
    {
        self.measure
    }

    /// Returns the comments that may silence rules.
    pub fn comments(&self) -> &[KeptComment<A>]
        ensures { result.now ≡ self.now.comments }
    {
        self.comments.as_slice()
    }

    /// Returns the fault of the section, if it has one.
    pub fn fault(&self) -> Option<SectionFault>
        ensures { option_map section_fault_value result ≡ self.now.fault }
    {
        self.fault
    }

    /// Returns the findings of the rules on keys and anchors, if only a scan fault hides them.
    /// `found` then has no findings of these rules.
    pub fn hidden(&self) -> &[Finding<A>]
        ensures { result.now ≡ self.now.hidden }
    {
        self.hidden.as_slice()
    }

    /// Returns the fault that the section has without the scan fault in its rows, if there is one.
    pub fn parse_fault(&self) -> Option<SectionFault>
        ensures { option_map section_fault_value result ≡ self.now.parse_fault }
    {
        self.parse_fault
    }
}
