//! Judges the rows of a document, from the document's start or from a state on.
ghost use Rattle.std.specs.Prelude.{◌≡◌, ◌<◌, ◌+◌, ◌-◌, ◌^◌, ◌++◌, [], Bool, List, map, length, IfOk, OnOk};
ghost use Rattle.yl_marks.specs.declared.facts.KeyFacts.{KeyFacts};
ghost use Rattle.yl_marks.specs.Keys.{lexeme_at_line};
ghost use Rattle.yl_marks.specs.Marks.{closings_of_all};
ghost use Rattle.yl_events.specs.Parsing.{IsOutcome};
ghost use Rattle.yl_events.specs.SymbolParsing.{outcome_of_symbols};
ghost use Rattle.yl_lexeme_rules.specs.LexemesLeft.{lexemes_left};
ghost use Rattle.yl_sections.specs.JudgedRow.{GoesOn, IsAtStart, JudgesRow, state_behind};
ghost use Rattle.yl_sections.specs.Reading.{counted_in};
ghost use Rattle.yl_sections.specs.RowReading.{IsCounted};

use crate::row_reader::RowReader;
use crate::row_rules::RowRules;
use crate::rules::lexeme_options;
use crate::state::DocumentState;
use std::alloc::{AllocError, Allocator};
use std::mem;
use yl_config::Config;
use yl_events::{Outline, PlacedParseFault};
use yl_indentation::{Fact, FactReader};
use yl_lexeme::Meter;
use yl_lexeme_rules::LexemeOptions;
use yl_marks::RowLexemes;
use yl_text::Finding;

/// Returns the number of lexemes of a document that are judged: those before its fault, if it has
/// one, else `end`.
fn counted_in(fault: Option<PlacedParseFault>, end: usize) -> usize
    ensures { result ≡ counted_in fault end }
{
    match fault {
        None => end,
        Some(fault) => fault.place,
    }
}

/// A judge of the rows of a document, which are given one after another, from the document's start
/// or from a state on. The rules on keys and anchors have no part in it: it holds the outlines of
/// the latest row, of which they are told.
#[derive(Drop)]
pub struct RowJudge<A: Allocator + Copy> {
    /// The allocator of the lists.
    pub(crate) alloc: A,
    /// The marks and the parser of the document.
    pub(crate) reader: RowReader<A>,
    /// The reader of the facts.
    pub(crate) places: FactReader<A>,
    /// The options of the rules on lexemes that are on.
    pub(crate) options: LexemeOptions,
    /// The rules on lexemes.
    pub(crate) rules: RowRules,
    /// The facts for the rule indentation so far.
    pub(crate) facts: Vec<Fact, A>,
    /// The findings of the rules on lexemes so far.
    pub(crate) found: Vec<Finding<A>, A>,
}

impl<A: Allocator + Copy> RowJudge<A> {
    /// Creates a judge at the start of a document, and counts the document in the meter, also after
    /// an error. It holds the outlines of the document's start. The only error is out of memory.
    pub fn begin(alloc: A, config: &Config, meter: &mut Meter) -> Result<RowJudge<A>, AllocError>
        requires { meter.old.documents < 2 ^ 32 - 1 }
        ensures counted { meter.new ≡ record meter.old { documents = meter.old.documents + 1 } }
        ensures start { IfOk result (λ d. IsAtStart config.now d) }
    {
        let reader = RowReader::begin(alloc, meter)?;
        Ok(RowJudge {
            alloc,
            reader,
            places: FactReader::new(alloc),
            options: lexeme_options(config),
            rules: RowRules::new(),
            facts: Vec::new(alloc),
            found: Vec::new(alloc),
        })
    }

    /// Creates a judge that goes on from a state. Its rows count from line 1. The only error is out
    /// of memory.
    pub fn resume(
        alloc: A,
        config: &Config,
        before: &DocumentState<A>,
    ) -> Result<RowJudge<A>, AllocError>
        ensures { IfOk result (λ d. GoesOn config.now before.now d) }
    {
        let reader = RowReader::resume(alloc, before)?;
        let places = FactReader::resume(&before.context)?;
        let rules = RowRules::resume(&before.lexemes);
        Ok(RowJudge {
            alloc,
            reader,
            places,
            options: lexeme_options(config),
            rules,
            facts: Vec::new(alloc),
            found: Vec::new(alloc),
        })
    }

    /// Reads the next row of the document that has lexemes. The row begins with `spaces` spaces.
    /// Returns the document's fault, if it is at a lexeme of the row. The only error is out of
    /// memory, or more lexemes than a `u32` counts. After a fault or an error, the judge must not
    /// read further rows.
    pub fn read(
        &mut self,
        row: &RowLexemes<'_, A>,
        spaces: u32,
    ) -> Result<Option<PlacedParseFault>, AllocError>
        ensures { 0 < length row.now.lexemes.now → IsCounted self.old.reader
            → IfOk result (λ fault. JudgesRow self.old (map (lexeme_at_line row.now.line) row.now.lexemes.now) spaces fault self.new) }
    {
        let fault = self.reader.read(row)?;
        let first = self.reader.count;
        let Some(end) = first.checked_add(row.lexemes.len()) else {
            return Err(AllocError);
        };
        self.places.read_line(
            &self.reader.tokens,
            first,
            &self.reader.symbols,
            counted_in(fault, end),
            spaces,
            &mut self.facts,
        )?;
        let keys = &self.reader.keys;
        if let Some(fault) = fault {
            let count = fault.place - first;
            self.rules
                .find_before(&self.options, row, keys, count, &mut self.found)?;
            return Ok(Some(fault));
        }
        self.rules
            .read_row(&self.options, row, keys, &mut self.found)?;
        self.reader.count = end;
        Ok(None)
    }

    /// Returns the number of lexemes of the rows that were read without a fault, as the places of
    /// faults count them. Behind a state they count from any number on, which is known once a row
    /// was read.
    pub fn count(&self) -> usize
        ensures { result ≡ self.now.reader.count }
    {
        self.reader.count
    }

    /// Returns the outlines of the latest row that was read, or of the document's start or end.
    pub fn outlines(&self) -> &[Outline]
        ensures { result.now ≡ self.now.reader.outlines.items }
    {
        &self.reader.outlines
    }

    /// Returns the state behind the rows, if none of them has a fault. The only error is out of
    /// memory.
    pub fn state(&self) -> Result<DocumentState<A>, AllocError>
        ensures { IfOk result (λ s. s ≡ state_behind self.now) }
    {
        let marker = self.reader.marker.state()?;
        let parser = self.reader.parser.state()?;
        let context = self.places.state()?;
        let lexemes = self.rules.state();
        Ok(DocumentState {
            marker,
            parser,
            context,
            lexemes,
        })
    }

    /// Removes the findings of the rules on lexemes and the facts for the rule indentation, and
    /// returns them.
    pub fn take(&mut self) -> (Vec<Finding<A>, A>, Vec<Fact, A>)
        ensures found { result.0.items ≡ self.old.found.items }
        ensures facts { result.1.items ≡ self.old.facts.items }
    {
        let found = mem::replace(&mut self.found, Vec::new(self.alloc));
        let facts = mem::replace(&mut self.facts, Vec::new(self.alloc));
        (found, facts)
    }

    /// Appends what the rules on lexemes still find, if no other row comes. The only error is out
    /// of memory.
    pub fn finish(&mut self) -> Result<(), AllocError>
        ensures found { (v : Bool) (ks : List KeyFacts) → OnOk result (self.new.found.items
            ≡ self.old.found.items ++ lexemes_left v self.old.options self.old.rules [] ks) }
        ensures stays { self.new ≡ record self.old { found = self.new.found } }
    {
        self.rules.finish(&self.options, &mut self.found)
    }

    /// Ends the document, if it began before the rows, and returns its fault, if it has one. The
    /// judge then holds the outlines of the end. The only error is out of memory.
    pub(crate) fn close(&mut self) -> Result<Option<PlacedParseFault>, AllocError>
        ensures closed { IfOk result (λ fault. IsOutcome
            (outcome_of_symbols self.old.reader.parser self.old.reader.count [] (closings_of_all self.old.reader.marker.marks.open_ones)) fault self.new.reader.outlines.items) }
        ensures stays { self.new ≡ record self.old { reader = self.new.reader } }
    {
        self.reader.close()
    }
}
