//! Marks and parses a document row by row.
ghost use Rattle.std.specs.Prelude.{◌≡◌, ◌≤◌, ◌<◌, ◌+◌, ◌^◌, ◌-◌, [], true, false, if◌then◌else◌, map, length, IfOk, IfSome, OnOk};
ghost use Rattle.yl_marks.specs.ByLine.{marks_of_line};
ghost use Rattle.yl_marks.specs.FactsByLine.{behind_keyed_line, facts_of_line, key_marker_at_start};
ghost use Rattle.yl_marks.specs.Keys.{lexeme_at_line, token_of};
ghost use Rattle.yl_marks.specs.Marks.{closings_of_all};
ghost use Rattle.yl_events.specs.Parsing.{IsOutcome, start_events};
ghost use Rattle.yl_events.specs.SymbolParsing.{outcome_of_symbols, symbols_at_start};
ghost use Rattle.yl_sections.specs.RowReading.{IsCounted, MarksFrom, ParsesFrom, first_index};

use crate::state::DocumentState;
use std::alloc::{AllocError, Allocator};
use yl_events::{Outline, PlacedParseFault, SymbolParser};
use yl_lexeme::Meter;
use yl_marks::{KeyFacts, KeyMarker, RowLexemes, Symbol, Token, push_tokens};

/// The capacity of the lists of a row, in lexemes. Most rows have fewer lexemes.
const ROW: usize = 8;

/// Replaces `tokens` by the lexemes of a row without their values. Keeps the capacity. The only
/// error is out of memory.
fn read_tokens<A: Allocator>(
    row: &RowLexemes<'_, A>,
    tokens: &mut Vec<Token, A>,
) -> Result<(), AllocError>
    ensures { OnOk result (tokens.new.items ≡ map token_of (map (lexeme_at_line row.now.line) row.now.lexemes.now)) }
{
    tokens.clear();
    push_tokens(row, tokens)
}

/// Returns the index of the first lexeme among these symbols, or 0 if there is none.
fn first_index(symbols: &[Symbol]) -> usize
    ensures { result ≡ first_index symbols.now }
{
    for symbol in symbols {
        if let Symbol::One(_, i) = symbol {
            return *i as usize;
        }
    }
    0
}

/// A reader of a document, whose rows are given one after another, from the document's start or
/// from a state on. It holds what the rest of the document depends on, and the marks and outlines
/// of the latest row.
#[derive(Drop)]
pub struct RowReader<A: Allocator + Copy> {
    /// The number of lexemes so far, as the marker counts them: those before the latest row, until
    /// that row is judged.
    pub count: usize,
    /// Whether `count` is known. Behind a state it is known from the first row on.
    pub is_counted: bool,
    /// The marker, which puts marks between the lexemes.
    pub marker: KeyMarker<A>,
    /// The parser of the document.
    pub parser: SymbolParser<A>,
    /// The lexemes of the latest row, without their values.
    pub tokens: Vec<Token, A>,
    /// The marked lexemes of the latest row.
    pub symbols: Vec<Symbol, A>,
    /// For each lexeme of the latest row, what it has to do with keys.
    pub keys: Vec<KeyFacts, A>,
    /// The outlines of the latest row.
    pub outlines: Vec<Outline, A>,
}

impl<A: Allocator + Copy> RowReader<A> {
    /// Creates a reader at the start of a document, and counts the document in the meter, also
    /// after an error. The only error is out of memory.
    pub fn begin(alloc: A, meter: &mut Meter) -> Result<RowReader<A>, AllocError>
        requires { meter.old.documents < 2 ^ 32 - 1 }
        ensures counted { meter.new ≡ record meter.old { documents = meter.old.documents + 1 } }
        ensures count { IfOk result (λ r. r.count ≡ 0) }
        ensures marker { IfOk result (λ r. r.marker ≡ key_marker_at_start) }
        ensures parser { IfOk result (λ r. r.parser ≡ symbols_at_start) }
        ensures told { IfOk result (λ r. r.outlines.items ≡ start_events) }
    {
        let mut parser = SymbolParser::new(alloc);
        let mut outlines = Vec::new(alloc);
        parser.begin(&mut outlines, meter)?;
        Ok(RowReader {
            count: 0,
            is_counted: true,
            marker: KeyMarker::new(alloc),
            parser,
            tokens: Vec::with_capacity(alloc, ROW)?,
            symbols: Vec::with_capacity(alloc, 2 * ROW)?,
            keys: Vec::with_capacity(alloc, ROW)?,
            outlines,
        })
    }

    /// Creates a reader that goes on from a state. The only error is out of memory.
    pub fn resume(alloc: A, before: &DocumentState<A>) -> Result<RowReader<A>, AllocError>
        ensures counted { IfOk result (λ r. r.is_counted ≡ false) }
        ensures marker { IfOk result (λ r. MarksFrom before.now.marker r.marker) }
        ensures parser { IfOk result (λ r. r.parser ≡ before.now.parser) }
    {
        let marker = KeyMarker::resume(&before.marker)?;
        let parser = SymbolParser::resume(&before.parser)?;
        Ok(RowReader {
            count: 0,
            is_counted: false,
            marker,
            parser,
            tokens: Vec::with_capacity(alloc, ROW)?,
            symbols: Vec::with_capacity(alloc, 2 * ROW)?,
            keys: Vec::with_capacity(alloc, ROW)?,
            outlines: Vec::new(alloc),
        })
    }

    /// Returns the number of lexemes before the latest row, whose marks the reader holds.
    fn first(&self) -> usize
        ensures { result ≡ (if self.now.is_counted then self.now.count else first_index self.now.symbols.items) }
    {
        if self.is_counted {
            self.count
        } else {
            first_index(&self.symbols)
        }
    }

    /// Reads the next row of the document, which must have lexemes. Returns the document's fault,
    /// if it is at a lexeme of the row. `count` is then the number of lexemes before the row. The
    /// only error is out of memory, or more lexemes than a `u32` counts.
    pub fn read(&mut self, row: &RowLexemes<'_, A>) -> Result<Option<PlacedParseFault>, AllocError>
        ensures tokens { OnOk result (self.new.tokens.items ≡ map token_of (map (lexeme_at_line row.now.line) row.now.lexemes.now)) }
        ensures marker { OnOk result (self.new.marker ≡ behind_keyed_line self.old.marker (map token_of (map (lexeme_at_line row.now.line) row.now.lexemes.now))) }
        ensures symbols { OnOk result (self.new.symbols.items
            ≡ marks_of_line self.old.marker.marks (map token_of (map (lexeme_at_line row.now.line) row.now.lexemes.now))) }
        ensures keys { OnOk result (self.new.keys.items
            ≡ facts_of_line self.old.marker (map token_of (map (lexeme_at_line row.now.line) row.now.lexemes.now))) }
        ensures count { 0 < length row.now.lexemes.now → IsCounted self.old → OnOk result (self.new.count ≡ self.old.marker.marks.count) }
        ensures parsed { IfOk result (λ fault. ParsesFrom self.old.parser self.new.count
            (marks_of_line self.old.marker.marks (map token_of (map (lexeme_at_line row.now.line) row.now.lexemes.now)))
            fault self.new.parser self.new.outlines.items) }
        ensures inside { IfOk result (λ fault. IfSome fault (λ f. (self.new.count ≤ f.place) × (f.place < self.new.count + length row.now.lexemes.now))) }
    {
        read_tokens(row, &mut self.tokens)?;
        self.symbols.clear();
        self.keys.clear();
        self.outlines.clear();
        self.marker
            .read(&self.tokens, &mut self.symbols, &mut self.keys)?;
        let first = self.first();
        let fault = self.parser.feed(first, &self.symbols, &mut self.outlines)?;
        self.count = first;
        self.is_counted = true;
        Ok(fault)
    }

    /// Ends the document, and returns its fault, if it has one. `outlines` are then those of its
    /// end. The only error is out of memory.
    pub fn close(&mut self) -> Result<Option<PlacedParseFault>, AllocError>
        ensures { IfOk result (λ fault. IsOutcome
            (outcome_of_symbols self.old.parser self.old.count [] (closings_of_all self.old.marker.marks.open_ones)) fault self.new.outlines.items) }
    {
        self.symbols.clear();
        self.outlines.clear();
        self.marker.close(&mut self.symbols)?;
        self.parser
            .finish(self.count, &self.symbols, &mut self.outlines)
    }
}
