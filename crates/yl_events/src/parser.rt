//! A parser of documents that are given line by line.

ghost use Rattle.std.specs.Prelude.{◌≡◌, [], ◌++◌, ◌+◌, ◌<◌, ◌-◌, ◌^◌, OnOk, IfOk};
ghost use Rattle.yl_events.specs.Parsing.{no_document, parser_at_start, start_events, document_outcome_of_lines, Feeds, IsOutcome};

use crate::fault::PlacedParseFault;
use crate::symbol::Outline;
use crate::symbol_parser::SymbolParser;
use std::alloc::{AllocError, Allocator};
use std::marker::Model;
use yl_lexeme::Meter;
use yl_marks::{Marker, Symbol, Token};

/// A parser of documents, given line by line, that appends the outlines of their events. Of what
/// was fed, it holds only what the rest of the document depends on. It may be used for several
/// documents, one after another.
#[derive(Drop)]
pub struct Parser<A: Allocator + Copy> {
    marker: Marker<A>,
    parser: SymbolParser<A>,
    /// The symbols of the latest line. Kept for its capacity.
    symbols: Vec<Symbol, A>,
}

impl<A: Allocator + Copy> Model for Parser<A> {
    ghost use Rattle.yl_events.specs.Parsing.{ParserValue};

    ghost Value = { ParserValue };

    ghost view = { λ p. record { marks = p.marker; goals = p.parser.goals; trail = p.parser.trail } };
}

impl<A: Allocator + Copy> Parser<A> {
    /// Creates a parser in which no document has begun. It refuses every lexeme until `begin` is
    /// called.
    pub fn new(alloc: A) -> Parser<A>
        ensures { result ≡ no_document }
    {
        Parser {
            marker: Marker::new(alloc),
            parser: SymbolParser::new(alloc),
            symbols: Vec::new(alloc),
        }
    }

    /// Begins a document, appends its first outline, and counts it in the meter, also after an
    /// error. Forgets the lines before, and keeps the capacity. The only error is out of memory.
    pub fn begin(
        &mut self,
        outlines: &mut Vec<Outline, A>,
        meter: &mut Meter,
    ) -> Result<(), AllocError>
        requires { meter.old.documents < 2 ^ 32 - 1 }
        ensures start { OnOk result (self.new ≡ parser_at_start) }
        ensures told { OnOk result (outlines.new.items ≡ outlines.old.items ++ start_events) }
        ensures counted { meter.new ≡ record meter.old { documents = meter.old.documents + 1 } }
    {
        self.marker.clear();
        self.parser.begin(outlines, meter)
    }

    /// Returns the number of lexemes of the document that were fed.
    pub fn count(&self) -> usize
        ensures { result ≡ self.now.marks.count }
    {
        self.marker.count()
    }

    /// Takes all lexemes that begin in the next line of the document, and appends their outlines.
    /// Returns the document's fault, if these lexemes imply one whatever follows. The only error is
    /// out of memory, or more lexemes than a `u32` counts. After a fault or an error, `begin` must
    /// be called next.
    #[tactic(auto, using(crate::proofs::Counts::line_whole, crate::proofs::Lines::fed_line))]
    pub fn feed(
        &mut self,
        line: &[Token],
        outlines: &mut Vec<Outline, A>,
    ) -> Result<Option<PlacedParseFault>, AllocError>
        ensures { IfOk result (λ fault. Feeds self.old outlines.old.items line.now fault self.new outlines.new.items) }
    {
        let first = self.marker.count();
        self.symbols.clear();
        self.marker.read(line, &mut self.symbols)?;
        self.parser.feed(first, &self.symbols, outlines)
    }

    /// Ends the document: appends the last of its outlines, or returns its fault. The only error is
    /// out of memory. After this call `begin` must be called next.
    pub fn finish(
        &mut self,
        outlines: &mut Vec<Outline, A>,
    ) -> Result<Option<PlacedParseFault>, AllocError>
        ensures { IfOk result (λ fault. IsOutcome (document_outcome_of_lines self.old outlines.old.items []) fault outlines.new.items) }
    {
        self.symbols.clear();
        self.marker.close(&mut self.symbols)?;
        let count = self.marker.count();
        self.parser.finish(count, &self.symbols, outlines)
    }
}
