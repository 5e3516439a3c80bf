//! The machines that read a document row by row, and their states.
use crate::rows::TextRow;
use crate::told::Told;
use std::alloc::{AllocError, Allocator};
use yl_events::{SymbolParser, SymbolParserState};
use yl_indentation::{FactReader, FactReaderState};
use yl_lexeme::Meter;
use yl_lexeme_rules::{LexemeOptions, LexemeRules, LexemeRulesState};
use yl_marks::{KeyMarker, MarkerState, RowLexemes, Token, push_tokens};
use yl_text::Finding;

/// The states of the machines before a row.
#[derive(Drop)]
pub(crate) struct States<A: Allocator> {
    /// The state of the marker.
    pub(crate) marker: MarkerState<A>,
    /// The state of the parser.
    pub(crate) parser: SymbolParserState<A>,
    /// The state of the fact reader.
    pub(crate) reader: FactReaderState<A>,
    /// The state of the rules on lexemes.
    pub(crate) rules: LexemeRulesState,
}

impl<A: Allocator> States<A> {
    /// Returns which of the states are equal: those of the marker, the parser, the fact reader and
    /// the rules.
    pub(crate) fn same_ones(&self, other: &States<A>) -> [bool; 4] {
        [
            self.marker.is_same(&other.marker),
            self.parser.is_same(&other.parser),
            self.reader.is_same(&other.reader),
            self.rules.is_same(other.rules),
        ]
    }

    /// Returns `true` if all states are equal.
    pub(crate) fn are_same(&self, other: &States<A>) -> bool {
        let [marker, parser, reader, rules] = self.same_ones(other);
        marker && parser && reader && rules
    }
}

/// The machines that read a document, whose rows are given one after another.
#[derive(Drop)]
pub(crate) struct Machines<A: Allocator + Copy> {
    alloc: A,
    /// The marker.
    pub(crate) marker: KeyMarker<A>,
    /// The parser.
    pub(crate) parser: SymbolParser<A>,
    /// The fact reader.
    pub(crate) reader: FactReader<A>,
    /// The rules on lexemes.
    pub(crate) rules: LexemeRules,
    // The index of the next lexeme.
    first: usize,
    // The number of open brackets.
    depth: usize,
    // The line of the next row.
    line: u32,
}

impl<A: Allocator + Copy> Machines<A> {
    /// Creates machines at the start of a document. The only error is out of memory.
    pub(crate) fn start(alloc: A) -> Result<Machines<A>, AllocError> {
        let mut parser = SymbolParser::new(alloc);
        parser.begin(&mut Vec::new(alloc), &mut Meter::new())?;
        Ok(Machines {
            alloc,
            marker: KeyMarker::new(alloc),
            parser,
            reader: FactReader::new(alloc),
            rules: LexemeRules::new(),
            first: 0,
            depth: 0,
            line: 0,
        })
    }

    /// Creates machines that go on from these states. Their next row is at line 1, and they count
    /// lexemes from the number of open brackets on. The only error is out of memory.
    pub(crate) fn resumed(&self, states: &States<A>) -> Result<Machines<A>, AllocError> {
        Ok(Machines {
            alloc: self.alloc,
            marker: KeyMarker::resume(&states.marker)?,
            parser: SymbolParser::resume(&states.parser)?,
            reader: FactReader::resume(&states.reader)?,
            rules: LexemeRules::resume(states.rules),
            first: self.depth,
            depth: self.depth,
            line: 1,
        })
    }

    /// Returns the states of the machines. The only error is out of memory.
    pub(crate) fn states(&self) -> Result<States<A>, AllocError> {
        Ok(States {
            marker: self.marker.state()?,
            parser: self.parser.state()?,
            reader: self.reader.state()?,
            rules: self.rules.state(),
        })
    }

    // Returns what is said of the next row before it is read: nothing.
    fn nothing_told(&self) -> Told<A> {
        Told {
            first: self.first,
            line: self.line,
            symbols: Vec::new(self.alloc),
            keys: Vec::new(self.alloc),
            outlines: Vec::new(self.alloc),
            facts: Vec::new(self.alloc),
            findings: Vec::new(self.alloc),
        }
    }

    // Marks and parses a row. The only error is out of memory, which also stands for a fault, since
    // no document here has one.
    #[tactic(auto, using(yl_events::proofs::Counts::line_whole))]
    fn parse(&mut self, line: &[Token], told: &mut Told<A>) -> Result<(), AllocError> {
        let mut symbols = Vec::new(self.alloc);
        self.marker.read(line, &mut symbols, &mut told.keys)?;
        let fault = self.parser.feed(self.first, &symbols, &mut told.outlines)?;
        told.symbols = symbols;
        match fault {
            None => Ok(()),
            Some(_) => Err(AllocError),
        }
    }

    // Gives a row to the rules on lexemes. The only error is out of memory.
    fn judge(&mut self, row: &RowLexemes<'_, A>, told: &mut Told<A>) -> Result<(), AllocError> {
        if told.keys.len() != row.lexemes.len() {
            return Err(AllocError);
        }
        let options = LexemeOptions::standard();
        self.rules
            .read_row(&options, row, &told.keys, &mut told.findings)
    }

    // Gives a row that begins with `indentation` spaces to the fact reader. The only error is out
    // of memory.
    fn check(
        &mut self,
        line: &[Token],
        indentation: u32,
        told: &mut Told<A>,
    ) -> Result<(), AllocError> {
        let counted = usize::MAX;
        self.reader.read_line(
            line,
            self.first,
            &told.symbols,
            counted,
            indentation,
            &mut told.facts,
        )
    }

    // Counts the lexemes and the brackets of a row, and its line.
    fn pass(&mut self, line: &[Token]) {
        for token in line {
            if token.kind.is_opening() {
                self.depth = self.depth.saturating_add(1);
            }
            if token.kind.is_closing() {
                self.depth = self.depth.saturating_sub(1);
            }
        }
        self.first = self.first.saturating_add(line.len());
        self.line = self.line.saturating_add(1);
    }

    /// Reads the next row, and returns what the machines say of it.
    pub(crate) fn read(&mut self, row: &TextRow<A>) -> Result<Told<A>, AllocError> {
        let lexemes = RowLexemes {
            line: self.line,
            lexemes: &row.lexemes,
        };
        let mut tokens = Vec::new(self.alloc);
        push_tokens(&lexemes, &mut tokens)?;
        let mut told = self.nothing_told();
        self.parse(&tokens, &mut told)?;
        self.judge(&lexemes, &mut told)?;
        self.check(&tokens, row.indentation, &mut told)?;
        self.pass(&tokens);
        Ok(told)
    }

    /// Reads the next rows.
    pub(crate) fn read_all(&mut self, rows: &[TextRow<A>]) -> Result<(), AllocError> {
        for row in rows {
            let _ = self.read(row)?;
        }
        Ok(())
    }

    /// Creates machines that have read these rows.
    pub(crate) fn behind(alloc: A, rows: &[TextRow<A>]) -> Result<Machines<A>, AllocError> {
        let mut machines = Machines::start(alloc)?;
        machines.read_all(rows)?;
        Ok(machines)
    }

    /// Returns `true` if these are the states of the machines.
    pub(crate) fn hold(&self, states: &States<A>) -> Result<bool, AllocError> {
        let own = self.states()?;
        Ok(own.are_same(states))
    }

    /// Returns `true` if other machines have the same states.
    pub(crate) fn hold_same(&self, other: &Machines<A>) -> Result<bool, AllocError> {
        let states = other.states()?;
        self.hold(&states)
    }

    /// Reads the next row with both machines. Returns `true` if both say the same of it.
    pub(crate) fn tell_same(
        &mut self,
        other: &mut Machines<A>,
        row: &TextRow<A>,
    ) -> Result<bool, AllocError> {
        let told = self.read(row)?;
        let others = other.read(row)?;
        Ok(told.is_same(&others))
    }

    /// Ends the document with both machines. Returns `true` if both say the same of its end.
    pub(crate) fn end_same(&mut self, other: &mut Machines<A>) -> Result<bool, AllocError> {
        let told = self.finish()?;
        let others = other.finish()?;
        Ok(told.is_same(&others))
    }

    /// Returns the findings of the rules on lexemes that wait at the latest lexeme.
    pub(crate) fn settle(&mut self) -> Result<Vec<Finding<A>, A>, AllocError> {
        let mut findings = Vec::new(self.alloc);
        self.rules
            .settle(&LexemeOptions::standard(), &mut findings)?;
        Ok(findings)
    }

    // Ends the document. The only error is out of memory, which also stands for a fault.
    fn end(&mut self, told: &mut Told<A>) -> Result<(), AllocError> {
        self.marker.close(&mut told.symbols)?;
        let fault = self
            .parser
            .finish(self.first, &told.symbols, &mut told.outlines)?;
        self.rules
            .finish(&LexemeOptions::standard(), &mut told.findings)?;
        match fault {
            None => Ok(()),
            Some(_) => Err(AllocError),
        }
    }

    /// Ends the document, and returns what the machines say of its end.
    pub(crate) fn finish(&mut self) -> Result<Told<A>, AllocError> {
        let mut told = self.nothing_told();
        self.end(&mut told)?;
        Ok(told)
    }
}
