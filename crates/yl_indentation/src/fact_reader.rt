//! Reads the checked places of a document line by line.
ghost use Rattle.std.specs.Prelude.{◌≡◌, ◌≤◌, ◌<◌, ◌+◌, ◌++◌, ℕ, List, length, IfOk, OnOk};
ghost use Rattle.yl_indentation.specs.Context.{nothing_open};
ghost use Rattle.yl_indentation.specs.FactsAlike.{context_state, FactsAreAlike, IsAbove};
ghost use Rattle.yl_indentation.specs.LineFacts.{element_in_line, AreIndented, IsLine, NameIndices};
ghost use Rattle.yl_indentation.specs.SymbolFacts.{after_if, behind_symbols, facts_if, facts_left, CountedAsFarAsAsked, FactsAreBySymbols, FactsGoOn, NoneBehindTheCounted};

use crate::context::Context;
use crate::element::element_in_line;
use crate::fact::Fact;
use crate::fact_reader_state::FactReaderState;
use crate::facts::push_fact;
use std::alloc::{AllocError, Allocator};
use std::marker::Model;
use yl_marks::{Symbol, Token};

/// A reader that takes the symbols of a document, line by line, and finds its checked places. It
/// keeps a summary of the symbols read so far.
#[derive(Drop)]
pub struct FactReader<A: Allocator> {
    context: Context<A>,
}

impl<A: Allocator> Model for FactReader<A> {
    ghost use Rattle.yl_indentation.specs.Context.{ContextValue};

    ghost Value = { ContextValue };

    ghost view = { λ r. r.context };
}

impl<A: Allocator> FactReader<A> {
    /// Creates a reader at the start of a document.
    pub fn new(alloc: A) -> FactReader<A>
        ensures { result ≡ nothing_open }
    {
        FactReader {
            context: Context::new(alloc),
        }
    }

    /// Reads one symbol of a line. The only error is out of memory.
    fn read_symbol_of_line(
        &mut self,
        line: &[Token],
        first: usize,
        symbol: Symbol,
        counted: usize,
        indentation: u32,
        facts: &mut Vec<Fact, A>,
    ) -> Result<(), AllocError>
        ensures facts { OnOk result (facts.new.items ≡ facts.old.items
            ++ facts_if self.old (element_in_line line.now first counted indentation symbol)) }
        ensures after { OnOk result (self.new
            ≡ after_if (element_in_line line.now first counted indentation symbol) self.old) }
    {
        match element_in_line(line, first, counted, indentation, symbol) {
            None => Ok(()),
            Some(element) => push_fact(element, &mut self.context, facts),
        }
    }

    /// Reads the next symbols of the document, all of which are in one line, and appends the
    /// checked places among them, with what is expected there. Needs only the tokens of that line.
    /// `first` is the number of lexemes before the line, the first `counted` lexemes of the
    /// document count, and the line begins with `indentation` spaces. The only error is out of
    /// memory. After an error the reader must not be used.
    pub fn read_line(
        &mut self,
        line: &[Token],
        first: usize,
        symbols: &[Symbol],
        counted: usize,
        indentation: u32,
        facts: &mut Vec<Fact, A>,
    ) -> Result<(), AllocError>
        ensures facts { (tokens : List Token) (indentations : List ℕ)
            → IsLine tokens first line.now
            → AreIndented indentations indentation line.now
            → NameIndices (λ i. (first ≤ i) × (i < first + length line.now)) symbols.now
            → OnOk result (facts.new.items ≡ facts.old.items ++ facts_left self.old tokens counted indentations symbols.now) }
        ensures after { (tokens : List Token) (indentations : List ℕ)
            → IsLine tokens first line.now
            → AreIndented indentations indentation line.now
            → NameIndices (λ i. (first ≤ i) × (i < first + length line.now)) symbols.now
            → OnOk result (self.new ≡ behind_symbols tokens indentations self.old symbols.now) }
    {
        for symbol in symbols {
            self.read_symbol_of_line(line, first, *symbol, counted, indentation, facts)?;
        }
        Ok(())
    }
}

impl<A: Allocator + Copy> FactReader<A> {
    /// Returns what the reader holds, without lines. The only error is out of memory.
    pub fn state(&self) -> Result<FactReaderState<A>, AllocError>
        ensures { IfOk result (λ s. s ≡ context_state self.now) }
    {
        self.context.state()
    }

    /// Creates a reader that goes on from a state. Puts the latest lexeme into line 0, so the lines
    /// to be read count from 1. The only error is out of memory.
    pub fn resume(state: &FactReaderState<A>) -> Result<FactReader<A>, AllocError>
        ensures state { IfOk result (λ r. context_state r ≡ state.now) }
        ensures above { IfOk result (λ r. IsAbove 1 r) }
    {
        Ok(FactReader {
            context: Context::resume(state)?,
        })
    }
}

/// Laws: the facts of a document are those of its symbols, one after another. Of the index of a
/// lexeme only one thing matters, which is whether it is below `counted`. Lexemes from the index
/// `counted` on have no facts.
pub fn facts_are_by_symbols()
    ensures all { FactsAreBySymbols }
    ensures go_on { FactsGoOn }
    ensures counted { CountedAsFarAsAsked }
    ensures none { NoneBehindTheCounted }
{}

/// A law: the facts of rows, and what the reader holds after them, depend on the state before them,
/// but on no line numbers and on no counts of lexemes.
pub fn facts_are_alike()
    ensures { FactsAreAlike }
{}
