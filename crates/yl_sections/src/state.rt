//! What the judge of a document holds before a row.

use crate::row_rules::{RowRules, RulesState};
use std::alloc::{AllocError, Allocator};
use std::marker::Model;
use yl_events::SymbolParserState;
use yl_indentation::{FactReader, FactReaderState};
use yl_marks::{KeyMarker, MarkerState};

/// What the judge of a document holds before a row, without lines and counts.
#[derive(Drop)]
pub struct DocumentState<A: Allocator> {
    /// What the marker holds.
    pub(crate) marker: MarkerState<A>,
    /// What the parser holds.
    pub(crate) parser: SymbolParserState<A>,
    /// What the rule indentation holds.
    pub(crate) context: FactReaderState<A>,
    /// What the rules on lexemes hold.
    pub(crate) lexemes: RulesState,
}

impl<A: Allocator> Model for DocumentState<A> {
    ghost use Rattle.yl_sections.specs.State as spec;

    ghost Value = { spec.DocumentState };

    ghost view = { λ s. record { marker = s.marker; parser = s.parser; context = s.context; lexemes = s.lexemes } };
}

impl<A: Allocator> DocumentState<A> {
    ghost use Rattle.std.specs.Prelude.{◌≡◌, true, IsTrue};
    ghost use Rattle.yl_sections.specs.State.{is_border};

    /// Returns whether two states are equal.
    pub fn is_same(&self, other: &DocumentState<A>) -> bool
        ensures same { IsTrue result → self.now ≡ other.now }
        ensures alike { self.now ≡ other.now → result ≡ true }
    {
        self.marker.is_same(&other.marker)
            && self.parser.is_same(&other.parser)
            && self.context.is_same(&other.context)
            && self.lexemes.is_same(&other.lexemes)
    }

    /// Returns what the parser holds.
    pub fn parser(&self) -> &SymbolParserState<A>
        ensures { result.now ≡ self.now.parser }
    {
        &self.parser
    }

    /// Returns whether rows may begin a piece after this state: the latest lexeme is no opening
    /// bracket, and the directives have ended.
    pub fn is_border(&self) -> bool
        ensures { result ≡ is_border self.now }
    {
        self.lexemes.is_border()
    }
}

impl<A: Allocator + Copy> DocumentState<A> {
    ghost use Rattle.std.specs.Prelude.{◌≡◌, IfOk};
    ghost use Rattle.yl_sections.specs.State.{start_state};

    /// Returns the state at the start of a document. The only error is out of memory.
    pub fn start(alloc: A) -> Result<DocumentState<A>, AllocError>
        ensures { IfOk result (λ s. s ≡ start_state) }
    {
        let marker = KeyMarker::new(alloc).state()?;
        let parser = SymbolParserState::start(alloc)?;
        let context = FactReader::new(alloc).state()?;
        let lexemes = RowRules::new().state();
        Ok(DocumentState {
            marker,
            parser,
            context,
            lexemes,
        })
    }
}
