//! A parser of documents that are given symbol by symbol.

ghost use Rattle.std.specs.Prelude.{◌≡◌, ◌≤◌, ◌<◌, ◌++◌, ◌+◌, ◌-◌, ◌^◌, true, reverse, None, Some, OnOk, IfOk, IfSome};
ghost use Rattle.yl_events.specs.Derives.{lexeme_count};
ghost use Rattle.yl_events.specs.DocumentOutcome.{AnswersDocument, steps};
ghost use Rattle.yl_events.specs.Named.{anchor_among, waiting_anchor};
ghost use Rattle.yl_events.specs.Machine.{run, taken_count};
ghost use Rattle.yl_events.specs.Parsing.{start_events, IsOutcome};
ghost use Rattle.yl_events.specs.State.{parser_state};
ghost use Rattle.yl_events.specs.SymbolParsing.{no_symbols, symbols_at_start, outcome_of_symbols, is_whole, FeedsSymbols};
ghost use Rattle.yl_events.specs.Trail.{fault_from, trail_after};

use crate::fault::PlacedParseFault;
use crate::machine::{bare, finish, walk};
use crate::symbol::{Goal, Outline, Properties, Shape, Where};
use crate::symbol_parser_state::SymbolParserState;
use crate::trail::Trail;
use std::alloc::{AllocError, Allocator};
use std::marker::Model;
use yl_lexeme::Meter;
use yl_marks::Symbol;

/// A parser of documents, given some symbols at a time, that appends the outlines of their events.
/// Of what was fed, it holds only what the rest of the document depends on. It may be used for
/// several documents, one after another.
#[derive(Drop)]
pub struct SymbolParser<A: Allocator> {
    /// What is still to be read, the innermost goal last.
    goals: Vec<Goal, A>,
    /// What determines the kind of the next fault.
    trail: Trail<A>,
}

impl<A: Allocator> Model for SymbolParser<A> {
    ghost use Rattle.std.specs.Prelude.{reverse};
    ghost use Rattle.yl_events.specs.SymbolParsing.{SymbolParserValue};

    ghost Value = { SymbolParserValue };

    ghost view = { λ p. record { goals = reverse p.goals.items; trail = p.trail } };
}

impl<A: Allocator + Copy> SymbolParser<A> {
    /// Creates a parser in which no document has begun. It refuses every lexeme until `begin` is
    /// called.
    pub fn new(alloc: A) -> SymbolParser<A>
        ensures { result ≡ no_symbols }
    {
        SymbolParser {
            goals: Vec::new(alloc),
            trail: Trail::new(alloc),
        }
    }

    /// Creates a parser in this state, which takes the rest of the document from the state's row
    /// on. An anchor that waits for its node has the index 0. The only error is out of memory.
    #[tactic(auto, using(crate::proofs::States::state_again))]
    pub fn resume(state: &SymbolParserState<A>) -> Result<SymbolParser<A>, AllocError>
        ensures same { IfOk result (λ parser. parser ≡ state.now) }
        ensures state { IfOk result (λ parser. parser_state parser ≡ state.now) }
    {
        let saved = state.goals();
        let mut goals = Vec::with_capacity(*saved.allocator(), saved.len())?;
        goals.extend_from_slice(saved)?;
        let trail = state.trail().try_clone()?;
        Ok(SymbolParser { goals, trail })
    }

    /// Begins a document, appends its first outline, and counts it in the meter, also after an
    /// error. Forgets the symbols before, and keeps the capacity. The only error is out of memory.
    pub fn begin(
        &mut self,
        outlines: &mut Vec<Outline, A>,
        meter: &mut Meter,
    ) -> Result<(), AllocError>
        requires { meter.old.documents < 2 ^ 32 - 1 }
        ensures start { OnOk result (self.new ≡ symbols_at_start) }
        ensures told { OnOk result (outlines.new.items ≡ outlines.old.items ++ start_events) }
        ensures counted { meter.new ≡ record meter.old { documents = meter.old.documents + 1 } }
    {
        meter.documents += 1;
        self.trail.clear();
        self.goals.clear();
        self.goals.extend_from_slice(&[
            Goal::Ending,
            Goal::Formed(Where::InBlock(false), None),
            Goal::Prefix,
        ])?;
        outlines.push(bare(Shape::DocumentStart, None))?;
        Ok(())
    }

    /// Takes the next symbols of the document, and appends their outlines. No mark may come after
    /// the last lexeme among them. Returns the document's fault, if these symbols imply one
    /// whatever follows. `first` is the number of lexemes before them. The only error is out of
    /// memory, or more lexemes than a `usize` counts. After a fault or an error, `begin` must be
    /// called next.
    #[tactic(auto, using(crate::proofs::Lines::fed_all))]
    pub fn feed(
        &mut self,
        first: usize,
        symbols: &[Symbol],
        outlines: &mut Vec<Outline, A>,
    ) -> Result<Option<PlacedParseFault>, AllocError>
        requires { is_whole true symbols.now ≡ true }
        ensures told { IfOk result (λ fault. FeedsSymbols self.old first outlines.old.items symbols.now fault self.new outlines.new.items) }
        ensures inside { IfOk result (λ fault. IfSome fault (λ f. (first ≤ f.place) × (f.place < first + lexeme_count symbols.now))) }
        ensures steps { IfOk result (λ fault. fault ≡ None → steps symbols.now self.old.goals outlines.old.items ≡ Some (record { goals = self.new.goals; events = outlines.new.items })) }
        ensures trail { IfOk result (λ fault. fault ≡ None → self.new.trail ≡ trail_after self.old.trail symbols.now) }
    {
        match walk(symbols, &mut self.goals, outlines)? {
            None => {
                self.trail.pass_all(symbols)?;
                Ok(None)
            }
            Some(place) => {
                let fault = fault_at(&mut self.trail, first, place, symbols)?;
                Ok(Some(fault))
            }
        }
    }

    /// Returns what the parser holds, without the indices of lexemes. The only error is out of
    /// memory.
    pub fn state(&self) -> Result<SymbolParserState<A>, AllocError>
        ensures { IfOk result (λ state. state ≡ parser_state self.now) }
    {
        SymbolParserState::new(*self.goals.allocator(), &self.goals, &self.trail)
    }

    /// Returns the anchor that waits for its node, if there is one, as its index among the lexemes
    /// of the document.
    pub fn waiting(&self) -> Option<u32>
        ensures { result ≡ waiting_anchor self.now.goals }
    {
        match &self.goals[..] {
            [.., Goal::Formed(_, properties)] => anchor_among(*properties),
            _ => None,
        }
    }

    /// Ends the document with these symbols: appends the last of its outlines, or returns its
    /// fault. `first` is the number of lexemes before the symbols. The only error is out of memory,
    /// or more lexemes than a `usize` counts. After this call `begin` must be called next.
    #[tactic(auto, using(crate::proofs::Lines::all_told, crate::proofs::Lines::fault_told))]
    pub fn finish(
        &mut self,
        first: usize,
        symbols: &[Symbol],
        outlines: &mut Vec<Outline, A>,
    ) -> Result<Option<PlacedParseFault>, AllocError>
        ensures { IfOk result (λ fault. IsOutcome (outcome_of_symbols self.old first outlines.old.items symbols.now) fault outlines.new.items) }
    {
        match take_document(symbols, &mut self.goals, outlines)? {
            None => {
                outlines.push(bare(Shape::DocumentEnd, None))?;
                Ok(None)
            }
            Some(place) => {
                let fault = fault_at(&mut self.trail, first, place, symbols)?;
                Ok(Some(fault))
            }
        }
    }
}

/// Returns the anchor among the properties, if there is one.
fn anchor_among(properties: Option<Properties>) -> Option<u32>
    ensures { result ≡ anchor_among properties }
{
    match properties {
        None | Some(Properties::Tagged(_)) => None,
        Some(Properties::Anchored(anchor))
        | Some(Properties::AnchoredTagged(anchor, _))
        | Some(Properties::TaggedAnchored(_, anchor)) => Some(anchor),
    }
}

/// Returns the fault at the lexeme with the index `place` among these symbols, before which the
/// document has `first` lexemes. The only error is out of memory, or more lexemes than a `usize`
/// counts.
fn fault_at<A: Allocator>(
    trail: &mut Trail<A>,
    first: usize,
    place: usize,
    symbols: &[Symbol],
) -> Result<PlacedParseFault, AllocError>
    ensures { IfOk result (λ f. f ≡ record { kind = fault_from trail.old place symbols.now; place = first + place }) }
{
    let kind = trail.fault_from(place, symbols)?;
    let Some(place) = first.checked_add(place) else {
        return Err(AllocError);
    };
    Ok(PlacedParseFault { kind, place })
}

/// Returns the number of lexemes among the symbols.
fn lexeme_count(symbols: &[Symbol]) -> usize
    ensures { result ≡ lexeme_count symbols.now }
{
    let mut count = 0usize;
    for symbol in symbols {
        if let Symbol::One(_, _) = symbol {
            count += 1;
        }
    }
    count
}

/// Takes the last symbols of a document, and then leaves all goals. Returns `None`, or the number
/// of lexemes that are taken before the fault. The only error is out of memory.
fn take_document<A: Allocator>(
    symbols: &[Symbol],
    goals: &mut Vec<Goal, A>,
    outlines: &mut Vec<Outline, A>,
) -> Result<Option<usize>, AllocError>
    ensures { IfOk result (λ place. AnswersDocument (run symbols.now (reverse goals.old.items) outlines.old.items)
        (taken_count symbols.now (reverse goals.old.items) outlines.old.items) place outlines.new.items) }
{
    match walk(symbols, goals, outlines)? {
        None => {
            if finish(goals, outlines)? {
                return Ok(None);
            }
            Ok(Some(lexeme_count(symbols)))
        }
        Some(place) => Ok(Some(place)),
    }
}
