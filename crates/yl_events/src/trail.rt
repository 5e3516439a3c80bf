//! What is kept of the symbols of a document to determine the kind of a fault after them.

ghost use Rattle.std.specs.Prelude.{◌≡◌, ◌≤◌, ◌↔◌, ℕ, length, take, reverse, IsTrue, OnOk, IfOk};
ghost use Rattle.yl_events.specs.Faults.{with_indentless, blocks_behind, depth_behind, without_closed, fault_in_blocks, fault_in, left_behind, front_len};
ghost use Rattle.yl_events.specs.Trail.{no_trail, trail_behind, trail_after, is_directive, anchor_behind, tag_behind, comes_twice, fault_behind, fault_from};

use crate::fault::ParseFault;
use crate::symbol::OpenBlockCollection;
use std::alloc::{AllocError, Allocator};
use std::marker::Model;
use yl_lexeme::Kind;
use yl_marks::Symbol;

/// What is kept of the symbols that were passed.
#[derive(Drop)]
pub struct Trail<A: Allocator> {
    /// Whether the latest symbol is a directive.
    at_directive: bool,
    /// Whether the properties that end with the latest symbol have an anchor.
    with_anchor: bool,
    /// Whether the properties that end with the latest symbol have a tag.
    with_tag: bool,
    /// The number of open brackets.
    depth: usize,
    /// The open block collections, the innermost last.
    blocks: Vec<OpenBlockCollection, A>,
}

impl<A: Allocator> Model for Trail<A> {
    ghost use Rattle.std.specs.Prelude.{reverse};
    ghost use Rattle.yl_events.specs.Trail.{TrailValue};

    ghost Value = { TrailValue };

    ghost view = { λ t. record {
      at_directive = t.at_directive;
      with_anchor = t.with_anchor;
      with_tag = t.with_tag;
      open_ones = record { depth = t.depth; blocks = reverse t.blocks.items };
    } };
}

impl<A: Allocator> Trail<A> {
    /// Creates the trail at the start of a document.
    pub fn new(alloc: A) -> Trail<A>
        ensures { result ≡ no_trail }
    {
        Trail {
            at_directive: false,
            with_anchor: false,
            with_tag: false,
            depth: 0,
            blocks: Vec::new(alloc),
        }
    }

    /// Returns whether the two trails are equal.
    #[tactic(auto, using(crate::proofs::States::same_reversed))]
    pub fn is_same(&self, other: &Trail<A>) -> bool
        ensures { IsTrue result ↔ self.now ≡ other.now }
    {
        self.at_directive == other.at_directive
            && self.with_anchor == other.with_anchor
            && self.with_tag == other.with_tag
            && self.depth == other.depth
            && are_same_blocks(&self.blocks, &other.blocks)
    }

    /// Forgets the symbols that were passed, and keeps the capacity.
    pub fn clear(&mut self)
        ensures { self.new ≡ no_trail }
    {
        self.at_directive = false;
        self.with_anchor = false;
        self.with_tag = false;
        self.depth = 0;
        self.blocks.clear();
    }

    /// Passes a symbol. The only error is out of memory, or more open brackets than a `usize`
    /// counts.
    pub fn pass(&mut self, symbol: Symbol) -> Result<(), AllocError>
        ensures { OnOk result (self.new ≡ trail_behind self.old symbol) }
    {
        // Most lexemes are scalars, and these open and close nothing.
        if matches!(symbol, Symbol::One(Kind::Scalar(_) | Kind::Comma, _)) {
            self.at_directive = false;
            self.with_anchor = false;
            self.with_tag = false;
            return Ok(());
        }
        let depth = depth_behind(self.depth, symbol)?;
        if matches!(symbol, Symbol::Close) || self.depth == 0 {
            blocks_behind(symbol, &mut self.blocks)?;
        }
        self.depth = depth;
        self.at_directive = matches!(symbol, Symbol::One(Kind::Directive, _));
        self.with_anchor = anchor_behind(self.with_anchor, symbol);
        self.with_tag = tag_behind(self.with_tag, symbol);
        Ok(())
    }

    /// Passes all of these symbols. The only error is out of memory, or more open brackets than a
    /// `usize` counts.
    pub fn pass_all(&mut self, symbols: &[Symbol]) -> Result<(), AllocError>
        ensures { OnOk result (self.new ≡ trail_after self.old symbols.now) }
    {
        for symbol in symbols {
            self.pass(*symbol)?;
        }
        Ok(())
    }

    /// Returns the kind of the fault, if the symbols `behind` come next, and the first lexeme among
    /// them, or the end of the document, is refused.
    pub fn fault(&self, behind: &[Symbol]) -> ParseFault
        ensures { result ≡ fault_behind self.now behind.now }
    {
        if self.at_directive {
            return ParseFault::DocumentStartExpected;
        }
        if self.comes_twice(behind) {
            return ParseFault::PropertiesGivenTwice;
        }
        if self.depth > 0 {
            return ParseFault::CommaOrBracketExpected;
        }
        let open = left_open(behind, &self.blocks);
        fault_in_blocks(&self.blocks[..open])
    }

    /// Returns whether a second anchor or tag comes next, or an alias after properties.
    fn comes_twice(&self, behind: &[Symbol]) -> bool
        ensures { result ≡ comes_twice self.now behind.now }
    {
        match behind {
            [Symbol::One(Kind::Anchor, _), ..] => self.with_anchor,
            [Symbol::One(Kind::Tag, _), ..] => self.with_tag,
            [Symbol::One(Kind::Alias, _), ..] => self.with_anchor || self.with_tag,
            _ => false,
        }
    }

    /// Returns the kind of the fault at the lexeme with this index among the symbols that come
    /// next. Passes the symbols before it. The only error is out of memory, or more open brackets
    /// than a `usize` counts.
    pub fn fault_from(&mut self, place: usize, symbols: &[Symbol]) -> Result<ParseFault, AllocError>
        ensures { IfOk result (λ f. f ≡ fault_from self.old place symbols.now) }
    {
        let n = front_len(place, symbols);
        self.pass_all(&symbols[..n])?;
        Ok(self.fault(&symbols[n..]))
    }
}

impl<A: Allocator + Copy> Trail<A> {
    /// Returns a copy of the trail. The only error is out of memory.
    pub fn try_clone(&self) -> Result<Trail<A>, AllocError>
        ensures { IfOk result (λ trail. trail ≡ self.now) }
    {
        let mut blocks = Vec::with_capacity(*self.blocks.allocator(), self.blocks.len())?;
        blocks.extend_from_slice(&self.blocks)?;
        Ok(Trail {
            at_directive: self.at_directive,
            with_anchor: self.with_anchor,
            with_tag: self.with_tag,
            depth: self.depth,
            blocks,
        })
    }
}

/// Returns whether the two lists of open block collections are equal.
fn are_same_blocks(one: &[OpenBlockCollection], other: &[OpenBlockCollection]) -> bool
    ensures { IsTrue result ↔ one.now ≡ other.now }
{
    one == other
}

/// Returns whether the properties that end with this symbol have an anchor. `had` says whether
/// those before it have one.
fn anchor_behind(had: bool, symbol: Symbol) -> bool
    ensures { result ≡ anchor_behind had symbol }
{
    match symbol {
        Symbol::One(Kind::Anchor, _) => true,
        Symbol::One(Kind::Tag, _) => had,
        _ => false,
    }
}

/// Returns whether the properties that end with this symbol have a tag. `had` says whether those
/// before it have one.
fn tag_behind(had: bool, symbol: Symbol) -> bool
    ensures { result ≡ tag_behind had symbol }
{
    match symbol {
        Symbol::One(Kind::Anchor, _) => had,
        Symbol::One(Kind::Tag, _) => true,
        _ => false,
    }
}

/// Sets whether an indentless sequence is open in the innermost block collection, if that is a
/// mapping. The only error is out of memory.
fn set_indentless<A: Allocator>(
    is_open: bool,
    blocks: &mut Vec<OpenBlockCollection, A>,
) -> Result<(), AllocError>
    ensures { OnOk result (reverse blocks.new.items ≡ with_indentless is_open (reverse blocks.old.items)) }
{
    if let Some(block) = blocks.pop() {
        let block = match block {
            OpenBlockCollection::InSequence => OpenBlockCollection::InSequence,
            OpenBlockCollection::InMapping(_) => OpenBlockCollection::InMapping(is_open),
        };
        blocks.push(block)?;
    }
    Ok(())
}

/// Updates the open block collections after a symbol. The only error is out of memory.
fn blocks_behind<A: Allocator>(
    symbol: Symbol,
    blocks: &mut Vec<OpenBlockCollection, A>,
) -> Result<(), AllocError>
    ensures { OnOk result (reverse blocks.new.items ≡ blocks_behind (reverse blocks.old.items) symbol) }
{
    match symbol {
        Symbol::OpenSequence(_) => blocks.push(OpenBlockCollection::InSequence)?,
        Symbol::OpenMapping(_) => blocks.push(OpenBlockCollection::InMapping(false))?,
        Symbol::BeginKey(_) | Symbol::One(Kind::Key | Kind::Value, _) => {
            set_indentless(false, blocks)?
        }
        Symbol::One(Kind::Entry, _) => set_indentless(true, blocks)?,
        Symbol::Close => {
            let _ = blocks.pop();
        }
        _ => {}
    }
    Ok(())
}

/// Returns the number of open brackets after a symbol. Returns `AllocError` if a `usize` cannot
/// count them.
fn depth_behind(depth: usize, symbol: Symbol) -> Result<usize, AllocError>
    ensures { IfOk result (λ d. d ≡ depth_behind depth symbol) }
{
    match symbol {
        Symbol::One(Kind::SeqOpen | Kind::MapOpen, _) => match depth.checked_add(1) {
            None => Err(AllocError),
            Some(more) => Ok(more),
        },
        Symbol::One(Kind::SeqClose | Kind::MapClose, _) => Ok(depth.saturating_sub(1)),
        _ => Ok(depth),
    }
}

/// Returns the number of these blocks that are still open after the closings with which the symbols
/// begin.
fn left_open(behind: &[Symbol], blocks: &[OpenBlockCollection]) -> usize
    ensures left { reverse (take result blocks.now) ≡ without_closed behind.now (reverse blocks.now) }
    ensures within { result ≤ length blocks.now }
{
    let mut open = blocks.len();
    for symbol in behind {
        match symbol {
            Symbol::Close => open = open.saturating_sub(1),
            _ => break,
        }
    }
    open
}

/// Returns the kind of a fault outside all brackets, if these blocks are open, the innermost last.
fn fault_in_blocks(blocks: &[OpenBlockCollection]) -> ParseFault
    ensures { result ≡ fault_in_blocks (reverse blocks.now) }
{
    match blocks {
        [] => ParseFault::SecondNode,
        [.., OpenBlockCollection::InMapping(false)] => ParseFault::KeyOrEndOfMappingExpected,
        [.., _] => ParseFault::EntryOrEndOfSequenceExpected,
    }
}

/// Returns how many of `left` lexemes are left after a symbol.
fn left_behind(symbol: Symbol, left: usize) -> usize
    ensures { result ≡ left_behind symbol left }
{
    match symbol {
        Symbol::One(_, _) => left.saturating_sub(1),
        _ => left,
    }
}

/// Returns the number of symbols up to and including the last of the first `place` lexemes.
fn front_len(place: usize, symbols: &[Symbol]) -> usize
    ensures len { result ≡ front_len place symbols.now }
    ensures within { result ≤ length symbols.now }
{
    let mut left = place;
    for (n, symbol) in symbols.iter().enumerate() {
        if left == 0 {
            return n;
        }
        left = left_behind(*symbol, left);
    }
    symbols.len()
}
