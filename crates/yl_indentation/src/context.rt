//! A summary of the elements before a place.
ghost use Rattle.std.specs.Prelude.{◌≡◌, ◌↔◌, ◌++◌, ◌&&◌, ◌||◌, not, nat_lt, true, IfOk, IsTrue, OnOk, reverse};
ghost use Rattle.std.specs.Option.{option_map_or, option_to_list};
ghost use Rattle.yl_lexeme.specs.Directives.{is_directive};
ghost use Rattle.yl_lexeme.specs.Lexeme.{is_document_marker};
ghost use Rattle.yl_indentation.specs.Expected.{expectation_in};
ghost use Rattle.yl_indentation.specs.declared.element.Element.TheVariants.{Other};
ghost use Rattle.yl_indentation.specs.Context.{nothing_open, is_entry_after, with_lexeme_in, with_lexeme, open_after, after, around, fact_here, fact_in};
ghost use Rattle.yl_indentation.specs.FactsAlike.{context_state, IsAbove};

use crate::element::{Element, Site};
use crate::expected::{
    begins_line, expectation_in_block, expectation_in_brackets, expectation_of_items, is_content,
};
use crate::fact::{Expectation, Fact};
use crate::fact_reader_state::FactReaderState;
use std::alloc::{AllocError, Allocator};
use std::marker::Model;
use yl_lexeme::Kind;
use yl_marks::{Collection, Token};
use yl_text::Pos;

/// An open collection.
#[derive(Clone, Copy)]
pub enum OpenCollection {
    /// A block collection: its kind, its column in characters from 0, and whether the latest of its
    /// own entries, keys and values is an entry.
    Block(Collection, u32, bool),
    /// A collection in brackets: the number of spaces at the beginning of its line, and where its
    /// items are expected.
    Brackets(u32, Expectation),
}

/// Returns whether the kinds of block collections are the same.
fn is_same_collection(one: Collection, other: Collection) -> bool
    ensures { IsTrue result ↔ (one ≡ other) }
{
    matches!(
        (one, other),
        (Collection::Sequence, Collection::Sequence) | (Collection::Mapping, Collection::Mapping)
    )
}

impl OpenCollection {
    /// Returns whether the open collections are the same.
    pub(crate) fn is_same(self, other: OpenCollection) -> bool
        ensures { IsTrue result ↔ (self ≡ other) }
    {
        match (self, other) {
            (OpenCollection::Block(a, m, one), OpenCollection::Block(b, n, other)) => {
                is_same_collection(a, b) && m == n && one == other
            }
            (OpenCollection::Brackets(m, one), OpenCollection::Brackets(n, other)) => {
                m == n && one.is_same(other)
            }
            _ => false,
        }
    }
}

/// Returns whether the latest of the entries, keys and values of a collection is an entry after a
/// lexeme of this kind. `before` says whether it is one before that lexeme.
fn is_entry_after(kind: Kind, before: bool) -> bool
    ensures { result ≡ is_entry_after kind before }
{
    match kind {
        Kind::Entry => true,
        Kind::Key | Kind::Value => false,
        _ => before,
    }
}

/// Returns the collection with a lexeme of this kind added.
fn with_lexeme_in(kind: Kind, opened: OpenCollection) -> OpenCollection
    ensures { result ≡ with_lexeme_in kind opened }
{
    match opened {
        OpenCollection::Block(collection, column, in_entries) => {
            OpenCollection::Block(collection, column, is_entry_after(kind, in_entries))
        }
        brackets => brackets,
    }
}

/// Adds a lexeme of this kind to the innermost collection. The only error is out of memory.
fn note<A: Allocator>(
    kind: Kind,
    collections: &mut Vec<OpenCollection, A>,
) -> Result<(), AllocError>
    ensures { OnOk result (reverse collections.new.items
        ≡ with_lexeme kind (reverse collections.old.items)) }
{
    if !matches!(kind, Kind::Entry | Kind::Key | Kind::Value) {
        return Ok(());
    }
    if let Some(opened) = collections.pop() {
        collections.push(with_lexeme_in(kind, opened))?;
    }
    Ok(())
}

/// Opens and closes the collections that the element opens and closes. The only error is out of
/// memory.
fn pass_open<A: Allocator>(
    element: Element,
    collections: &mut Vec<OpenCollection, A>,
) -> Result<(), AllocError>
    ensures { OnOk result (reverse collections.new.items
        ≡ open_after element (reverse collections.old.items)) }
{
    match element {
        Element::Opening(collection, column) => {
            collections.push(OpenCollection::Block(collection, column, false))?;
        }
        Element::OpeningBracket(site) => {
            let items = expectation_of_items(site);
            collections.push(OpenCollection::Brackets(site.indentation, items))?;
        }
        Element::Closing | Element::ClosingBracket(_) => {
            let _ = collections.pop();
        }
        Element::Marker(_) => collections.clear(),
        Element::Other(site) => note(site.token.kind, collections)?,
        Element::Nothing => {}
    }
    Ok(())
}

/// Returns the innermost open collection, except one that opened directly before the place.
fn around(just_opened: bool, collections: &[OpenCollection]) -> Option<OpenCollection>
    ensures { result ≡ around just_opened (reverse collections.now) }
{
    match collections {
        [outer @ .., _] if just_opened => outer.last().copied(),
        _ => collections.last().copied(),
    }
}

/// Returns where a lexeme is expected in the collection around it, or `None` if its place is not
/// checked.
fn expectation_around(
    around: Option<OpenCollection>,
    latest: Option<Token>,
    token: Token,
) -> Option<Expectation>
    ensures { result ≡ expectation_in (option_to_list around) latest token }
{
    match around {
        None => Some(Expectation::At(0)),
        Some(OpenCollection::Block(collection, column, in_entries)) => {
            expectation_in_block(collection, column, in_entries, token)
        }
        Some(OpenCollection::Brackets(indentation, items)) => {
            expectation_in_brackets(indentation, items, latest, token)
        }
    }
}

/// Returns whether the lexeme counts, begins a line, and is neither a document marker nor a
/// directive.
fn is_checked(site: Site, latest: Option<Token>) -> bool
    ensures { result ≡ (site.counts
        && not (is_document_marker site.token.kind || is_directive site.token.kind)
        && option_map_or (λ l. nat_lt l.end_line site.token.start.line) latest true) }
{
    site.counts && is_content(site.token.kind) && begins_line(site.token, latest)
}

/// A summary of the elements before a place.
#[derive(Drop)]
pub struct Context<A: Allocator> {
    /// The open collections, the outermost first.
    collections: Vec<OpenCollection, A>,
    /// The latest lexeme.
    latest: Option<Token>,
    /// Whether a block collection opened directly before the place.
    just_opened: bool,
}

impl<A: Allocator> Model for Context<A> {
    ghost use Rattle.std.specs.Prelude.{reverse};
    ghost use Rattle.yl_indentation.specs.Context.{ContextValue};

    ghost Value = { ContextValue };

    ghost view = { λ c. record {
      open_ones = reverse c.collections.items;
      latest = c.latest;
      just_opened = c.just_opened;
    } };
}

impl<A: Allocator> Context<A> {
    /// Creates a summary for the start of a document.
    pub fn new(alloc: A) -> Context<A>
        ensures { result ≡ nothing_open }
    {
        Context {
            collections: Vec::new(alloc),
            latest: None,
            just_opened: false,
        }
    }

    /// Returns the fact of a lexeme at this place, if the place is checked.
    fn fact_here(&self, site: Site) -> Option<Fact>
        ensures { option_to_list result ≡ fact_here self.now site }
    {
        if !is_checked(site, self.latest) {
            return None;
        }
        let around = around(self.just_opened, &self.collections);
        match expectation_around(around, self.latest, site.token) {
            None => None,
            Some(expectation) => Some(Fact {
                line: site.token.start.line,
                column: site.token.start.col,
                expectation,
            }),
        }
    }

    /// Appends the fact of a lexeme that is no bracket and no document marker, if its place is
    /// checked, and adds the lexeme to the summary. Most lexemes are of this sort. The only error
    /// is out of memory. After an error the context must not be used.
    pub fn read_other(&mut self, site: Site, facts: &mut Vec<Fact, A>) -> Result<(), AllocError>
        ensures facts { OnOk result (facts.new.items ≡ facts.old.items ++ fact_in self.old (Other site)) }
        ensures behind { OnOk result (self.new ≡ after (Other site) self.old) }
    {
        if let Some(fact) = self.fact_here(site) {
            facts.push(fact)?;
        }
        note(site.token.kind, &mut self.collections)?;
        self.just_opened = false;
        self.latest = Some(site.token);
        Ok(())
    }

    /// Returns the fact of an element, if it is a lexeme and its place is checked.
    pub fn fact(&self, element: Element) -> Option<Fact>
        ensures { option_to_list result ≡ fact_in self.now element }
    {
        match element {
            Element::Marker(site)
            | Element::OpeningBracket(site)
            | Element::ClosingBracket(site)
            | Element::Other(site) => self.fact_here(site),
            _ => None,
        }
    }

    /// Adds an element to the summary. The only error is out of memory. After an error the context
    /// must not be used.
    pub fn pass(&mut self, element: Element) -> Result<(), AllocError>
        ensures { OnOk result (self.new ≡ after element self.old) }
    {
        pass_open(element, &mut self.collections)?;
        self.just_opened = matches!(element, Element::Opening(_, _));
        match element {
            Element::Marker(site)
            | Element::OpeningBracket(site)
            | Element::ClosingBracket(site)
            | Element::Other(site) => self.latest = Some(site.token),
            _ => {}
        }
        Ok(())
    }
}

/// Returns a lexeme of this kind at the start of line 0.
fn in_first_line(kind: Kind) -> Token
    ensures kind { result.kind ≡ kind }
    ensures end { result.end_line ≡ 0 }
{
    Token {
        kind,
        start: Pos { line: 0, col: 0 },
        end_line: 0,
    }
}

impl<A: Allocator + Copy> Context<A> {
    /// Returns what the summary contains, without lines. The only error is out of memory.
    pub fn state(&self) -> Result<FactReaderState<A>, AllocError>
        ensures { IfOk result (λ s. s ≡ context_state self.now) }
    {
        let latest = match self.latest {
            None => None,
            Some(token) => Some(token.kind),
        };
        Ok(FactReaderState {
            collections: Vec::from_slice(*self.collections.allocator(), &self.collections)?,
            latest,
            just_opened: self.just_opened,
        })
    }

    /// Creates a summary with this state. Puts the latest lexeme into line 0. The only error is out
    /// of memory.
    pub fn resume(state: &FactReaderState<A>) -> Result<Context<A>, AllocError>
        ensures state { IfOk result (λ c. context_state c ≡ state.now) }
        ensures above { IfOk result (λ c. IsAbove 1 c) }
    {
        let latest = match state.latest {
            None => None,
            Some(kind) => Some(in_first_line(kind)),
        };
        Ok(Context {
            collections: Vec::from_slice(*state.collections.allocator(), &state.collections)?,
            latest,
            just_opened: state.just_opened,
        })
    }
}
