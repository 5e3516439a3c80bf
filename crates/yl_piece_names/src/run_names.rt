//! What is kept of a run of events to compare it with another.
ghost use Rattle.std.specs.Prelude.{◌≡◌, ◌++◌, ◌∷◌, ◌||◌, [], List, IfOk, OnOk, true, false, min, option_copied};
ghost use Rattle.yl_events.specs.Event.{EventValue, event_value, kind_value};
ghost use Rattle.yl_tree.specs.Keys.{name_of};
ghost use Rattle.yl_tree.specs.OpenNodes.{OpenNodes};
ghost use Rattle.yl_tree.specs.References.{is_reference};
ghost use Rattle.yl_open_collections.specs.OpenBy.{kinds_and_turns};
ghost use Rattle.yl_pieces.specs.KeysOfRuns.{staying};
ghost use Rattle.yl_piece_names.specs.OpeningEvents.{opened_by, with_opening};

use crate::asked_key::{AskedKey, are_same_asked, ask};
use crate::named_collections::{NamedCollections, is_end};
use crate::opening::Opening;
use std::alloc::{AllocError, Allocator};
use std::marker::Model;
use yl_events::{Event, EventKind};
use yl_lexeme::Style;

/// What is kept of a run of events to compare it with another one that begins where the same
/// collections are open: the names of its keys in the collections that are open behind it, and those
/// that it asks for. It owns the names.
#[derive(Drop)]
pub struct RunNames<A: Allocator> {
    /// The collections that are open after the events so far, with their keys of the run.
    collections: NamedCollections<A>,
    /// The least number of open collections so far.
    low: usize,
    /// The names of keys in collections that were open before the run, in the order of the events.
    asked: Vec<AskedKey<A>, A>,
    /// Whether an event has an anchor or is an alias.
    has_references: bool,
}

impl<A: Allocator> Model for RunNames<A> {
    ghost use Rattle.yl_piece_names.specs.KeptNames.{RunNamesValue};

    ghost Value = { RunNamesValue };

    ghost view = { λ r. record { collections = r.collections; low = r.low; asked = r.asked.items; has_references = r.has_references } };
}

/// Returns the value of a plain or quoted scalar, or `None` for any other event.
fn name_of<'a>(event: &Event<'a>) -> Option<&'a str>
    ensures { option_copied result ≡ name_of (event_value event.now) }
{
    match event.kind {
        EventKind::Scalar(Style::Plain | Style::Single | Style::Double, value) => Some(value),
        _ => None,
    }
}

/// Returns whether the event has an anchor or is an alias.
fn is_reference(event: &Event<'_>) -> bool
    ensures { result ≡ is_reference (event_value event.now) }
{
    event.anchor().is_some() || matches!(event.kind, EventKind::Alias(_))
}

/// Returns how many of the open collections stay open at an event.
fn staying<A: Allocator>(collections: &NamedCollections<A>, event: &Event<'_>) -> usize
    ensures { result ≡ staying (event_value event.now) collections.now }
{
    let height = collections.height();
    if is_end(&event.kind) {
        height - 1
    } else {
        height
    }
}

/// Returns the lesser of two numbers.
fn least(a: usize, b: usize) -> usize
    ensures { result ≡ min a b }
{
    if a < b { a } else { b }
}

/// Returns whether there was a reference before the event, or it is one.
fn is_referring(before: bool, event: &Event<'_>) -> bool
    ensures { result ≡ before || is_reference (event_value event.now) }
{
    before || is_reference(event)
}

/// Opens what a goal says, in these collections or not. The only error is out of memory.
fn open_one<A: Allocator + Copy>(
    collections: &mut NamedCollections<A>,
    opening: &Opening,
) -> Result<(), AllocError>
    ensures { OnOk result (collections.new ≡ with_opening opening.now collections.old) }
{
    match opening {
        Opening::Collection(is_mapping) => collections.open(*is_mapping),
        Opening::Node => {
            collections.go_back();
            Ok(())
        }
        Opening::Nothing => Ok(()),
    }
}

/// Returns the collections that are open where goals are left that say this, the innermost goal
/// last. The only error is out of memory.
fn open_collections<A: Allocator + Copy>(
    alloc: A,
    openings: &[Opening],
) -> Result<NamedCollections<A>, AllocError>
    ensures { IfOk result (λ collections. collections ≡ opened_by openings.now) }
{
    let mut collections = NamedCollections::new(alloc);
    for opening in openings {
        open_one(&mut collections, opening)?;
    }
    Ok(collections)
}

impl<A: Allocator> RunNames<A> {
    /// Returns `true` only if the same is kept of both runs, and neither has an anchor or an alias.
    pub fn is_same(&self, other: &RunNames<A>) -> bool
        ensures same { result ≡ true → self.now ≡ other.now }
        ensures none { result ≡ true → self.now.has_references ≡ false }
    {
        !self.has_references
            && !other.has_references
            && self.low == other.low
            && self.collections.is_same(&other.collections)
            && are_same_asked(&self.asked, &other.asked)
    }
}

impl<A: Allocator + Copy> RunNames<A> {
    ghost use Rattle.yl_piece_names.specs.KeptNames.{names_of_run};

    /// Begins a run, before which a parser had still to read goals that say this of the open
    /// collections, the innermost goal last. The only error is out of memory.
    pub fn begin(alloc: A, openings: &[Opening]) -> Result<RunNames<A>, AllocError>
        ensures { IfOk result (λ names. (s : OpenNodes) → kinds_and_turns s ≡ opened_by openings.now → names ≡ names_of_run s []) }
    {
        let collections = open_collections(alloc, openings)?;
        let low = collections.height();
        Ok(RunNames {
            collections,
            low,
            asked: Vec::new(alloc),
            has_references: false,
        })
    }

    /// Takes the next event. The only error is out of memory. After an error the value must not be
    /// used.
    pub fn push(&mut self, event: &Event<'_>) -> Result<(), AllocError>
        ensures { (s : OpenNodes) (es : List EventValue) → self.old ≡ names_of_run s es
            → OnOk result (self.new ≡ names_of_run s (es ++ event_value event.now ∷ [])) }
    {
        let name = name_of(event);
        ask(&self.collections, self.low, name, &mut self.asked)?;
        let left = staying(&self.collections, event);
        let low = least(self.low, left);
        let refers = is_referring(self.has_references, event);
        self.collections.take(event, name)?;
        self.low = low;
        self.has_references = refers;
        Ok(())
    }
}
