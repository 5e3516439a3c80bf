//! The open collections of a run with the names of their keys.
ghost use Rattle.std.specs.Prelude.{◌≡◌, ◌↔◌, ◌+◌, [], ◌∷◌, IsTrue, OnOk, option_copied, reverse};
ghost use Rattle.yl_events.specs.Event.{event_value, kind_value};
ghost use Rattle.yl_tree.specs.Keys.{is_collection_end, is_collection_start, is_mapping_start, name_of};
ghost use Rattle.yl_tree.specs.OpenNodes.{OpenNodes, closed, collections_behind, opened, with_event};
ghost use Rattle.yl_open_collections.specs.Counted.{what_counts};
ghost use Rattle.yl_open_collections.specs.OpenBy.{before_a_node};
ghost use Rattle.yl_pieces.specs.KeysOfRuns.{height, is_before_key};
ghost use Rattle.yl_piece_names.specs.KeptNames.{with_counted_node};

use crate::named_collection::{NamedCollection, are_same_collections};
use std::alloc::{AllocError, Allocator};
use std::marker::Model;
use std::mem;
use yl_events::{Event, EventKind};

/// The open collections. The document itself counts as a collection.
#[derive(Drop)]
pub(crate) struct NamedCollections<A: Allocator> {
    /// The innermost one.
    innermost: NamedCollection<A>,
    /// The others, the outermost first.
    outer: Vec<NamedCollection<A>, A>,
}

impl<A: Allocator> Model for NamedCollections<A> {
    ghost use Rattle.std.specs.Prelude.{reverse};
    ghost use Rattle.yl_tree.specs.OpenNodes.{OpenNodes};

    ghost Value = { OpenNodes };

    ghost view = { λ c. record { innermost = c.innermost; outer = reverse c.outer.items } };
}

/// Returns whether the event ends a collection.
pub(crate) fn is_end(kind: &EventKind<'_>) -> bool
    ensures { result ≡ is_collection_end (kind_value kind.now) }
{
    matches!(kind, EventKind::SequenceEnd | EventKind::MappingEnd)
}

/// Returns whether the event starts a collection.
fn is_start(kind: &EventKind<'_>) -> bool
    ensures { result ≡ is_collection_start (kind_value kind.now) }
{
    matches!(kind, EventKind::SequenceStart | EventKind::MappingStart)
}

/// Returns whether the event starts a mapping.
fn is_mapping_start(kind: &EventKind<'_>) -> bool
    ensures { result ≡ is_mapping_start (kind_value kind.now) }
{
    matches!(kind, EventKind::MappingStart)
}

impl<A: Allocator> NamedCollections<A> {
    /// Returns how many collections are open.
    pub(crate) fn height(&self) -> usize
        ensures { result ≡ height self.now }
    {
        self.outer.len() + 1
    }

    /// Returns whether a key comes next in the innermost collection.
    pub(crate) fn is_before_key(&self) -> bool
        ensures { result ≡ is_before_key self.now }
    {
        self.innermost.is_before_key()
    }

    /// Takes the innermost collection back to before its latest node, of which no name was kept.
    pub(crate) fn go_back(&mut self)
        ensures { self.new ≡ before_a_node self.old }
    {
        self.innermost.go_back();
    }

    /// Returns whether the open collections are equal.
    #[tactic(auto, using(crate::proofs::Reversed::same_reversed))]
    pub(crate) fn is_same(&self, other: &NamedCollections<A>) -> bool
        ensures { IsTrue result ↔ (self.now ≡ other.now) }
    {
        self.innermost.is_same(&other.innermost) && are_same_collections(&self.outer, &other.outer)
    }
}

impl<A: Allocator + Copy> NamedCollections<A> {
    /// Creates the collections that are open at the start of a document.
    pub(crate) fn new(alloc: A) -> NamedCollections<A>
        ensures { result ≡ collections_behind [] }
    {
        NamedCollections {
            innermost: NamedCollection::new(alloc, false),
            outer: Vec::new(alloc),
        }
    }

    /// Opens a collection in the innermost one. The only error is out of memory.
    pub(crate) fn open(&mut self, is_mapping: bool) -> Result<(), AllocError>
        ensures { OnOk result (self.new ≡ opened is_mapping self.old) }
    {
        self.outer.reserve(1)?;
        let alloc = *self.outer.allocator();
        let around = mem::replace(&mut self.innermost, NamedCollection::new(alloc, is_mapping));
        self.outer.push_reserved(around);
        Ok(())
    }

    /// Closes the innermost collection.
    fn close(&mut self)
        ensures { self.new ≡ closed self.old }
    {
        let alloc = *self.outer.allocator();
        self.innermost = match self.outer.pop() {
            Some(collection) => collection,
            None => NamedCollection::new(alloc, false),
        };
    }

    /// Takes the next node of the innermost collection. Keeps its name, if it has one and is a key.
    /// The only error is out of memory.
    fn take_node(&mut self, name: Option<&str>) -> Result<(), AllocError>
        ensures { OnOk result (self.new ≡ record self.old { innermost = with_counted_node (option_copied name.entry) self.old.innermost }) }
    {
        self.innermost.take_node(name)
    }

    /// Takes the next event, which has this name, if it has one. The only error is out of memory.
    pub(crate) fn take(&mut self, event: &Event<'_>, name: Option<&str>) -> Result<(), AllocError>
        requires { option_copied name ≡ name_of (event_value event.now) }
        ensures { (s : OpenNodes) → self.old ≡ what_counts s → OnOk result (self.new ≡ what_counts (with_event (event_value event.now) s)) }
    {
        if is_end(&event.kind) {
            self.close();
            return Ok(());
        }
        self.take_node(name)?;
        if is_start(&event.kind) {
            self.open(is_mapping_start(&event.kind))?;
        }
        Ok(())
    }
}
