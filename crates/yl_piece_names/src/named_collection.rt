//! An open collection with the names of its keys.
ghost use Rattle.std.specs.Prelude.{◌≡◌, ◌↔◌, ◌&&◌, ◌++◌, IsTrue, OnOk, option_copied, reverse};
ghost use Rattle.std.specs.Option.{option_to_list};
ghost use Rattle.yl_tree.specs.OpenNodes.{new_collection};
ghost use Rattle.yl_open_collections.specs.OpenBy.{one_node_earlier};
ghost use Rattle.yl_piece_names.specs.KeptNames.{with_counted_node};

use crate::key_name::{KeyName, are_same_names};
use std::alloc::{AllocError, Allocator};
use std::marker::Model;

/// An open collection. Of one that is no mapping, only that it is open is kept.
#[derive(Drop)]
pub(crate) struct NamedCollection<A: Allocator> {
    /// Whether the collection is a mapping.
    is_mapping: bool,
    /// Whether its next node is a key, if it is a mapping.
    is_key_next: bool,
    /// The names of its keys, the latest last.
    keys: Vec<KeyName<A>, A>,
}

impl<A: Allocator> Model for NamedCollection<A> {
    ghost use Rattle.std.specs.Prelude.{reverse};
    ghost use Rattle.yl_tree.specs.OpenNodes.{OpenCollection};

    ghost Value = { OpenCollection };

    ghost view = { λ c. record { is_mapping = c.is_mapping; is_key_next = c.is_key_next; keys = reverse c.keys.items } };
}

/// Appends a copy of the name, if there is one. The only error is out of memory.
fn push_some<A: Allocator + Copy>(
    keys: &mut Vec<KeyName<A>, A>,
    name: Option<&str>,
) -> Result<(), AllocError>
    ensures { OnOk result (reverse keys.new.items ≡ option_to_list (option_copied name.entry) ++ reverse keys.old.items) }
{
    if let Some(name) = name {
        let alloc = *keys.allocator();
        keys.push(KeyName::of(alloc, name)?)?;
    }
    Ok(())
}

impl<A: Allocator> NamedCollection<A> {
    /// Creates a collection without nodes.
    pub(crate) fn new(alloc: A, is_mapping: bool) -> NamedCollection<A>
        ensures { result ≡ new_collection is_mapping }
    {
        NamedCollection {
            is_mapping,
            is_key_next: true,
            keys: Vec::new(alloc),
        }
    }

    /// Returns whether a key comes next in the collection.
    pub(crate) fn is_before_key(&self) -> bool
        ensures { result ≡ self.now.is_mapping && self.now.is_key_next }
    {
        self.is_mapping && self.is_key_next
    }

    /// Takes the collection back to before its latest node, of which no name was kept.
    pub(crate) fn go_back(&mut self)
        ensures { self.new ≡ one_node_earlier self.old }
    {
        if self.is_mapping {
            self.is_key_next = !self.is_key_next;
        }
    }

    /// Returns whether the two collections are equal.
    #[tactic(auto, using(crate::proofs::Reversed::same_reversed))]
    pub(crate) fn is_same(&self, other: &NamedCollection<A>) -> bool
        ensures { IsTrue result ↔ (self.now ≡ other.now) }
    {
        self.is_mapping == other.is_mapping
            && self.is_key_next == other.is_key_next
            && are_same_names(&self.keys, &other.keys)
    }
}

impl<A: Allocator + Copy> NamedCollection<A> {
    /// Takes the next node of the collection. Keeps its name, if it has one and is a key. The only
    /// error is out of memory.
    pub(crate) fn take_node(&mut self, name: Option<&str>) -> Result<(), AllocError>
        ensures { OnOk result (self.new ≡ with_counted_node (option_copied name.entry) self.old) }
    {
        if !self.is_mapping {
            return Ok(());
        }
        if self.is_key_next {
            push_some(&mut self.keys, name)?;
        }
        self.is_key_next = !self.is_key_next;
        Ok(())
    }
}

/// Returns whether the two lists of collections are equal.
pub(crate) fn are_same_collections<A: Allocator>(
    one: &[NamedCollection<A>],
    other: &[NamedCollection<A>],
) -> bool
    ensures { IsTrue result ↔ (one.now ≡ other.now) }
{
    if one.len() != other.len() {
        return false;
    }
    for (collection, expected) in one.iter().zip(other) {
        if !collection.is_same(expected) {
            return false;
        }
    }
    true
}
