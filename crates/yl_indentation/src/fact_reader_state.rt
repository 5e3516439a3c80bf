//! What a `FactReader` holds before a row.
ghost use Rattle.std.specs.Prelude.{◌≡◌, ◌↔◌, true, IsTrue};

use crate::context::OpenCollection;
use std::alloc::Allocator;
use std::marker::Model;
use yl_lexeme::Kind;

/// What a `FactReader` holds before a row, without lines: the open collections, the kind of the
/// latest lexeme, and whether a block collection opened directly before the row. What a reader
/// finds in the rows below depends on nothing else.
#[derive(Drop)]
pub struct FactReaderState<A: Allocator> {
    /// The open collections, the outermost first.
    pub(crate) collections: Vec<OpenCollection, A>,
    /// The kind of the latest lexeme, if there is one.
    pub(crate) latest: Option<Kind>,
    /// Whether a block collection opened directly before the row.
    pub(crate) just_opened: bool,
}

impl<A: Allocator> Model for FactReaderState<A> {
    ghost use Rattle.std.specs.Prelude.{reverse};
    ghost use Rattle.yl_indentation.specs.FactsAlike.{ContextState};

    ghost Value = { ContextState };

    ghost view = { λ s. record {
      open_ones = reverse s.collections.items;
      latest = s.latest;
      just_opened = s.just_opened;
    } };
}

/// Returns whether the open collections are the same.
fn are_same(one: &[OpenCollection], other: &[OpenCollection]) -> bool
    ensures { IsTrue result ↔ (one.now ≡ other.now) }
{
    if one.len() != other.len() {
        return false;
    }
    for (opened, expected) in one.iter().zip(other) {
        if !opened.is_same(*expected) {
            return false;
        }
    }
    true
}

impl<A: Allocator> FactReaderState<A> {
    /// Returns whether the states are the same.
    pub fn is_same(&self, other: &FactReaderState<A>) -> bool
        ensures same { IsTrue result → self.now ≡ other.now }
        ensures alike { self.now ≡ other.now → result ≡ true }
    {
        self.latest == other.latest
            && self.just_opened == other.just_opened
            && are_same(&self.collections, &other.collections)
    }
}
