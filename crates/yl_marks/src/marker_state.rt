//! The states of a marker before a row, without line numbers and counts.

ghost use Rattle.std.specs.Prelude.{◌≡◌, ◌<◌, ◌↔◌, IfOk, IfSome, IsTrue, option_map, true};
ghost use Rattle.yl_marks.specs.MarksAlike.{MarksAreAlike};

use crate::facts::KeyFacts;
use crate::symbol::{KeyedToken, OpenBlock};
use std::alloc::{AllocError, Allocator};
use std::marker::Model;
use yl_lexeme::Kind;
use yl_text::Pos;

/// What a `KeyMarker` holds before a row, without lines and counts: how many brackets are open, the
/// kind of the latest lexeme, the facts that are ahead, and the open block collections. The rows
/// after equal states are marked alike.
#[derive(Drop)]
pub struct MarkerState<A: Allocator> {
    /// The number of brackets that are open.
    pub(crate) depth: usize,
    /// The kind of the latest lexeme, if there is one.
    pub(crate) latest: Option<Kind>,
    /// The facts that the lexemes so far decide about the next one, if no key begins or ends with
    /// it.
    pub(crate) ahead: KeyFacts,
    /// The open block collections, the outermost first.
    pub(crate) collections: Vec<OpenBlock, A>,
}

impl<A: Allocator> Model for MarkerState<A> {
    ghost use Rattle.std.specs.Prelude.{reverse};
    ghost use Rattle.yl_marks.specs.MarksAlike.{KeyMarkerState};

    ghost Value = { KeyMarkerState };

    ghost view = { λ s. record {
      marks = record { depth = s.depth; latest = s.latest; open_ones = reverse s.collections.items };
      ahead = s.ahead;
    } };
}

impl<A: Allocator> MarkerState<A> {
    /// Returns whether two states are equal.
    pub fn is_same(&self, other: &MarkerState<A>) -> bool
        ensures same { IsTrue result → self.now ≡ other.now }
        ensures alike { self.now ≡ other.now → result ≡ true }
    {
        self.depth == other.depth
            && self.latest == other.latest
            && self.ahead == other.ahead
            && are_same(&self.collections, &other.collections)
    }

    /// Returns a lexeme in line 0 that has the kind of the latest one, if there is one.
    pub(crate) fn latest_above(&self) -> Option<KeyedToken>
        ensures kind { option_map (λ p. p.kind) result ≡ self.now.marks.latest }
        ensures above { IfSome result (λ p. (p.start.line < 1) × (p.end_line < 1)) }
    {
        match self.latest {
            None => None,
            Some(kind) => Some(KeyedToken {
                end_line: 0,
                depth: 0,
                key: None,
                start: Pos { line: 0, col: 0 },
                kind,
                is_first: true,
                may_begin: true,
            }),
        }
    }
}

/// Returns whether open block collections are equal.
fn are_same(one: &[OpenBlock], other: &[OpenBlock]) -> bool
    ensures { IsTrue result ↔ (one.now ≡ other.now) }
{
    one == other
}

/// Copies open block collections. The only error is out of memory.
pub(crate) fn copy_collections<A: Allocator>(
    alloc: A,
    collections: &[OpenBlock],
) -> Result<Vec<OpenBlock, A>, AllocError>
    ensures { IfOk result (λ v. v.items ≡ collections.now) }
{
    let mut copy = Vec::with_capacity(alloc, collections.len())?;
    copy.extend_from_slice(collections)?;
    Ok(copy)
}

/// A law: the same rows after equal states have the same facts, the same state after them, and the
/// same marks. Only the indices in the marks differ, by the counts of the lexemes before the rows.
pub fn marks_are_alike()
    ensures { MarksAreAlike }
{}
