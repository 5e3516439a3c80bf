//! The pieces of all sections of a text.

use crate::state_before::StateBefore;
use std::alloc::Allocator;
use std::marker::Model;
use yl_chunks::Chunks;
use yl_sections::Kept;

/// The pieces of all sections of a text, one section after another: their summaries, and the states
/// before them. Of the first piece of a section no state is kept. In contracts it is the list of the
/// pieces.
pub struct PieceList<'a, A: Allocator> {
    kept: &'a Chunks<Kept<A>, A>,
    before: &'a Chunks<StateBefore<A>, A>,
}

impl<'a, A: Allocator> Model for PieceList<'a, A> {
    ghost use Rattle.std.specs.Prelude.{◌≡◌, List, length};
    ghost use Rattle.yl_section_pieces.specs.Pieces.{PieceValue};
    ghost use Rattle.yl_piece_list.specs.PieceLists.{pieces_of};

    ghost Value = { List PieceValue };

    ghost view = { λ p. pieces_of p.kept.now.items p.before.now.items };

    ghost invariant = { λ p. length p.kept.now.items ≡ length p.before.now.items };
}

impl<A: Allocator> Drop for PieceList<'_, A> {
    fn drop(self) {
        let PieceList { kept: _, before: _ } = self;
    }
}

impl<'a, A: Allocator + Copy> PieceList<'a, A> {
    ghost use Rattle.std.specs.Prelude.{◌≡◌, ◌+◌, ◌<◌, ◌≤◌, ◌↔◌, IsTrue, length, take};
    ghost use Rattle.yl_sections.specs.Kept.{rows_kept};
    ghost use Rattle.yl_section_pieces.specs.Pieces.{summaries};
    ghost use Rattle.yl_section_pieces.specs.Sections.{IsSectionBorder};
    ghost use Rattle.yl_piece_list.specs.PieceLists.{pieces_of, states};

    /// Creates a list of the pieces that have these summaries, and these states before them. Does
    /// not allocate.
    pub fn new(
        kept: &'a Chunks<Kept<A>, A>,
        before: &'a Chunks<StateBefore<A>, A>,
    ) -> PieceList<'a, A>
        requires { length kept.now.items ≡ length before.now.items }
        ensures { result ≡ pieces_of kept.now.items before.now.items }
    {
        PieceList { kept, before }
    }

    /// Returns the number of pieces.
    pub fn len(&self) -> usize
        ensures { result ≡ length self.now }
    {
        self.kept.len()
    }

    /// Returns the summaries of the pieces.
    pub fn kept(&self) -> &'a Chunks<Kept<A>, A>
        ensures { result.now.items ≡ summaries self.now }
    {
        self.kept
    }

    /// Returns the states before the pieces.
    pub fn before(&self) -> &'a Chunks<StateBefore<A>, A>
        ensures { result.now.items ≡ states self.now }
    {
        self.before
    }

    /// Returns the number of rows of the piece of index `i`, counted from 0.
    pub fn rows(&self, i: usize) -> usize
        requires { i < length self.now }
        ensures { rows_kept (take (i + 1) (summaries self.now)) ≡ rows_kept (take i (summaries self.now)) + result }
    {
        self.kept.get(i).rows() as usize
    }

    /// Returns `true` if a section begins with the piece of index `i`, counted from 0, or there are
    /// `i` pieces.
    pub fn is_border(&self, i: usize) -> bool
        requires { i ≤ length self.now }
        ensures { IsTrue result ↔ IsSectionBorder self.now i }
    {
        if i == self.before.len() {
            return true;
        }
        self.before.get(i).is_none()
    }
}
