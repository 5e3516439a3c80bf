//! A piece of a section.

use std::alloc::Allocator;
use std::marker::Model;
use yl_sections::{DocumentState, Kept};

/// A piece of a section: the summary of its rows, and the state before them. Of the first piece of
/// a section no state is kept.
#[derive(Drop)]
pub struct SectionPiece<A: Allocator> {
    /// The summary of the rows.
    pub kept: Kept<A>,
    /// The state before the rows, unless the piece is the section's first one.
    pub before: Option<DocumentState<A>>,
}

impl<A: Allocator> Model for SectionPiece<A> {
    ghost use Rattle.yl_section_pieces.specs.Pieces.{PieceValue};

    ghost Value = { PieceValue };

    ghost view = { λ p. record { kept = p.kept; before = p.before } };
}
