//! Steps: what a scanner reports of a row.

ghost use Rattle.std.specs.Prelude.{◌≡◌, option_map};
ghost use Rattle.yl_scan.specs.Step.{is_sound};

use crate::state::LineState;
use std::alloc::Allocator;
use yl_lexeme::{Comment, Lexeme};
use yl_row::PlacedScanFault;

/// A lexeme that began in a row above the one whose step reports it.
#[derive(Drop)]
pub struct LexemeAbove<A: Allocator> {
    /// The number of rows from the one in which the lexeme began to the one whose step reports it,
    /// at least 1. The step of the end of the text counts as one row after the last one.
    pub ago: u32,
    /// The lexeme.
    pub lexeme: Lexeme<A>,
}

/// A fault in a lexeme that began in the row whose step reports it, or above it.
#[derive(Clone, Copy)]
pub struct FaultAbove {
    /// The number of rows from the one in which the lexeme began to the one whose step reports the
    /// fault. The step of the end of the text counts as one row after the last one.
    pub ago: u32,
    /// The fault. Its position is relative to the row in which the lexeme began.
    pub fault: PlacedScanFault,
}

/// Whether a row is sound: no lexeme and no reach of a fault is in progress at its start, and it is
/// not blank. The first row of a text is always sound.
#[derive(Clone, Copy)]
pub enum Soundness {
    /// It is not sound.
    NotSound,
    /// It is sound, and not below a fault.
    Sound,
    /// It is sound, and below a fault.
    Stopped,
}

/// What a scanner reports of a row, or of the end of the text.
#[derive(Drop)]
pub struct Step<A: Allocator> {
    /// A lexeme that began in a row above and has ended, in this row or above it.
    pub ended: Option<LexemeAbove<A>>,
    /// The lexemes that begin and end in this row, in order.
    pub lexemes: Vec<Lexeme<A>, A>,
    /// The comment of the row, if it has one.
    pub comment: Option<Comment<A>>,
    /// Whether the row is sound.
    pub sound: Soundness,
    /// The state of the row, if it is sound and states are wanted.
    pub state: Option<LineState<A>>,
    /// The scan fault of the text, if this row shows it.
    pub failed: Option<FaultAbove>,
}

impl<A: Allocator> Step<A> {
    /// Returns the state of the row, if it is sound and states are wanted.
    pub fn state(&self) -> Option<&LineState<A>>
        ensures { option_map (λ s. s.now) result ≡ self.now.state }
    {
        self.state.as_ref()
    }

    /// Returns whether the row is sound.
    pub fn is_sound(&self) -> bool
        ensures { result ≡ is_sound self.now.sound }
    {
        match self.sound {
            Soundness::NotSound => false,
            Soundness::Sound | Soundness::Stopped => true,
        }
    }
}
