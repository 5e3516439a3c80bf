//! The state before a piece, if one is kept.
ghost use Rattle.std.specs.Prelude.{◌≡◌, None, IfOk};

use std::alloc::{AllocError, Allocator};
use std::marker::Model;
use yl_sections::DocumentState;

/// The state before a piece, if one is kept. It is a pointer, since most texts have many small
/// sections, of which none is kept.
#[derive(Drop)]
pub struct StateBefore<A: Allocator> {
    /// The state.
    state: Option<Box<DocumentState<A>, A>>,
}

impl<A: Allocator> Model for StateBefore<A> {
    ghost use Rattle.std.specs.Option.{option_map};
    ghost use Rattle.yl_piece_list.specs.PieceLists.{StateBeforeValue};

    ghost Value = { StateBeforeValue };

    ghost view = { λ s. option_map (λ b. b.value) s.state };
}

impl<A: Allocator> StateBefore<A> {
    ghost use Rattle.std.specs.Prelude.{◌≡◌, None, is_some, not, option_map};

    /// Returns that no state is kept.
    pub fn none() -> StateBefore<A>
        ensures { result ≡ None }
    {
        StateBefore { state: None }
    }

    /// Returns whether no state is kept.
    pub fn is_none(&self) -> bool
        ensures { is_some self.now ≡ not result }
    {
        self.state.is_none()
    }

    /// Returns the state, if one is kept.
    pub fn get(&self) -> Option<&DocumentState<A>>
        ensures { option_map (λ s. s.now) result ≡ self.now }
    {
        match &self.state {
            None => None,
            Some(state) => Some(state),
        }
    }
}

impl<A: Allocator + Copy> StateBefore<A> {
    ghost use Rattle.std.specs.Prelude.{◌≡◌, IfOk};

    /// Keeps this state, if there is one. The only error is out of memory.
    pub fn of(alloc: A, state: Option<DocumentState<A>>) -> Result<StateBefore<A>, AllocError>
        ensures { IfOk result (λ s. s ≡ state) }
    {
        let state = match state {
            None => None,
            Some(state) => Some(Box::new(alloc, state)?),
        };
        Ok(StateBefore { state })
    }
}
