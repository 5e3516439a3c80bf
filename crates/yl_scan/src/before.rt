//! The state before a row, if states are wanted.

ghost use Rattle.std.specs.Prelude.{◌≡◌, if◌then◌else◌, IfOk, Some, None, Bool};
ghost use Rattle.yl_lexeme.specs.Known.{new_row};
ghost use Rattle.yl_lexeme.specs.Surroundings.{surroundings_value};
ghost use Rattle.yl_scan.specs.Scanner.{phase_value, state_before};
ghost use Rattle.yl_scan.specs.Step.{state_for};

use crate::phase::Phase;
use crate::state::LineState;
use crate::step::Soundness;
use std::alloc::{AllocError, Allocator};
use yl_lexeme::Surroundings;

/// Returns the state that the next row has if it is sound, or `None` if states are not wanted. The
/// only error is out of memory.
pub fn state_before<A: Allocator + Copy>(
    is_wanted: bool,
    alloc: A,
    latest: &mut Option<LineState<A>>,
    surroundings: &Surroundings<'_, A>,
    resting: &Phase<A>,
) -> Result<Option<LineState<A>>, AllocError>
    ensures { IfOk result (λ before. (start : Bool) →
        before ≡ (if is_wanted then Some (state_before (phase_value start (new_row (surroundings_value surroundings.now)) resting.now)) else None)) }
{
    if !is_wanted {
        return Ok(None);
    }
    match resting {
        Phase::Halted(_) => Ok(Some(LineState::stopped())),
        Phase::Between | Phase::Within(..) => {
            Ok(Some(LineState::before(latest, alloc, surroundings)?))
        }
    }
}

/// Returns the state of a row. `before` is the state at its start, if states are wanted, and
/// `sound` says whether the row is sound.
#[inline(always)]
pub fn state_for<A: Allocator + Copy>(
    before: Option<LineState<A>>,
    sound: Soundness,
) -> Option<LineState<A>>
    ensures { result ≡ state_for before sound }
{
    match before {
        None => None,
        Some(state) => match sound {
            Soundness::NotSound => None,
            Soundness::Sound => Some(state),
            Soundness::Stopped => Some(LineState::stopped()),
        },
    }
}
