//! Recognizes rows that report only whether they are sound, by their text alone.

ghost use Rattle.std.specs.Prelude.{◌≡◌, ◌+◌, ◌==◌, ◌∷◌, [], not, ◌&&◌, ◌||◌, false, if◌then◌else◌, IfSome, List, ℕ, None, Some, is_some};
ghost use Rattle.std.specs.Str.{chars};
ghost use Rattle.yl_lexeme.specs.Known.{SurroundingsValue, new_row};
ghost use Rattle.yl_row.specs.Entries.{LineStateValue, Stopped};
ghost use Rattle.yl_text.specs.Character.{is_blank};
ghost use Rattle.yl_scan.specs.Output.{output_with_step};
ghost use Rattle.yl_scan.specs.Remaining.{remaining_output};
ghost use Rattle.yl_scan.specs.Scanner.{IsInOrder, IsInStep, begun_at, is_halted, phase_value, state_before};
ghost use Rattle.yl_scan.specs.Step.{BeginsInText, state_by, step_value};

use crate::feeding::{silent, stopped_if};
use crate::phase::{Phase, Reach};
use crate::state::LineState;
use crate::step::{Soundness, Step};
use std::alloc::Allocator;
use yl_scalar::is_white;

/// Returns whether the row has only white space.
fn is_blank_text(text: &str) -> bool
    ensures { result ≡ is_blank (chars text.now) }
{
    text.chars().all(|c| is_white(c))
}

/// Returns whether a row is sound after a fault whose reach counts no further rows. `to_end` says
/// that the fault reaches to the end of the text, so that no row is sound.
fn is_sound_past(to_end: bool, text: &str) -> bool
    ensures { result ≡ (not to_end && not (is_blank (chars text.now))) }
{
    !to_end && !is_blank_text(text)
}

/// Returns the step of a row after a fault whose reach counts no further rows. `to_end` says that
/// the fault reaches to the end of the text.
fn stopped_row<A: Allocator + Copy>(alloc: A, states: bool, to_end: bool, text: &str) -> Step<A>
    ensures told { (line : ℕ) (s : LineStateValue) → step_value line s result ≡ record { above = None; lexemes = []; comment = None; state = (if not to_end && not (is_blank (chars text.now)) then Some Stopped else None); fault = None } }
    ensures state { result.state ≡ (if states then state_by Stopped result.sound else None) }
    ensures fresh { result.ended ≡ None }
    ensures whole { result.failed ≡ None }
{
    let before = if states {
        Some(LineState::stopped())
    } else {
        None
    };
    silent(alloc, before, stopped_if(is_sound_past(to_end, text)))
}

/// Returns the step of a row that does not change the phase of the scanner, if the text of the row
/// alone says so, or else `None`. Such a row is a blank row between lexemes, other than row 0, or a
/// row after a fault whose reach counts no further rows. Allocates nothing.
#[inline(always)]
pub fn quiet_row<A: Allocator + Copy>(
    alloc: A,
    states: bool,
    line: u32,
    text: &str,
    resting: &Phase<A>,
) -> Option<Step<A>>
    ensures told { IfSome result (λ step. (k : SurroundingsValue) (rows : List (List ℕ)) → new_row k ≡ k →
        remaining_output line (phase_value (line == 0) k resting.now) (chars text.now ∷ rows)
        ≡ output_with_step line (step_value line (state_before (phase_value (line == 0) k resting.now)) step) (remaining_output (line + 1) (phase_value false k resting.now) rows)) }
    ensures state { IfSome result (λ step. (k : SurroundingsValue) → step.state ≡ (if states then state_by (state_before (phase_value (line == 0) k resting.now)) step.sound else None)) }
    ensures in_step { IfSome result (λ _. IsInStep (line + 1) resting.now) }
    ensures in_text { IfSome result (λ step. BeginsInText line step) }
    ensures in_order { IfSome result (λ step. (k : SurroundingsValue) → IsInOrder line (begun_at (phase_value (line == 0) k resting.now)) (begun_at (phase_value false k resting.now)) step) }
    ensures halts { IfSome result (λ step. (k : SurroundingsValue) → is_halted (phase_value false k resting.now) ≡ (is_halted (phase_value (line == 0) k resting.now) || is_some step.failed)) }
{
    match resting {
        Phase::Within(..) => None,
        Phase::Between => {
            if line != 0 && is_blank_text(text) {
                return Some(silent(alloc, None, Soundness::NotSound));
            }
            None
        }
        Phase::Halted(reach) => {
            let Reach { to_end, down } = *reach;
            if down == 0 {
                return Some(stopped_row(alloc, states, to_end, text));
            }
            None
        }
    }
}
