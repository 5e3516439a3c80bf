//! Reads a row in each phase of the scanner.

ghost use Rattle.std.specs.Prelude.{◌≡◌, ◌≤◌, ◌<◌, ◌+◌, ◌-◌, ◌^◌, ◌==◌, ◌∷◌, [], not, ◌&&◌, ◌||◌, true, false, if◌then◌else◌, IfOk, OnErr, OnOk, List, ℕ, nat_le, Bool, Option, IsSome, is_some, length};
ghost use Rattle.yl_lexeme.specs.Lexeme.{LexemeValue};
ghost use Rattle.yl_lexeme.specs.Known.{SurroundingsValue, context_of, new_row};
ghost use Rattle.yl_lexeme.specs.Surroundings.{surroundings_value};
ghost use Rattle.yl_scalar.specs.Reading.{GoesOn, Fails};
ghost use Rattle.yl_text.specs.Character.{is_blank};
ghost use Rattle.yl_row.specs.Fault.{is_tab, is_unclosed, of_scalar};
ghost use Rattle.yl_row.specs.Step.{first_tab};
ghost use Rattle.yl_row.specs.Entries.{LineStateValue, Stopped, lexemes_up_to_fault, sound_state, state_of, stopped_rows};
ghost use Rattle.yl_row.specs.ScalarReader.{reader_finish};
ghost use Rattle.yl_row.specs.Reader.{scalar_reader_value, value_of};
ghost use Rattle.yl_row.specs.Run.{row_reading_by, entries_by};
ghost use Rattle.yl_row.specs.Rows.{EndRests, reading_with_lexemes, row_end_reading};
ghost use Rattle.yl_scan.specs.Output.{output_with_step, output_of_entries};
ghost use Rattle.yl_scan.specs.Remaining.{Within, remaining_output, output_of_row};
ghost use Rattle.yl_scan.specs.declared.phase.Phase.TheVariants.{Between};
ghost use Rattle.yl_scan.specs.Scanner.{BeginsAt, EndsOpen, IsInOrder, IsInStep, IsUnderWay, begun_at, is_halted, scalar_lexeme, phase_value, state_before};
ghost use Rattle.yl_scan.specs.Step.{BeginsInText, FailsHere, at_end, state_by, state_for, step_value};

use crate::before::state_for;
use crate::phase::{Phase, Reach};
use crate::room::{Room, read_lexemes};
use crate::state::LineState;
use crate::step::{FaultAbove, LexemeAbove, Soundness, Step};
use std::alloc::{AllocError, Allocator};
use std::mem;
use yl_lexeme::{Kind, Lexeme, Style, Surroundings};
use yl_row::{
    OpenScalar, PlacedScanFault, RowEnd, ScalarReader, ScanFault, first_tab, of_scalar, read_row,
};
use yl_scalar::{ScalarFault, ScalarOutcome, ScalarPlace, ScalarStep, is_blank};
use yl_text::Pos;

/// Returns whether a lexeme ends in the row in which it begins, and no further than at `column`.
fn ends_by<A: Allocator>(column: usize, lexeme: &Lexeme<A>) -> bool
    ensures { result ≡ (lexeme.now.end.line == 0 && nat_le lexeme.now.end.col column) }
{
    let end = lexeme.end();
    end.line == 0 && end.col as usize <= column
}

/// Returns whether it is a tab in indentation.
fn is_tab(fault: ScanFault) -> bool
    ensures { result ≡ is_tab fault }
{
    match fault {
        ScanFault::TabInIndentation => true,
        _ => false,
    }
}

/// Returns whether it is an unclosed quote.
fn is_unclosed(fault: ScanFault) -> bool
    ensures { result ≡ is_unclosed fault }
{
    match fault {
        ScanFault::UnclosedQuote => true,
        _ => false,
    }
}

/// Removes the lexemes that end after the position of a fault. Only a tab can be before lexemes
/// that were read.
fn keep<A: Allocator>(lexemes: &mut Vec<Lexeme<A>, A>, fault: PlacedScanFault)
    ensures { lexemes.new.items ≡ lexemes_up_to_fault (Some fault) lexemes.old.items }
{
    if is_tab(fault.fault) {
        lexemes.retain(|lexeme| ends_by(fault.column, lexeme));
    }
}

/// Returns the rows that a fault reaches.
fn reach_of(fault: PlacedScanFault) -> Reach
    ensures end { result.to_end ≡ is_unclosed fault.fault }
    ensures down { result.down ≡ fault.down }
{
    Reach {
        to_end: is_unclosed(fault.fault),
        down: fault.down,
    }
}

/// Returns a step that reports only whether the row is sound. Allocates nothing.
pub fn silent<A: Allocator + Copy>(
    alloc: A,
    before: Option<LineState<A>>,
    sound: Soundness,
) -> Step<A>
    ensures told { (line : ℕ) (s : LineStateValue) → step_value line s result ≡ record { above = None; lexemes = []; comment = None; state = state_by s sound; fault = None } }
    ensures state { result.state ≡ state_for before result.sound }
    ensures fresh { result.ended ≡ None }
    ensures whole { result.failed ≡ None }
{
    Step {
        ended: None,
        lexemes: Vec::new(alloc),
        comment: None,
        sound,
        state: state_for(before, sound),
        failed: None,
    }
}

/// Returns the number of lexemes of a row that later rows report: 1 if the row ends with a scalar
/// that may go on below, or else 0.
fn late_lexemes<A: Allocator + Copy>(end: &RowEnd<A>) -> usize
    ensures { result ≤ 1 }
{
    match end {
        RowEnd::Opens(_) => 1,
        RowEnd::Read(_) | RowEnd::Stops(_) => 0,
    }
}

/// Returns the step of a row that was read to this end, and sets the phase after it.
#[inline(always)]
fn row_end<A: Allocator + Copy>(
    line: u32,
    before: Option<LineState<A>>,
    sound: Soundness,
    lexemes: Vec<Lexeme<A>, A>,
    end: RowEnd<A>,
    resting: &mut Phase<A>,
) -> Step<A>
    requires { resting.old ≡ Between }
    ensures told { (s : LineStateValue) (row : List ℕ) (rows : List (List ℕ)) (tab : Option ℕ) (k : SurroundingsValue) → EndRests row end →
        output_of_row line rows (state_by s sound) (reading_with_lexemes lexemes.items (row_end_reading rows tab row k end))
        ≡ output_with_step line (step_value line s result) (remaining_output (line + 1) (phase_value false (new_row k) resting.new) rows) }
    ensures state { result.state ≡ state_for before result.sound }
    ensures in_step { (row : List ℕ) → length row < 2 ^ 31 → EndRests row end → IsInStep (line + 1) resting.new }
    ensures fresh { result.ended ≡ None }
    ensures here { FailsHere result }
    ensures begins { (k : SurroundingsValue) → BeginsAt line (phase_value false k resting.new) }
    ensures halts { (k : SurroundingsValue) → is_halted (phase_value false k resting.new) ≡ is_some result.failed }
{
    let state = state_for(before, sound);
    match end {
        RowEnd::Read(comment) => Step {
            ended: None,
            lexemes,
            comment,
            sound,
            state,
            failed: None,
        },
        RowEnd::Opens(scalar) => {
            *resting = Phase::Within(line, scalar);
            Step {
                ended: None,
                lexemes,
                comment: None,
                sound,
                state,
                failed: None,
            }
        }
        RowEnd::Stops(fault) => {
            let mut lexemes = lexemes;
            keep(&mut lexemes, fault);
            *resting = Phase::Halted(reach_of(fault));
            Step {
                ended: None,
                lexemes,
                comment: None,
                sound,
                state,
                failed: Some(FaultAbove { ago: 0, fault }),
            }
        }
    }
}

/// Returns the column of the first tab of a row, if the row begins inside no lexeme.
fn tab_of(fresh: bool, row: &[char]) -> Option<usize>
    ensures { result ≡ first_tab (not fresh) row.now }
{
    if fresh { first_tab(row) } else { None }
}

/// Returns the soundness of a row that begins inside no lexeme and is not below a fault. `line` is
/// its number, counted from 0.
fn sound_start(line: u32, row: &[char]) -> Soundness
    ensures { (s : LineStateValue) → state_by s result ≡ (if (line == 0) || not (is_blank row.now) then Some s else None) }
{
    if line == 0 || !is_blank(row) {
        Soundness::Sound
    } else {
        Soundness::NotSound
    }
}

/// Returns whether a row below a fault is sound. `reach` says which rows the fault reaches, from
/// this one on.
fn is_sound_behind(reach: Reach, row: &[char]) -> bool
    ensures { result ≡ ((reach.down == 0) && not reach.to_end && not (is_blank row.now)) }
{
    reach.down == 0 && !reach.to_end && !is_blank(row)
}

/// Returns the soundness of a row below a fault. `is_sound` says whether the row is sound.
pub fn stopped_if(is_sound: bool) -> Soundness
    ensures { (s : LineStateValue) → state_by s result ≡ (if is_sound then Some Stopped else None) }
{
    if is_sound {
        Soundness::Stopped
    } else {
        Soundness::NotSound
    }
}

/// Reads a row from its start, or after a lexeme that began above and ends before the column
/// `skip`. The only error is out of memory.
#[inline(always)]
fn read_on<A: Allocator + Copy>(
    alloc: A,
    surroundings: &mut Surroundings<'_, A>,
    room: &mut Room<A>,
    line: u32,
    before: Option<LineState<A>>,
    skip: usize,
    fresh: bool,
    sound: Soundness,
    row: &[char],
    resting: &mut Phase<A>,
) -> Result<Step<A>, AllocError>
    requires fits { length row.now < 2 ^ 31 }
    requires between { resting.old ≡ Between }
    ensures told { IfOk result (λ step. (s : LineStateValue) (rows : List (List ℕ)) →
        output_of_row line rows (state_by s sound) (row_reading_by rows (first_tab (not fresh) row.now) skip fresh fresh 0 (new_row (surroundings_value surroundings.old)) row.now)
        ≡ output_with_step line (step_value line s step) (remaining_output (line + 1) (phase_value false (new_row (surroundings_value surroundings.new)) resting.new) rows)) }
    ensures state { IfOk result (λ step. step.state ≡ state_for before step.sound) }
    ensures in_step { OnOk result (IsInStep (line + 1) resting.new) }
    ensures refused { OnErr result (resting.new ≡ Between) }
    ensures fresh { IfOk result (λ step. step.ended ≡ None) }
    ensures here { IfOk result (λ step. FailsHere step) }
    ensures in_order { IfOk result (λ step. (begun : Option ℕ) (k : SurroundingsValue) → IsInOrder line begun (begun_at (phase_value false k resting.new)) step) }
    ensures halts { IfOk result (λ step. (k : SurroundingsValue) → is_halted (phase_value false k resting.new) ≡ is_some step.failed) }
{
    surroundings.new_row();
    let tab = tab_of(fresh, row);
    room.lexemes.clear();
    let end = read_row(
        alloc,
        surroundings,
        &mut room.lexemes,
        tab,
        skip,
        fresh,
        row,
    )?;
    let lexemes = read_lexemes(alloc, room, late_lexemes(&end))?;
    Ok(row_end(line, before, sound, lexemes, end, resting))
}

/// Reads a row that begins inside no lexeme. The only error is out of memory.
#[inline(always)]
fn fresh_row<A: Allocator + Copy>(
    alloc: A,
    surroundings: &mut Surroundings<'_, A>,
    room: &mut Room<A>,
    line: u32,
    before: Option<LineState<A>>,
    row: &[char],
    resting: &mut Phase<A>,
) -> Result<Step<A>, AllocError>
    requires fits { length row.now < 2 ^ 31 }
    requires between { resting.old ≡ Between }
    ensures told { IfOk result (λ step. (rows : List (List ℕ)) →
        output_of_entries line (entries_by (line == 0) 0 0 (new_row (surroundings_value surroundings.old)) (row.now ∷ rows))
        ≡ output_with_step line (step_value line (state_of (context_of (surroundings_value surroundings.old))) step) (remaining_output (line + 1) (phase_value false (new_row (surroundings_value surroundings.new)) resting.new) rows)) }
    ensures state { IfOk result (λ step. step.state ≡ state_for before step.sound) }
    ensures in_step { OnOk result (IsInStep (line + 1) resting.new) }
    ensures refused { OnErr result (resting.new ≡ Between) }
    ensures fresh { IfOk result (λ step. step.ended ≡ None) }
    ensures here { IfOk result (λ step. FailsHere step) }
    ensures in_order { IfOk result (λ step. (begun : Option ℕ) (k : SurroundingsValue) → IsInOrder line begun (begun_at (phase_value false k resting.new)) step) }
    ensures halts { IfOk result (λ step. (k : SurroundingsValue) → is_halted (phase_value false k resting.new) ≡ is_some step.failed) }
{
    let sound = sound_start(line, row);
    read_on(
        alloc,
        surroundings,
        room,
        line,
        before,
        0,
        true,
        sound,
        row,
        resting,
    )
}

/// Returns the lexeme of a scalar that began at the column `at` and ends before `place`. The only
/// error is out of memory.
fn scalar_lexeme<A: Allocator + Copy>(
    alloc: A,
    style: Style,
    at: usize,
    reader: ScalarReader<A>,
    place: ScalarPlace,
) -> Result<Lexeme<A>, AllocError>
    requires at { at < 2 ^ 31 }
    requires place { (place.down < 2 ^ 32) × (place.column ≤ 2 ^ 31) }
    ensures { IfOk result (λ lexeme. lexeme ≡ scalar_lexeme style at place (value_of reader)) }
{
    let end = Pos {
        line: place.down as u32,
        col: place.column as u32,
    };
    Ok(Lexeme::new(
        Kind::Scalar(style),
        at as u32,
        end,
        reader.into_value(alloc)?,
    ))
}

/// Returns the fault of a scalar that began `ago` rows above.
fn scalar_failed(ago: u32, fault: ScalarFault, place: ScalarPlace) -> FaultAbove
    ensures { result ≡ record { ago = ago; fault = record { fault = of_scalar fault; down = place.down; column = place.column } } }
{
    FaultAbove {
        ago,
        fault: PlacedScanFault {
            fault: of_scalar(fault),
            down: place.down,
            column: place.column,
        },
    }
}

/// Reads a row with a scalar in progress, which may end in the row or have ended above it. The only
/// error is out of memory.
fn within_row<A: Allocator + Copy>(
    alloc: A,
    surroundings: &mut Surroundings<'_, A>,
    room: &mut Room<A>,
    line: u32,
    before: Option<LineState<A>>,
    begun: u32,
    scalar: OpenScalar<A>,
    row: &[char],
    resting: &mut Phase<A>,
) -> Result<Step<A>, AllocError>
    requires fits { length row.now < 2 ^ 31 }
    requires under_way { IsUnderWay line begun scalar.at (scalar_reader_value scalar.reader) }
    requires between { resting.old ≡ Between }
    ensures told { IfOk result (λ step. (rows : List (List ℕ)) →
        remaining_output line (Within begun scalar.style scalar.at (scalar_reader_value scalar.reader) (new_row (surroundings_value surroundings.old))) (row.now ∷ rows)
        ≡ output_with_step line (step_value line (state_of (context_of (surroundings_value surroundings.old))) step) (remaining_output (line + 1) (phase_value false (new_row (surroundings_value surroundings.new)) resting.new) rows)) }
    ensures state { IfOk result (λ step. step.state ≡ state_for before step.sound) }
    ensures in_step { OnOk result (IsInStep (line + 1) resting.new) }
    ensures refused { OnErr result (resting.new ≡ Between) }
    ensures in_text { IfOk result (λ step. BeginsInText line step) }
    ensures in_order { IfOk result (λ step. (k : SurroundingsValue) → IsInOrder line (Some begun) (begun_at (phase_value false k resting.new)) step) }
    ensures halts { IfOk result (λ step. (k : SurroundingsValue) → is_halted (phase_value false k resting.new) ≡ is_some step.failed) }
{
    let OpenScalar { style, at, reader } = scalar;
    let (reader, answer) = reader.read(row)?;
    let ago = line - begun;
    match answer {
        ScalarStep::GoesOn => {
            let scalar = OpenScalar { style, at, reader };
            *resting = Phase::Within(begun, scalar);
            Ok(silent(alloc, before, Soundness::NotSound))
        }
        ScalarStep::EndsIn(place) => {
            let lexeme = scalar_lexeme(alloc, style, at, reader, place)?;
            let mut step = read_on(
                alloc,
                surroundings,
                room,
                line,
                before,
                place.column,
                false,
                Soundness::NotSound,
                row,
                resting,
            )?;
            step.ended = Some(LexemeAbove { ago, lexeme });
            Ok(step)
        }
        ScalarStep::EndedAbove(place) => {
            let lexeme = scalar_lexeme(alloc, style, at, reader, place)?;
            let mut step = fresh_row(alloc, surroundings, room, line, before, row, resting)?;
            step.ended = Some(LexemeAbove { ago, lexeme });
            Ok(step)
        }
        ScalarStep::Fails(fault, place) => {
            let mut step = silent(alloc, before, stopped_if(place.down < ago as usize));
            step.failed = Some(scalar_failed(ago, fault, place));
            *resting = Phase::Halted(Reach {
                to_end: false,
                down: 0,
            });
            Ok(step)
        }
    }
}

/// Passes a row below a fault.
fn halted_row<A: Allocator + Copy>(
    alloc: A,
    before: Option<LineState<A>>,
    reach: Reach,
    row: &[char],
    resting: &mut Phase<A>,
) -> Step<A>
    ensures told { (line : ℕ) (s : LineStateValue) (rows : List (List ℕ)) (k : SurroundingsValue) →
        output_of_entries line (stopped_rows reach.to_end reach.down (row.now ∷ rows))
        ≡ output_with_step line (step_value line s result) (remaining_output (line + 1) (phase_value false k resting.new) rows) }
    ensures state { result.state ≡ state_for before result.sound }
    ensures in_step { (line : ℕ) → IsInStep line resting.new }
    ensures in_text { (line : ℕ) → BeginsInText line result }
    ensures in_order { (line : ℕ) (begun : Option ℕ) (k : SurroundingsValue) → IsInOrder line begun (begun_at (phase_value false k resting.new)) result }
    ensures halts { (k : SurroundingsValue) → is_halted (phase_value false k resting.new) ≡ true }
{
    let step = silent(alloc, before, stopped_if(is_sound_behind(reach, row)));
    *resting = Phase::Halted(Reach {
        to_end: reach.to_end,
        down: reach.down.saturating_sub(1),
    });
    step
}

/// Reads a row in the phase `taken`, and sets the phase after it in `resting`. The only error is
/// out of memory.
#[inline(always)]
fn taken_row<A: Allocator + Copy>(
    alloc: A,
    surroundings: &mut Surroundings<'_, A>,
    room: &mut Room<A>,
    line: u32,
    before: Option<LineState<A>>,
    taken: Phase<A>,
    row: &[char],
    resting: &mut Phase<A>,
) -> Result<Step<A>, AllocError>
    requires fits { length row.now < 2 ^ 31 }
    requires in_step { IsInStep line taken }
    requires between { resting.old ≡ Between }
    ensures told { IfOk result (λ step. (rows : List (List ℕ)) →
        remaining_output line (phase_value (line == 0) (new_row (surroundings_value surroundings.old)) taken) (row.now ∷ rows)
        ≡ output_with_step line (step_value line (state_before (phase_value (line == 0) (new_row (surroundings_value surroundings.old)) taken)) step) (remaining_output (line + 1) (phase_value false (new_row (surroundings_value surroundings.new)) resting.new) rows)) }
    ensures state { IfOk result (λ step. step.state ≡ state_for before step.sound) }
    ensures in_step { OnOk result (IsInStep (line + 1) resting.new) }
    ensures refused { OnErr result (resting.new ≡ Between) }
    ensures in_text { IfOk result (λ step. BeginsInText line step) }
    ensures in_order { IfOk result (λ step. (k : SurroundingsValue) → IsInOrder line (begun_at (phase_value (line == 0) (new_row (surroundings_value surroundings.old)) taken)) (begun_at (phase_value false k resting.new)) step) }
    ensures halts { IfOk result (λ step. (k : SurroundingsValue) → is_halted (phase_value false k resting.new) ≡ (is_halted (phase_value (line == 0) (new_row (surroundings_value surroundings.old)) taken) || is_some step.failed)) }
{
    match taken {
        Phase::Between => { fresh_row(alloc, surroundings, room, line, before, row, resting) }
        Phase::Within(begun, scalar) => within_row(
            alloc,
            surroundings,
            room,
            line,
            before,
            begun,
            scalar,
            row,
            resting,
        ),
        Phase::Halted(reach) => Ok(halted_row(alloc, before, reach, row, resting)),
    }
}

/// Reads a row in the phase `resting`, and sets the phase after it. Reads the lexemes into a list
/// whose capacity is used from row to row. Between lexemes the phase is not moved, since it is
/// large. The only error is out of memory.
#[inline(always)]
pub fn fed_row<A: Allocator + Copy>(
    alloc: A,
    surroundings: &mut Surroundings<'_, A>,
    room: &mut Room<A>,
    line: u32,
    before: Option<LineState<A>>,
    row: &[char],
    resting: &mut Phase<A>,
) -> Result<Step<A>, AllocError>
    requires fits { length row.now < 2 ^ 31 }
    requires in_step { IsInStep line resting.old }
    ensures told { IfOk result (λ step. (rows : List (List ℕ)) →
        remaining_output line (phase_value (line == 0) (new_row (surroundings_value surroundings.old)) resting.old) (row.now ∷ rows)
        ≡ output_with_step line (step_value line (state_before (phase_value (line == 0) (new_row (surroundings_value surroundings.old)) resting.old)) step) (remaining_output (line + 1) (phase_value false (new_row (surroundings_value surroundings.new)) resting.new) rows)) }
    ensures state { IfOk result (λ step. step.state ≡ state_for before step.sound) }
    ensures in_step { OnOk result (IsInStep (line + 1) resting.new) }
    ensures refused { OnErr result (resting.new ≡ Between) }
    ensures in_text { IfOk result (λ step. BeginsInText line step) }
    ensures in_order { IfOk result (λ step. (k : SurroundingsValue) → IsInOrder line (begun_at (phase_value (line == 0) (new_row (surroundings_value surroundings.old)) resting.old)) (begun_at (phase_value false k resting.new)) step) }
    ensures halts { IfOk result (λ step. (k : SurroundingsValue) → is_halted (phase_value false k resting.new) ≡ (is_halted (phase_value (line == 0) (new_row (surroundings_value surroundings.old)) resting.old) || is_some step.failed)) }
{
    match resting {
        Phase::Between => fresh_row(alloc, surroundings, room, line, before, row, resting),
        Phase::Within(..) | Phase::Halted(_) => {
            let taken = mem::replace(resting, Phase::Between);
            taken_row(alloc, surroundings, room, line, before, taken, row, resting)
        }
    }
}

/// Returns what the end of the text reports of a scalar in progress. `line` is the number of rows
/// that were read. The only error is out of memory.
fn ended_scalar<A: Allocator + Copy>(
    alloc: A,
    line: u32,
    begun: u32,
    scalar: OpenScalar<A>,
) -> Result<Step<A>, AllocError>
    requires { IsUnderWay line begun scalar.at (scalar_reader_value scalar.reader) }
    ensures told { IfOk result (λ step. (s : LineStateValue) (k : SurroundingsValue) → remaining_output line (Within begun scalar.style scalar.at (scalar_reader_value scalar.reader) k) [] ≡ at_end (step_value line s step)) }
    ensures in_text { IfOk result (λ step. BeginsInText line step) }
    ensures in_order { IfOk result (λ step. EndsOpen line (Some begun) step) }
{
    let mut step = silent(alloc, None, Soundness::NotSound);
    let OpenScalar { style, at, reader } = scalar;
    let ago = line - begun;
    match reader.finish() {
        ScalarOutcome::Whole(place) => {
            let lexeme = scalar_lexeme(alloc, style, at, reader, place)?;
            step.ended = Some(LexemeAbove { ago, lexeme });
            Ok(step)
        }
        ScalarOutcome::Refused(fault, place) => {
            step.failed = Some(scalar_failed(ago, fault, place));
            Ok(step)
        }
    }
}

/// Returns what the end of the text reports. `line` is the number of rows that were read. The only
/// error is out of memory.
pub fn ended_text<A: Allocator + Copy>(
    alloc: A,
    line: u32,
    resting: Phase<A>,
) -> Result<Step<A>, AllocError>
    requires { IsInStep line resting }
    ensures told { IfOk result (λ step. (s : LineStateValue) (start : Bool) (k : SurroundingsValue) → remaining_output line (phase_value start k resting) [] ≡ at_end (step_value line s step)) }
    ensures in_text { IfOk result (λ step. BeginsInText line step) }
    ensures in_order { IfOk result (λ step. (start : Bool) (k : SurroundingsValue) → EndsOpen line (begun_at (phase_value start k resting)) step) }
{
    match resting {
        Phase::Within(begun, scalar) => {
            let step = ended_scalar(alloc, line, begun, scalar)?;
            Ok(step)
        }
        Phase::Between | Phase::Halted(_) => Ok(silent(alloc, None, Soundness::NotSound)),
    }
}
