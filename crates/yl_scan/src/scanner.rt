//! The scanner, which reads the rows of a text one after another.

ghost use Rattle.std.specs.Prelude.{◌≡◌, ◌<◌, ◌+◌, ◌-◌, ◌^◌, ◌∷◌, [], ◌||◌, true, false, if◌then◌else◌, IfOk, OnOk, OnErr, IsErr, List, ℕ, None, is_some, length};
ghost use Rattle.std.specs.Option.{ForSome};
ghost use Rattle.std.specs.Str.{chars};
ghost use Rattle.yl_lexeme.specs.Known.{new_row, no_surroundings};
ghost use Rattle.yl_lexeme.specs.Surroundings.{surroundings_value};
ghost use Rattle.yl_row.specs.Entries.{LineStateValue};
ghost use Rattle.yl_scan.specs.Output.{output_with_step, output_of_entries};
ghost use Rattle.yl_scan.specs.Remaining.{Fresh, remaining_output};
ghost use Rattle.yl_scan.specs.Resume.{from_state, phase_at};
ghost use Rattle.yl_scan.specs.Scanner.{EndsOpen, IsInOrder, IsInStep, begun_at, is_halted, surroundings_in, phase_value, state_before};
ghost use Rattle.yl_scan.specs.Step.{BeginsInText, at_end, state_by, step_value};

use crate::before::state_before;
use crate::comment::{comment_between, comment_row};
use crate::feeding::{ended_text, fed_row};
use crate::phase::{Phase, Reach};
use crate::quiet::quiet_row;
use crate::room::Room;
use crate::state::LineState;
use crate::step::Step;
use std::alloc::{AllocError, Allocator};
use std::marker::Model;
use yl_lexeme::{BracketStack, ColumnStack, Kind, Lexeme, Meter, Surroundings};
use yl_text::{Row, characters_of};

/// A scanner. It reads the rows of a text one after another, from the first or from a sound row on,
/// and returns what each row reports.
#[derive(Drop)]
pub struct Scanner<'a, A: Allocator + Copy> {
    /// The allocator.
    alloc: A,
    /// The context that the lexemes before the next row give.
    surroundings: Surroundings<'a, A>,
    /// A buffer for the characters of a row.
    characters: Vec<char, A>,
    /// The list into which the lexemes of a row are read.
    room: Room<A>,
    /// The phase before the next row.
    resting: Phase<A>,
    /// The number of rows that were read.
    line: u32,
    /// Whether the steps hold states.
    states: bool,
    /// The state that was created last.
    latest: Option<LineState<A>>,
    /// Whether a call returned an error.
    refused: bool,
}

impl<'a, A: Allocator + Copy> Model for Scanner<'a, A> {
    ghost use Rattle.std.specs.Prelude.{◌==◌};
    ghost use Rattle.yl_lexeme.specs.Known.{new_row};
    ghost use Rattle.yl_lexeme.specs.Surroundings.{surroundings_value};
    ghost use Rattle.yl_scan.specs.Scanner.{IsInStep, ScannerValue, phase_value};

    ghost Value = { ScannerValue };

    ghost view = { λ s. record { line = s.line; stand = phase_value (s.line == 0) (new_row (surroundings_value s.surroundings)) s.resting; states = s.states; refused = s.refused } };

    ghost invariant = { λ s. IsInStep s.line s.resting };
}

impl<'a, A: Allocator + Copy> Scanner<'a, A> {
    /// Creates a scanner in this phase, before its first row.
    fn before(
        alloc: &'a A,
        surroundings: Surroundings<'a, A>,
        resting: Phase<A>,
        states: bool,
    ) -> Scanner<'a, A>
        requires { IsInStep 0 resting }
        ensures { result ≡ record { line = 0; stand = phase_value true (new_row (surroundings_value surroundings.entry)) resting; states = states; refused = false } }
    {
        Scanner {
            alloc: *alloc,
            surroundings,
            characters: Vec::new(*alloc),
            room: Room {
                lexemes: Vec::new(*alloc),
                comes_back: false,
            },
            resting,
            line: 0,
            states,
            latest: None,
            refused: false,
        }
    }

    /// Creates a scanner at the start of a text. Its steps hold states.
    pub fn start(alloc: &'a A) -> Scanner<'a, A>
        ensures { result ≡ record { line = 0; stand = Fresh true no_surroundings; states = true; refused = false } }
    {
        let surroundings = Surroundings::new(alloc);
        Scanner::before(alloc, surroundings, Phase::Between, true)
    }

    /// Creates a scanner at the start of a text. Its steps hold no states, and it creates none.
    pub fn start_without_states(alloc: &'a A) -> Scanner<'a, A>
        ensures { result ≡ record { line = 0; stand = Fresh true no_surroundings; states = false; refused = false } }
    {
        let surroundings = Surroundings::new(alloc);
        Scanner::before(alloc, surroundings, Phase::Between, false)
    }

    /// Creates a scanner before a sound row with this state. Its steps hold states. It counts rows
    /// from that one on. The only error is out of memory.
    pub fn resume(alloc: &'a A, state: &LineState<A>) -> Result<Scanner<'a, A>, AllocError>
        ensures at { IfOk result (λ s. s ≡ record { line = 0; stand = phase_at state.now; states = true; refused = false }) }
        ensures told { IfOk result (λ s. (rows : List (List ℕ)) → remaining_output s.line s.stand rows ≡ output_of_entries 0 (from_state state.now rows)) }
    {
        match state.standing() {
            None => {
                let resting = Phase::Halted(Reach {
                    to_end: false,
                    down: 0,
                });
                Ok(Scanner::before(alloc, Surroundings::new(alloc), resting, true))
            }
            Some(standing) => {
                let surroundings = Surroundings::at_row_start(
                    alloc,
                    &standing.levels,
                    &standing.brackets,
                    standing.last,
                )?;
                Ok(Scanner::before(alloc, surroundings, Phase::Between, true))
            }
        }
    }

    /// Reads the next row. The only error is out of memory.
    #[inline(always)]
    fn read(&mut self, text: &str) -> Result<Step<A>, AllocError>
        requires fits { length (chars text.now) < 2 ^ 31 }
        requires few { self.old.line < 2 ^ 32 - 1 }
        ensures told { IfOk result (λ step. (rows : List (List ℕ)) →
            remaining_output self.old.line self.old.stand (chars text.now ∷ rows)
            ≡ output_with_step self.old.line (step_value self.old.line (state_before self.old.stand) step) (remaining_output self.new.line self.new.stand rows)) }
        ensures state { IfOk result (λ step. step.state ≡ (if self.old.states then state_by (state_before self.old.stand) step.sound else None)) }
        ensures in_text { IfOk result (λ step. BeginsInText self.old.line step) }
        ensures in_order { IfOk result (λ step. IsInOrder self.old.line (begun_at self.old.stand) (begun_at self.new.stand) step) }
        ensures halts { IfOk result (λ step. is_halted self.new.stand ≡ (is_halted self.old.stand || is_some step.failed)) }
        ensures line { OnOk result (self.new.line ≡ self.old.line + 1) }
        ensures states { self.new.states ≡ self.old.states }
        ensures refused { self.new.refused ≡ self.old.refused }
    {
        if let Some(step) = quiet_row(self.alloc, self.states, self.line, text, &self.resting) {
            self.line += 1;
            return Ok(step);
        }
        let before = state_before(
            self.states,
            self.alloc,
            &mut self.latest,
            &self.surroundings,
            &self.resting,
        )?;
        if let Some(comment) = comment_between(self.alloc, text, &self.resting)? {
            self.line += 1;
            return Ok(comment_row(self.alloc, before, comment));
        }
        characters_of(text, &mut self.characters)?;
        let line = self.line;
        self.line += 1;
        fed_row(
            self.alloc,
            &mut self.surroundings,
            &mut self.room,
            line,
            before,
            &self.characters,
            &mut self.resting,
        )
    }

    /// Reads the next row, and counts it in the meter. The only error is out of memory. After an
    /// error each later call returns an error too.
    pub fn feed(&mut self, row: &Row<A>, meter: &mut Meter) -> Result<Step<A>, AllocError>
        requires fits { length (chars row.now.text) < 2 ^ 31 }
        requires few { self.old.line < 2 ^ 32 - 1 }
        requires meter { meter.old.lines < 2 ^ 32 - 1 }
        ensures told { IfOk result (λ step. (rows : List (List ℕ)) →
            remaining_output self.old.line self.old.stand (chars row.now.text ∷ rows)
            ≡ output_with_step self.old.line (step_value self.old.line (state_before self.old.stand) step) (remaining_output self.new.line self.new.stand rows)) }
        ensures state { IfOk result (λ step. step.state ≡ (if self.old.states then state_by (state_before self.old.stand) step.sound else None)) }
        ensures in_text { IfOk result (λ step. BeginsInText self.old.line step) }
        ensures in_order { IfOk result (λ step. IsInOrder self.old.line (begun_at self.old.stand) (begun_at self.new.stand) step) }
        ensures halts { IfOk result (λ step. is_halted self.new.stand ≡ (is_halted self.old.stand || is_some step.failed)) }
        ensures line { OnOk result (self.new.line ≡ self.old.line + 1) }
        ensures states { self.new.states ≡ self.old.states }
        ensures meter { meter.new ≡ record { lines = meter.old.lines + 1; documents = meter.old.documents } }
        ensures goes_on { OnOk result (self.new.refused ≡ false) }
        ensures refused { OnErr result (self.new.refused ≡ true) }
        ensures stays { self.old.refused ≡ true → IsErr result }
    {
        self.feed_text(row.as_str(), meter)
    }

    /// Reads the next row, given as its text without its line break, and counts it in the meter.
    /// The only error is out of memory. After an error each later call returns an error too.
    pub fn feed_text(&mut self, text: &str, meter: &mut Meter) -> Result<Step<A>, AllocError>
        requires fits { length (chars text.now) < 2 ^ 31 }
        requires few { self.old.line < 2 ^ 32 - 1 }
        requires meter { meter.old.lines < 2 ^ 32 - 1 }
        ensures told { IfOk result (λ step. (rows : List (List ℕ)) →
            remaining_output self.old.line self.old.stand (chars text.now ∷ rows)
            ≡ output_with_step self.old.line (step_value self.old.line (state_before self.old.stand) step) (remaining_output self.new.line self.new.stand rows)) }
        ensures state { IfOk result (λ step. step.state ≡ (if self.old.states then state_by (state_before self.old.stand) step.sound else None)) }
        ensures in_text { IfOk result (λ step. BeginsInText self.old.line step) }
        ensures in_order { IfOk result (λ step. IsInOrder self.old.line (begun_at self.old.stand) (begun_at self.new.stand) step) }
        ensures halts { IfOk result (λ step. is_halted self.new.stand ≡ (is_halted self.old.stand || is_some step.failed)) }
        ensures line { OnOk result (self.new.line ≡ self.old.line + 1) }
        ensures states { self.new.states ≡ self.old.states }
        ensures meter { meter.new ≡ record { lines = meter.old.lines + 1; documents = meter.old.documents } }
        ensures goes_on { OnOk result (self.new.refused ≡ false) }
        ensures refused { OnErr result (self.new.refused ≡ true) }
        ensures stays { self.old.refused ≡ true → IsErr result }
    {
        meter.lines += 1;
        if self.refused {
            return Err(AllocError);
        }
        let step = self.read(text);
        self.refused = step.is_err();
        step
    }

    /// Takes a list of lexemes, which a step held, and uses its capacity again. The lexemes in it
    /// are dropped when a later row is read. After this call the lists in steps may have more
    /// capacity than their lexemes need.
    pub fn take_back(&mut self, lexemes: Vec<Lexeme<A>, A>)
        ensures { self.new ≡ self.old }
    {
        self.room.lexemes = lexemes;
        self.room.comes_back = true;
    }

    /// Returns the number of rows that were read. A row whose call returned an error may be counted
    /// or not.
    pub fn line(&self) -> u32
        ensures { result ≡ self.now.line }
    {
        self.line
    }

    /// Returns the row in which the scalar in progress begins, if there is one. Rows count from 0,
    /// from the one at which the scanner was created.
    pub fn begun(&self) -> Option<u32>
        ensures { result ≡ begun_at self.now.stand }
    {
        match &self.resting {
            Phase::Within(begun, _) => Some(*begun),
            _ => None,
        }
    }

    /// Returns whether reading has stopped at a fault.
    pub fn is_stopped(&self) -> bool
        ensures { result ≡ is_halted self.now.stand }
    {
        match self.resting {
            Phase::Halted(_) => true,
            _ => false,
        }
    }

    /// Returns the column of each open block collection, plus one, the innermost on top. Columns
    /// count from 0, in characters. After a fault the result has no meaning.
    pub fn levels(&self) -> &ColumnStack<'a, A>
        ensures { ForSome (surroundings_in self.now.stand) (λ k. result.now ≡ k.levels) }
    {
        &self.surroundings.levels
    }

    /// Returns the open brackets, the innermost on top. After a fault the result has no meaning.
    pub fn brackets(&self) -> &BracketStack<'a, A>
        ensures { ForSome (surroundings_in self.now.stand) (λ k. result.now ≡ k.brackets) }
    {
        &self.surroundings.brackets
    }

    /// Returns the kind of the last lexeme, if there is one. After a fault the result has no
    /// meaning.
    pub fn last(&self) -> Option<Kind>
        ensures { ForSome (surroundings_in self.now.stand) (λ k. result ≡ k.last) }
    {
        self.surroundings.last
    }

    /// Returns what the end of the text reports. The only error is out of memory. Returns an error
    /// if a call before returned one.
    pub fn finish(self) -> Result<Step<A>, AllocError>
        ensures told { IfOk result (λ step. (s : LineStateValue) → remaining_output self.entry.line self.entry.stand [] ≡ at_end (step_value self.entry.line s step)) }
        ensures in_text { IfOk result (λ step. BeginsInText self.entry.line step) }
        ensures in_order { IfOk result (λ step. EndsOpen self.entry.line (begun_at self.entry.stand) step) }
        ensures stays { self.entry.refused ≡ true → IsErr result }
    {
        if self.refused {
            return Err(AllocError);
        }
        let Scanner {
            alloc,
            resting,
            line,
            ..
        } = self;
        let step = ended_text(alloc, line, resting)?;
        Ok(step)
    }
}
