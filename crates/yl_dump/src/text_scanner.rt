//! Scans a text line by line.
ghost use Rattle.std.specs.Prelude.{◌≡◌, ◌≢◌, ◌≤◌, ◌↔◌, ◌+◌, ◌||◌, [], drop, length, true, false, None, is_some, if◌then◌else◌, IsTrue, IfOk, OnErr, OnOk};
ghost use Rattle.yl_text.specs.declared.TheConstants.{MAX_BYTES};
ghost use Rattle.yl_text.specs.Lines.{lines_of};
ghost use Rattle.yl_scan.specs.Output.{output_with_step};
ghost use Rattle.yl_scan.specs.Remaining.{Fresh, remaining_output};
ghost use Rattle.yl_scan.specs.Scanner.{is_halted, state_before};
ghost use Rattle.yl_scan.specs.Step.{at_end, state_by, step_value, characters_of};
ghost use Rattle.yl_row.specs.Entries.{LineStateValue};
ghost use Rattle.yl_lexeme.specs.Known.{no_surroundings};
ghost use Rattle.yl_dump.specs.Writing.{output_left};

use crate::characters::character_count;
use crate::fault::TextPlace;
use std::alloc::{AllocError, Allocator};
use std::marker::Model;
use yl_lexeme::{Lexeme, Meter};
use yl_scan::{Scanner, Step};
use yl_text::{Break, cut_line};

/// A scanner, and the lines of a text that it has not read yet.
#[derive(Drop)]
pub struct TextScanner<'t, 'a, A: Allocator + Copy> {
    scanner: Scanner<'a, A>,
    meter: Meter,
    // The last line that was read, without its line break.
    last: &'t str,
    // Whether this was the last line of the text, or memory ran out.
    is_done: bool,
    // The text after the line break of this line.
    rest: &'t str,
}

impl<'t, 'a, A: Allocator + Copy> Model for TextScanner<'t, 'a, A> {
    ghost use Rattle.std.specs.Prelude.{◌≡◌, false};
    ghost use Rattle.yl_dump.specs.TextScan.{TextScannerValue, IsInText, rows_of};

    ghost Value = { TextScannerValue };

    ghost view = { λ s. record { line = s.scanner.line; stand = s.scanner.stand; rows = rows_of s.is_done s.rest.now; states = s.scanner.states } };

    ghost invariant = { λ s. s.is_done ≡ false → IsInText s.scanner.line s.meter.lines s.rest.now };
}

impl<'t, 'a, A: Allocator + Copy> TextScanner<'t, 'a, A> {
    /// Creates a scanner at the start of a text. Its steps have states.
    pub fn new(alloc: &'a A, text: &'t str) -> TextScanner<'t, 'a, A>
        requires { length text.now ≤ MAX_BYTES }
        ensures { result ≡ record { line = 0; stand = Fresh true no_surroundings; rows = lines_of text.now; states = true } }
    {
        TextScanner {
            scanner: Scanner::start(alloc),
            meter: Meter::new(),
            last: "",
            is_done: false,
            rest: text,
        }
    }

    /// Creates a scanner at the start of a text. Its steps have no states.
    pub fn without_states(alloc: &'a A, text: &'t str) -> TextScanner<'t, 'a, A>
        requires { length text.now ≤ MAX_BYTES }
        ensures { result ≡ record { line = 0; stand = Fresh true no_surroundings; rows = lines_of text.now; states = false } }
    {
        TextScanner {
            scanner: Scanner::start_without_states(alloc),
            meter: Meter::new(),
            last: "",
            is_done: false,
            rest: text,
        }
    }

    /// Returns the number of lines that were read.
    pub fn line(&self) -> u32
        ensures { result ≡ self.now.line }
    {
        self.scanner.line()
    }

    /// Returns `true` if no line is left to read.
    pub fn is_done(&self) -> bool
        ensures { IsTrue result ↔ (self.now.rows ≡ []) }
    {
        self.is_done
    }

    /// Reads the next line, and returns what is found in it. The only error is out of memory, after
    /// which no line is left to read.
    pub fn read_line(&mut self) -> Result<Step<A>, AllocError>
        requires { self.old.rows ≢ [] }
        ensures passed { OnOk result (self.new.rows ≡ drop 1 self.old.rows) }
        ensures line { OnOk result (self.new.line ≡ self.old.line + 1) }
        ensures states { self.new.states ≡ self.old.states }
        ensures refused { OnErr result (self.new.rows ≡ []) }
        ensures state { IfOk result (λ step. step.state ≡ (if self.old.states then state_by (state_before self.old.stand) step.sound else None)) }
        ensures halts { IfOk result (λ step. is_halted self.new.stand ≡ (is_halted self.old.stand || is_some step.failed)) }
        ensures told { IfOk result (λ step.
            remaining_output self.old.line self.old.stand (characters_of self.old.rows)
            ≡ output_with_step self.old.line (step_value self.old.line (state_before self.old.stand) step) (remaining_output self.new.line self.new.stand (characters_of self.new.rows))) }
    {
        let first = cut_line(self.rest);
        self.is_done = true;
        let step = self.scanner.feed_text(first.line, &mut self.meter)?;
        self.last = first.line;
        self.is_done = first.end == Break::No;
        self.rest = first.rest;
        Ok(step)
    }

    /// Takes back the list of lexemes of a step, so that its allocation is used again, if it has
    /// one. Drops the lexemes in the list.
    pub fn take_back(&mut self, lexemes: Vec<Lexeme<A>, A>)
        ensures { self.new ≡ self.old }
    {
        if lexemes.capacity() > 0 {
            self.scanner.take_back(lexemes);
        }
    }

    /// Returns the position of the end of the last line that was read.
    pub fn end(&self) -> TextPlace {
        TextPlace {
            line: u64::from(self.scanner.line()).saturating_sub(1),
            column: character_count(self.last),
        }
    }

    /// Ends the scan, and returns what is found at the end of the text. The only error is out of
    /// memory.
    pub fn finish(self) -> Result<Step<A>, AllocError>
        requires { self.rows ≡ [] }
        ensures { IfOk result (λ step. (s : LineStateValue) → output_left self.entry ≡ at_end (step_value self.entry.line s step)) }
    {
        self.scanner.finish()
    }
}
