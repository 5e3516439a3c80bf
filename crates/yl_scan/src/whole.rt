//! Scans a whole text, row by row.

ghost use Rattle.std.specs.Prelude.{◌≡◌, ◌<◌, ◌+◌, ◌-◌, ◌^◌, ◌++◌, [], IfOk, OnOk, ℕ, Option, None, All, length, map, option_map, option_to_list};
ghost use Rattle.std.specs.Option.{ForSome};
ghost use Rattle.std.specs.Str.{chars};
ghost use Rattle.yl_row.specs.Entries.{LineStateValue, entries};
ghost use Rattle.yl_scan.specs.Output.{at_line, first_fault, output_with_step, no_output, output_of_entries};
ghost use Rattle.yl_scan.specs.Step.{BeginsInText, IsAbove, IsNotBelow, at_end, characters_of, lexeme_above_at, fault_above_at, step_value};
ghost use Rattle.yl_scan.specs.Whole.{comments_in, fault_of, text_value_of_output, scanned_text_value, text_value_then, lexeme_in};

use crate::scanner::Scanner;
use crate::step::{FaultAbove, LexemeAbove, Step};
use std::alloc::{AllocError, Allocator};
use yl_lexeme::{Comment, Lexeme, Meter};
use yl_row::PlacedScanFault;
use yl_text::Row;

/// A lexeme, and the line in which it begins.
#[derive(Drop)]
pub struct LineLexeme<A: Allocator> {
    /// The line, counted from 0.
    pub line: u32,
    /// The lexeme.
    pub lexeme: Lexeme<A>,
}

/// A comment, and its line.
#[derive(Drop)]
pub struct LineComment<A: Allocator> {
    /// The line, counted from 0.
    pub line: u32,
    /// The comment.
    pub comment: Comment<A>,
}

/// A fault, and the line in which its lexeme begins.
#[derive(Clone, Copy)]
pub struct LineFault {
    /// The line in which the lexeme begins, counted from 0.
    pub line: u32,
    /// The fault. Its position is relative to that line.
    pub fault: PlacedScanFault,
}

/// What a text consists of.
#[derive(Drop)]
pub struct ScannedText<A: Allocator> {
    /// The lexemes, in order.
    pub lexemes: Vec<LineLexeme<A>, A>,
    /// The comments, in order.
    pub comments: Vec<LineComment<A>, A>,
    /// For each line, whether it is sound.
    pub sound: Vec<bool, A>,
    /// The scan fault, if there is one.
    pub fault: Option<LineFault>,
}

/// Appends a lexeme that began in a row above `line`, if there is one. The only error is out of
/// memory.
fn add_ended<A: Allocator>(
    all: &mut Vec<LineLexeme<A>, A>,
    line: u32,
    ended: Option<LexemeAbove<A>>,
) -> Result<(), AllocError>
    requires { ForSome ended (IsAbove line) }
    ensures { OnOk result (map lexeme_in all.new.items ≡ map lexeme_in all.old.items ++ option_to_list (option_map (lexeme_above_at line) ended)) }
{
    if let Some(LexemeAbove { ago, lexeme }) = ended {
        let line = line - ago;
        all.push(LineLexeme { line, lexeme })?;
    }
    Ok(())
}

/// Appends the lexemes of a line. The only error is out of memory.
fn add_lexemes<A: Allocator>(
    all: &mut Vec<LineLexeme<A>, A>,
    line: u32,
    lexemes: Vec<Lexeme<A>, A>,
) -> Result<(), AllocError>
    ensures { OnOk result (map lexeme_in all.new.items ≡ map lexeme_in all.old.items ++ map (at_line line) lexemes.items) }
{
    for lexeme in lexemes {
        all.push(LineLexeme { line, lexeme })?;
    }
    Ok(())
}

/// Appends the comment of a line, if there is one. The only error is out of memory.
fn add_comment<A: Allocator>(
    all: &mut Vec<LineComment<A>, A>,
    line: u32,
    comment: Option<Comment<A>>,
) -> Result<(), AllocError>
    ensures { OnOk result (comments_in all.new.items ≡ comments_in all.old.items ++ option_to_list (option_map (at_line line) comment)) }
{
    if let Some(comment) = comment {
        all.push(LineComment { line, comment })?;
    }
    Ok(())
}

/// Returns the first of two faults. `failed` is a fault that the step of `line` reports.
fn first_of(fault: Option<LineFault>, line: u32, failed: Option<FaultAbove>) -> Option<LineFault>
    requires { ForSome failed (IsNotBelow line) }
    ensures { fault_of result ≡ first_fault (fault_of fault) (option_map (fault_above_at line) failed) }
{
    match (fault, failed) {
        (None, Some(failed)) => Some(LineFault {
            line: line - failed.ago,
            fault: failed.fault,
        }),
        _ => fault,
    }
}

impl<A: Allocator + Copy> ScannedText<A> {
    /// Creates the value for a text without rows.
    fn empty(alloc: A) -> ScannedText<A>
        ensures { scanned_text_value result ≡ text_value_of_output no_output }
    {
        ScannedText {
            lexemes: Vec::new(alloc),
            comments: Vec::new(alloc),
            sound: Vec::new(alloc),
            fault: None,
        }
    }

    /// Adds what the row at this line reports. The only error is out of memory.
    fn add_row(&mut self, line: u32, step: Step<A>) -> Result<(), AllocError>
        requires { BeginsInText line step }
        ensures { OnOk result ((s : LineStateValue) → scanned_text_value self.new ≡ text_value_then (scanned_text_value self.old) (output_with_step line (step_value line s step) no_output)) }
    {
        let is_sound = step.is_sound();
        let Step {
            ended,
            lexemes,
            comment,
            failed,
            ..
        } = step;
        add_ended(&mut self.lexemes, line, ended)?;
        add_lexemes(&mut self.lexemes, line, lexemes)?;
        add_comment(&mut self.comments, line, comment)?;
        self.sound.push(is_sound)?;
        self.fault = first_of(self.fault, line, failed);
        Ok(())
    }

    /// Adds what the end of the text reports. `line` is the number of rows. The only error is out
    /// of memory.
    fn add_end(&mut self, line: u32, step: Step<A>) -> Result<(), AllocError>
        requires { BeginsInText line step }
        ensures { OnOk result ((s : LineStateValue) → scanned_text_value self.new ≡ text_value_then (scanned_text_value self.old) (at_end (step_value line s step))) }
    {
        add_ended(&mut self.lexemes, line, step.ended)?;
        self.fault = first_of(self.fault, line, step.failed);
        Ok(())
    }
}

/// Returns what a text of these rows consists of. Counts each row in the meter. The only error is
/// out of memory.
pub fn scan<A: Allocator + Copy>(
    alloc: A,
    rows: &[Row<A>],
    meter: &mut Meter,
) -> Result<ScannedText<A>, AllocError>
    requires few { length rows.now < 2 ^ 32 - 1 }
    requires fits { All (λ row. length (chars row.text) < 2 ^ 31) rows.now }
    requires meter { meter.old.lines + length rows.now < 2 ^ 32 }
    ensures told { IfOk result (λ scanned. scanned_text_value scanned ≡ text_value_of_output (output_of_entries 0 (entries (characters_of rows.now)))) }
    ensures meter { OnOk result (meter.new ≡ record { lines = meter.old.lines + length rows.now; documents = meter.old.documents }) }
{
    let mut scanner = Scanner::start_without_states(&alloc);
    let mut scanned = ScannedText::empty(alloc);
    for row in rows {
        let line = scanner.line();
        let step = scanner.feed(row, meter)?;
        scanned.add_row(line, step)?;
    }
    let line = scanner.line();
    let step = scanner.finish()?;
    scanned.add_end(line, step)?;
    Ok(scanned)
}
