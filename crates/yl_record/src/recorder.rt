//! The recorder, which makes the records of the rows that it reads.

ghost use Rattle.std.specs.Prelude.{◌≡◌, ◌≤◌, ◌<◌, ◌+◌, ◌-◌, ◌^◌, ◌∷◌, [], true, false, IfOk, OnOk, OnErr, IsErr, IsSome, List, ℕ, None, length, take, drop, option_map, slice_get, vec_len};
ghost use Rattle.std.specs.Str.{chars};
ghost use Rattle.std.specs.List.{remove_range};
ghost use Rattle.yl_text.specs.Store.{IsRange};
ghost use Rattle.yl_lexeme.specs.Known.{no_surroundings};
ghost use Rattle.yl_scan.specs.Remaining.{Fresh};
ghost use Rattle.yl_scan.specs.Resume.{phase_at};
ghost use Rattle.yl_scan.specs.Scanner.{begun_at};
ghost use Rattle.yl_record.specs.Records.{records};
ghost use Rattle.yl_record.specs.Recorded.{records_from};
ghost use Rattle.yl_record.specs.Recorded.{recorded, recorded_of, records_without_states};
ghost use Rattle.yl_record.specs.Recorder.{KeepsStep, complete_before, complete_count, state_in};

use crate::record::Record;
use crate::rows::{add_end, add_row};
use std::alloc::{AllocError, Allocator};
use std::marker::Model;
use yl_lexeme::Meter;
use yl_scan::{LineState, Scanner};

/// A recorder. It reads the rows of a text, from the first or from a sound one on, and makes their
/// records. What it reads in a row may belong to the record of an earlier row. A record is complete
/// once no scalar is in progress that began in its row or above it.
#[derive(Drop)]
pub struct Recorder<'a, A: Allocator + Copy> {
    /// The allocator.
    alloc: A,
    /// The scanner of the rows.
    scanner: Scanner<'a, A>,
    /// The records of the rows that were read, without those that were released, and without the
    /// scalar in progress.
    records: Vec<Record<A>, A>,
    /// The number of records that were released.
    taken: u32,
    /// Whether a call returned an error.
    refused: bool,
}

impl<'a, A: Allocator + Copy> Model for Recorder<'a, A> {
    ghost use Rattle.std.specs.Prelude.{◌≡◌, false};
    ghost use Rattle.yl_record.specs.Recorded.{RecorderValue};
    ghost use Rattle.yl_record.specs.Recorder.{KeepsStep};

    ghost Value = { RecorderValue };

    ghost view = { λ r. record { records = r.records.items; taken = r.taken; stand = r.scanner.stand; states = r.scanner.states; refused = r.refused } };

    ghost invariant = { λ r. r.refused ≡ false → KeepsStep r.records.items r.taken r.scanner };
}

/// Reads a row with the scanner, and adds what it reports to the records. `taken` is the number of
/// records that were released. The only error is out of memory.
fn feed_row<A: Allocator + Copy>(
    alloc: A,
    scanner: &mut Scanner<'_, A>,
    records: &mut Vec<Record<A>, A>,
    taken: u32,
    text: &str,
    meter: &mut Meter,
) -> Result<(), AllocError>
    requires fits { length (chars text.now) < 2 ^ 31 }
    requires few { scanner.old.line < 2 ^ 32 - 1 }
    requires meter { meter.old.lines < 2 ^ 32 - 1 }
    requires keeps { KeepsStep records.old.items taken scanner.old }
    ensures keeps { OnOk result (KeepsStep records.new.items taken scanner.new) }
    ensures told { OnOk result ((rows : List (List ℕ)) → recorded_of records.new.items taken scanner.new.states scanner.new.stand rows ≡ recorded_of records.old.items taken scanner.old.states scanner.old.stand (chars text.now ∷ rows)) }
    ensures count { OnOk result (length records.new.items ≡ length records.old.items + 1) }
    ensures states { scanner.new.states ≡ scanner.old.states }
    ensures meter { meter.new ≡ record { lines = meter.old.lines + 1; documents = meter.old.documents } }
{
    let line = scanner.line();
    let step = scanner.feed_text(text, meter)?;
    add_row(alloc, records, taken, line, text, step)
}

/// Adds what the end of the text reports to the records. `taken` is the number of records that were
/// released. The only error is out of memory.
fn end_rows<A: Allocator + Copy>(
    alloc: A,
    scanner: Scanner<'_, A>,
    records: &mut Vec<Record<A>, A>,
    taken: u32,
) -> Result<(), AllocError>
    requires { KeepsStep records.old.items taken scanner }
    ensures { OnOk result (records.new.items ≡ recorded_of records.old.items taken scanner.entry.states scanner.entry.stand []) }
{
    let line = scanner.line();
    let step = scanner.finish()?;
    add_end(alloc, records, taken, line, step)
}

/// Drops the first `count` records.
fn remove_front<A: Allocator>(records: &mut Vec<Record<A>, A>, count: usize)
    requires { IsRange 0 count (vec_len records.old) }
    ensures { records.new.items ≡ remove_range records.old.items 0 count }
{
    drop(records.drain(0..count));
}

/// Returns how many of `count` records are complete. `begun` is the row in which the scalar in
/// progress began, and `taken` is the number of records that were released.
fn complete_len(begun: Option<u32>, taken: u32, count: usize) -> usize
    ensures { result ≡ complete_before count taken begun }
{
    match begun {
        None => count,
        Some(begun) => begun.saturating_sub(taken) as usize,
    }
}

impl<'a, A: Allocator + Copy> Recorder<'a, A> {
    /// Creates a recorder over a scanner that has read no row.
    fn over(alloc: &'a A, scanner: Scanner<'a, A>) -> Recorder<'a, A>
        requires line { scanner.line ≡ 0 }
        requires fresh { begun_at scanner.stand ≡ None }
        ensures { result ≡ record { records = []; taken = 0; stand = scanner.entry.stand; states = scanner.entry.states; refused = false } }
    {
        Recorder {
            alloc: *alloc,
            scanner,
            records: Vec::new(*alloc),
            taken: 0,
            refused: false,
        }
    }

    /// Creates a recorder at the start of a text.
    pub fn start(alloc: &'a A) -> Recorder<'a, A>
        ensures at { result ≡ record { records = []; taken = 0; stand = Fresh true no_surroundings; states = true; refused = false } }
        ensures told { (rows : List (List ℕ)) → recorded result rows ≡ records rows }
    {
        let scanner = Scanner::start(alloc);
        Recorder::over(alloc, scanner)
    }

    /// Creates a recorder at the start of a text whose records hold no states.
    pub fn start_without_states(alloc: &'a A) -> Recorder<'a, A>
        ensures at { result ≡ record { records = []; taken = 0; stand = Fresh true no_surroundings; states = false; refused = false } }
        ensures told { (rows : List (List ℕ)) → recorded result rows ≡ records_without_states rows }
    {
        let scanner = Scanner::start_without_states(alloc);
        Recorder::over(alloc, scanner)
    }

    /// Creates a recorder before a sound row with this state. The only error is out of memory.
    pub fn resume(alloc: &'a A, state: &LineState<A>) -> Result<Recorder<'a, A>, AllocError>
        ensures at { IfOk result (λ r. r ≡ record { records = []; taken = 0; stand = phase_at state.now; states = true; refused = false }) }
        ensures told { IfOk result (λ r. (rows : List (List ℕ)) → recorded r rows ≡ records_from state.now rows) }
    {
        let scanner = Scanner::resume(alloc, state)?;
        Ok(Recorder::over(alloc, scanner))
    }

    /// Reads the next row, given as its text without its line break, and counts it in the meter.
    /// The only error is out of memory. After an error each later call returns an error too.
    pub fn feed_text(&mut self, text: &str, meter: &mut Meter) -> Result<(), AllocError>
        requires fits { length (chars text.now) < 2 ^ 31 }
        requires few { self.old.refused ≡ false → self.old.taken + length self.old.records < 2 ^ 32 - 1 }
        requires meter { meter.old.lines < 2 ^ 32 - 1 }
        ensures told { OnOk result ((rows : List (List ℕ)) → recorded self.new rows ≡ recorded self.old (chars text.now ∷ rows)) }
        ensures count { OnOk result (length self.new.records ≡ length self.old.records + 1) }
        ensures taken { self.new.taken ≡ self.old.taken }
        ensures states { self.new.states ≡ self.old.states }
        ensures meter { meter.new ≡ record { lines = meter.old.lines + 1; documents = meter.old.documents } }
        ensures goes_on { OnOk result (self.new.refused ≡ false) }
        ensures refused { OnErr result (self.new.refused ≡ true) }
        ensures stays { self.old.refused ≡ true → IsErr result }
    {
        if self.refused {
            meter.lines += 1;
            return Err(AllocError);
        }
        self.refused = true;
        feed_row(
            self.alloc,
            &mut self.scanner,
            &mut self.records,
            self.taken,
            text,
            meter,
        )?;
        self.refused = false;
        Ok(())
    }

    /// Returns the number of rows that were read, including those whose records were released.
    /// After an error the result has no meaning.
    pub fn line(&self) -> u32
        ensures { self.now.refused ≡ false → result ≡ self.now.taken + length self.now.records }
    {
        self.scanner.line()
    }

    /// Returns the state of the row that was read last. Returns `None` if that row is not sound, if
    /// states are not wanted, or if its record was released.
    pub fn state(&self) -> Option<&LineState<A>>
        ensures { option_map (λ s. s.now) result ≡ state_in (slice_get self.now.records (length self.now.records - 1)) }
    {
        match self.records.last() {
            None => None,
            Some(record) => record.state(),
        }
    }

    /// Returns the complete records, from the first one that was not released on: those of the rows
    /// above the one in which the scalar in progress began, or of all rows that were read. No call
    /// may have returned an error.
    pub fn complete(&self) -> &[Record<A>]
        requires { self.now.refused ≡ false }
        ensures count { length result.now ≡ complete_count self.now }
        ensures within { length result.now ≤ length self.now.records }
        ensures told { (rows : List (List ℕ)) → result.now ≡ take (length result.now) (recorded self.now rows) }
    {
        let count = complete_len(self.scanner.begun(), self.taken, self.records.len());
        &self.records[..count]
    }

    /// Releases the first `count` of the complete records. No call may have returned an error.
    pub fn let_go(&mut self, count: usize)
        requires whole { self.old.refused ≡ false }
        requires complete { count ≤ complete_count self.old }
        ensures told { (rows : List (List ℕ)) → recorded self.new rows ≡ drop count (recorded self.old rows) }
        ensures at { self.new ≡ record { records = drop count self.old.records; taken = self.old.taken + count; stand = self.old.stand; states = self.old.states; refused = false } }
    {
        remove_front(&mut self.records, count);
        self.taken += count as u32;
    }

    /// Returns the records of the rows that were read, without those that were released, and
    /// without the last one, whose row must be sound. No call may have returned an error.
    pub fn cut(self) -> Vec<Record<A>, A>
        requires whole { self.refused ≡ false }
        requires sound { IsSome (state_in (slice_get self.records (length self.records - 1))) }
        ensures { (rows : List (List ℕ)) → result.items ≡ take (length self.entry.records - 1) (recorded self.entry rows) }
    {
        let Recorder { records, .. } = self;
        let mut records = records;
        let _ = records.pop();
        records
    }

    /// Returns the records of all rows that were read, without those that were released. The text
    /// ends after the last row that was read. The only error is out of memory. Returns an error if
    /// a call before returned one.
    pub fn finish(self) -> Result<Vec<Record<A>, A>, AllocError>
        ensures told { IfOk result (λ records. records.items ≡ recorded self.entry []) }
        ensures stays { self.entry.refused ≡ true → IsErr result }
    {
        if self.refused {
            return Err(AllocError);
        }
        let Recorder {
            alloc,
            scanner,
            records,
            taken,
            ..
        } = self;
        let mut records = records;
        end_rows(alloc, scanner, &mut records, taken)?;
        Ok(records)
    }
}
