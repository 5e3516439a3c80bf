//! The rules that look at the lines of a whole text.
ghost use Rattle.std.specs.Prelude.{◌≡◌, ◌+◌, ◌-◌, ◌<◌, ◌^◌, ◌++◌, ◌∷◌, [], List, length, IfOk, OnErr, OnOk};
ghost use Rattle.std.specs.Str.{chars};
ghost use Rattle.yl_text.specs.Lines.{RowValue};
ghost use Rattle.yl_rules.specs.Runs.{run_findings};
ghost use Rattle.yl_rules.specs.RunsLeft.{runs_left};

use crate::empty_lines::{next_run, push_last_run, push_run_before};
use crate::end_of_file::end_of_file_problem;
use crate::new_lines::push_new_lines;
use crate::options::RunOptions;
use crate::pushes::push_found;
use crate::width::character_count;
use std::alloc::{AllocError, Allocator};
use std::marker::Model;
use yl_text::{Break, Finding, Lines, Pos};

/// A reader that takes the lines of a text one after another and appends the findings of the rules
/// new-lines, empty-lines and new-line-at-end-of-file. Of the lines that were read it keeps a few
/// numbers and a reference to the last one.
#[derive(Drop)]
pub struct RunReader<'a> {
    options: RunOptions,
    /// The number of lines that were read.
    count: usize,
    /// The number of lines at their end that consist of a break only.
    run: usize,
    /// The text of the last one, or an empty text if there is none.
    last: &'a str,
}

impl<'a> Model for RunReader<'a> {
    ghost use Rattle.std.specs.Prelude.{◌≤◌};
    ghost use Rattle.yl_rules.specs.RunsLeft.{RunReaderValue};

    ghost Value = { RunReaderValue };

    ghost view = { λ r. record { options = r.options; count = r.count; run = r.run; last = r.last.now } };

    ghost invariant = { λ r. r.run ≤ r.count };
}

impl<'a> RunReader<'a> {
    /// Creates a reader at the start of a text.
    pub fn start(options: &RunOptions) -> RunReader<'a>
        ensures at { result ≡ record { options = options.now; count = 0; run = 0; last = [] } }
        ensures left { (rows : List RowValue) → runs_left result rows ≡ run_findings options.now rows }
    {
        RunReader {
            options: *options,
            count: 0,
            run: 0,
            last: "",
        }
    }

    /// Returns the number of lines that were read.
    pub fn count(&self) -> u64
        ensures { result ≡ self.now.count }
    {
        self.count as u64
    }

    /// Returns the position after the last character of the lines that were read.
    pub fn end(&self) -> Pos
        requires count { self.now.count < 2 ^ 32 }
        requires last { length self.now.last < 2 ^ 32 }
        ensures { result ≡ record { line = self.now.count - 1; col = length (chars self.now.last) } }
    {
        Pos {
            line: self.count.saturating_sub(1) as u32,
            col: character_count(self.last) as u32,
        }
    }

    /// Reads the next line, and appends what is found up to it. The only error is out of memory:
    /// then nothing changes.
    pub fn pass<A: Allocator + Copy>(
        &mut self,
        alloc: A,
        text: &'a str,
        end: Break,
        found: &mut Vec<Finding<A>, A>,
    ) -> Result<(), AllocError>
        requires { self.old.count < 2 ^ 64 - 1 }
        ensures found { OnOk result ((rows : List RowValue)
            → found.new.items ++ runs_left self.new rows ≡ found.old.items ++ runs_left self.old (record { text = text.now; end = end } ∷ rows)) }
        ensures count { OnOk result (self.new.count ≡ self.old.count + 1) }
        ensures last { OnOk result (self.new.last ≡ text.now) }
        ensures err { OnErr result (found.new.items ≡ found.old.items) }
        ensures stays { OnErr result (self.new ≡ self.old) }
    {
        let options = &self.options;
        push_new_lines(options.new_line, self.count, text, end, found)?;
        push_run_before(
            alloc,
            &options.empty_lines,
            self.run,
            self.count,
            text,
            end,
            found,
        )?;
        self.run = next_run(self.run, text, end);
        self.count += 1;
        self.last = text;
        Ok(())
    }

    /// Appends what is found at the end, if no line follows. The only error is out of memory.
    pub fn finish<A: Allocator + Copy>(
        self,
        alloc: A,
        found: &mut Vec<Finding<A>, A>,
    ) -> Result<(), AllocError>
        ensures { OnOk result (found.new.items ≡ found.old.items ++ runs_left self.entry []) }
    {
        push_last_run(
            alloc,
            &self.options.empty_lines,
            self.run,
            self.count,
            found,
        )?;
        push_found(found, end_of_file_problem(self.count, self.last))
    }
}

/// Returns the findings of the rules new-lines, empty-lines and new-line-at-end-of-file in a text.
/// The only error is out of memory.
pub fn run_problems<L: Lines>(
    alloc: L::Alloc,
    lines: &L,
    options: &RunOptions,
) -> Result<Vec<Finding<L::Alloc>, L::Alloc>, AllocError>
    ensures { IfOk result (λ v. v.items ≡ run_findings options.now (L.rows lines.now)) }
{
    let mut found = Vec::new(alloc);
    let mut reader = RunReader::start(options);
    for i in 0..lines.len() {
        let row = lines.row(i);
        reader.pass(alloc, row.as_str(), row.end(), &mut found)?;
    }
    reader.finish(alloc, &mut found)?;
    Ok(found)
}
