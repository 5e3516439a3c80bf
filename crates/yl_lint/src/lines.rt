//! The findings of the rules on lines in a text, and the end of the text.
ghost use Rattle.std.specs.Prelude.{◌≡◌, ◌+◌, ◌++◌, ◌-◌, ◌<◌, ◌^◌, ◌∷◌, [], List, IfOk, OnOk, length};
ghost use Rattle.std.specs.Str.{chars};
ghost use Rattle.yl_config.specs.Config.{options_of};
ghost use Rattle.yl_text.specs.Lines.{RowValue};
ghost use Rattle.yl_text.specs.Store.{AreLines, end_of_lines};
ghost use Rattle.yl_lint.specs.Left.{lines_left};
ghost use Rattle.yl_lint.specs.TextReport.{findings_in_lines, first_text};

use std::alloc::{AllocError, Allocator};
use std::marker::Model;
use yl_config::Config;
use yl_rules::{RowOptions, RunReader, character_count, push_line_problems};
use yl_text::{Break, Finding, Lines, Pos, Row, rows_fit};

/// A reader that takes the lines of a text one after another and collects the findings of the rules
/// on lines. It keeps a reference to the last line only.
#[derive(Drop)]
pub struct LineReader<'a, A: Allocator + Copy> {
    alloc: A,
    options: RowOptions,
    runs: RunReader<'a>,
    /// The findings of the rules that look at one line.
    found: Vec<Finding<A>, A>,
    /// The findings of the rules that look at the lines of a whole text.
    found_in_runs: Vec<Finding<A>, A>,
}

impl<'a, A: Allocator + Copy> Model for LineReader<'a, A> {
    ghost use Rattle.yl_lint.specs.Left.{LineReaderValue};

    ghost Value = { LineReaderValue };

    ghost view = { λ r. record { options = r.options; runs = r.runs; found = r.found.items; found_in_runs = r.found_in_runs.items } };
}

impl<'a, A: Allocator + Copy> LineReader<'a, A> {
    /// Creates a reader at the start of a text.
    pub fn start(alloc: A, config: &Config) -> LineReader<'a, A>
        ensures left { (rows : List RowValue) → lines_left result rows ≡ findings_in_lines (options_of config.now) rows }
        ensures count { result.runs.count ≡ 0 }
        ensures last { result.runs.last ≡ [] }
    {
        LineReader {
            alloc,
            options: *config.row_options(),
            runs: RunReader::start(config.run_options()),
            found: Vec::new(alloc),
            found_in_runs: Vec::new(alloc),
        }
    }

    /// Reads the next line. The only error is out of memory. After an error the reader must not be
    /// used.
    #[inline(always)]
    pub fn pass(&mut self, text: &'a str, end: Break) -> Result<(), AllocError>
        requires { self.old.runs.count < 2 ^ 64 - 1 }
        ensures left { OnOk result ((rows : List RowValue)
            → lines_left self.new rows ≡ lines_left self.old (record { text = text.now; end = end } ∷ rows)) }
        ensures count { OnOk result (self.new.runs.count ≡ self.old.runs.count + 1) }
        ensures last { OnOk result (self.new.runs.last ≡ text.now) }
    {
        let line = self.runs.count() + 1;
        push_line_problems(self.alloc, line, text, &self.options, &mut self.found)?;
        self.runs
            .pass(self.alloc, text, end, &mut self.found_in_runs)?;
        Ok(())
    }

    /// Returns the position after the last character of the lines that were read.
    pub fn end(&self) -> Pos
        requires count { self.now.runs.count < 2 ^ 32 }
        requires last { length self.now.runs.last < 2 ^ 32 }
        ensures { result ≡ record { line = self.now.runs.count - 1; col = length (chars self.now.runs.last) } }
    {
        self.runs.end()
    }

    /// Returns the findings of the rules on lines, if no line follows. The only error is out of
    /// memory.
    pub fn finish(self) -> Result<Vec<Finding<A>, A>, AllocError>
        ensures { IfOk result (λ found. found.items ≡ lines_left self.entry []) }
    {
        let LineReader {
            alloc,
            runs,
            mut found,
            mut found_in_runs,
            ..
        } = self;
        runs.finish(alloc, &mut found_in_runs)?;
        found.append(&mut found_in_runs)?;
        Ok(found)
    }
}

/// Reads the next lines. The only error is out of memory.
fn pass_all<'a, A: Allocator + Copy>(
    reader: &mut LineReader<'a, A>,
    rows: &'a [Row<A>],
) -> Result<(), AllocError>
    requires { reader.old.runs.count + length rows.now < 2 ^ 64 }
    ensures left { OnOk result ((later : List RowValue) → lines_left reader.new later ≡ lines_left reader.old (rows.now ++ later)) }
    ensures count { OnOk result (reader.new.runs.count ≡ reader.old.runs.count + length rows.now) }
{
    for row in rows {
        reader.pass(row.as_str(), row.end())?;
    }
    Ok(())
}

/// Returns the findings of the rules on lines in a text. The only error is out of memory.
pub fn find_in_lines<L: Lines>(
    alloc: L::Alloc,
    config: &Config,
    lines: &L,
) -> Result<Vec<Finding<L::Alloc>, L::Alloc>, AllocError>
    ensures { IfOk result (λ found. found.items ≡ findings_in_lines (options_of config.now) (L.rows lines.now)) }
{
    let count = lines.len();
    let mut reader = LineReader::start(alloc, config);
    let mut passed = 0;
    while passed < count {
        let rows = lines.rows_from(passed);
        if rows.is_empty() {
            let row = lines.row(passed);
            reader.pass(row.as_str(), row.end())?;
            passed += 1;
        } else {
            pass_all(&mut reader, rows)?;
            passed += rows.len();
        }
    }
    reader.finish()
}

/// Returns the text of the first line without its line break, or an empty string if there is no
/// line.
pub fn first_text<L: Lines>(lines: &L) -> &str
    ensures { result.now ≡ first_text (L.rows lines.now) }
{
    if lines.len() == 0 {
        return "";
    }
    lines.row(0).as_str()
}

/// Returns the position after the last character of the last line.
pub fn end_of<L: Lines>(lines: &L) -> Pos
    requires { AreLines (L.rows lines.now) }
    ensures { result ≡ end_of_lines (L.rows lines.now) }
{
    rows_fit(lines);
    let count = lines.len();
    if count == 0 {
        return Pos { line: 0, col: 0 };
    }
    let last = lines.row(count - 1).as_str();
    Pos {
        line: (count - 1) as u32,
        col: character_count(last) as u32,
    }
}
