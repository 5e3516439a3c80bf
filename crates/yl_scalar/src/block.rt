//! Block scalars: YAML 1.2.2, 8.1. Their values are not read.
ghost use Rattle.std.specs.Prelude.{◌≡◌, ◌≤◌, ◌<◌, ◌+◌, ◌^◌, ℕ, [], IfOk, OnErr, OnOk, IsErr, None, true, false, length};
ghost use Rattle.yl_scalar.specs.Reading.{Whole};
ghost use Rattle.yl_scalar.specs.Header.{indicators, misfit};
ghost use Rattle.yl_scalar.specs.BlockLines.{deeper};
ghost use Rattle.yl_scalar.specs.Block.{block_begin, block_step, block_finish, with_content, text_line, header_end, header_read};
ghost use Rattle.yl_text.specs.Character.{is_blank};
ghost use Rattle.yl_scalar.specs.Reader.{step_value, extent_at, block_reader_value, block_rows, is_block_refused};

use crate::answer::{ScalarFault, ScalarPlace, ScalarStep};
use crate::character::{first_bad, indentation, is_blank, is_marker};
use crate::header::{indicators, misfit};
use std::alloc::{AllocError, Allocator};

/// A reader of a block scalar, which takes its rows one after another.
#[derive(Drop)]
pub struct BlockReader<A: Allocator> {
    least: usize,
    /// The content column, once it is known.
    content: Option<usize>,
    down: usize,
    column: usize,
    blanks: usize,
    /// The number of leading spaces of each blank row before the content column is known.
    spaces: Vec<usize, A>,
    failed: bool,
}

/// Returns the first of these numbers of leading spaces that is greater than `column`, after the
/// number of its row. Rows are counted from 1.
fn deeper(column: usize, spaces: &[usize]) -> Option<(usize, usize)>
    ensures { result ≡ deeper column 1 spaces.now }
{
    for (i, n) in spaces.iter().enumerate() {
        if *n > column {
            return Some((i + 1, *n));
        }
    }
    None
}

/// Reads a header that begins at the column `column`, and returns the result.
fn read_header(column: usize, header: &[char]) -> ScalarStep
    requires { column + length header.now < 2 ^ 64 }
    ensures { (least : ℕ) → step_value result [] (header_end least (indicators header.now).0 (column + length header.now))
        ≡ header_read least column header.now (misfit header.now) }
{
    let Some(at) = misfit(header) else {
        return match first_bad(header) {
            None => ScalarStep::GoesOn,
            Some(bad) => not_allowed(column + bad),
        };
    };
    match first_bad(&header[..at + 1]) {
        None => ScalarStep::Fails(
            ScalarFault::BadHeader,
            ScalarPlace {
                down: 0,
                column: column + at,
            },
        ),
        Some(bad) => not_allowed(column + bad),
    }
}

/// Returns the result for a character in the first row of the scalar that is not allowed.
fn not_allowed(column: usize) -> ScalarStep
    ensures { result ≡ ScalarStep.Fails ScalarFault.NotAllowed (record { down = 0; column = column }) }
{
    ScalarStep::Fails(ScalarFault::NotAllowed, ScalarPlace { down: 0, column })
}

impl<A: Allocator + Copy> BlockReader<A> {
    /// Creates a reader of a scalar whose indicator, `|` or `>`, is at the column `at`, and reads
    /// its header. `header` is the rest of the row after the indicator. The content of the scalar
    /// is indented by at least `least` spaces, which is one more than the indentation of the
    /// surrounding collection. Does not allocate.
    pub fn begin(alloc: A, least: usize, at: usize, header: &[char]) -> (BlockReader<A>, ScalarStep)
        requires fits { at + 1 + length header.now < 2 ^ 64 }
        requires small { least < 2 ^ 63 }
        ensures line { step_value result.1 [] (block_reader_value result.0) ≡ block_begin least at header.now }
        ensures reads { is_block_refused result.0 ≡ false }
        ensures count { block_rows result.0 ≡ 0 }
    {
        let (digit, _) = indicators(header);
        let content = if digit > 0 {
            Some(least.saturating_sub(1) + digit)
        } else {
            None
        };
        let reader = BlockReader {
            least,
            content,
            down: 0,
            column: at + 1 + header.len(),
            blanks: 0,
            spaces: Vec::new(alloc),
            failed: false,
        };
        let line = read_header(at + 1, header);
        (reader, line)
    }

    /// Reads the next row. The only error is out of memory. After an error, every later call
    /// returns an error.
    pub fn read(&mut self, row: &[char]) -> Result<ScalarStep, AllocError>
        requires { block_rows self.old + 1 < 2 ^ 64 }
        ensures line { IfOk result (λ line. step_value line [] (block_reader_value self.new) ≡ block_step (block_reader_value self.old) row.now) }
        ensures reads { OnOk result (is_block_refused self.new ≡ false) }
        ensures failed { OnErr result (is_block_refused self.new ≡ true) }
        ensures count { block_rows self.new ≤ block_rows self.old + 1 }
        ensures stays { is_block_refused self.old ≡ true → IsErr result }
    {
        if self.failed {
            return Err(AllocError);
        }
        if is_blank(row) {
            return self.pass_blank(row);
        }
        if is_marker(row) {
            return Ok(ScalarStep::EndedAbove(self.finish()));
        }
        Ok(self.read_text(row))
    }

    /// Returns the place at which the scalar ends, if no row follows.
    pub fn finish(&self) -> ScalarPlace
        ensures { Whole (extent_at result []) ≡ block_finish (block_reader_value self.now) }
    {
        ScalarPlace {
            down: self.down,
            column: self.column,
        }
    }

    /// Passes a blank row. Records its leading spaces if the content column is not known yet. The
    /// only error is out of memory.
    fn pass_blank(&mut self, row: &[char]) -> Result<ScalarStep, AllocError>
        requires blank { is_blank row.now ≡ true }
        requires fits { block_rows self.old + 1 < 2 ^ 64 }
        ensures line { IfOk result (λ line. step_value line [] (block_reader_value self.new) ≡ block_step (block_reader_value self.old) row.now) }
        ensures reads { OnOk result (is_block_refused self.new ≡ false) }
        ensures failed { OnErr result (is_block_refused self.new ≡ true) }
        ensures count { block_rows self.new ≤ block_rows self.old + 1 }
    {
        if self.content.is_none() {
            self.failed = true;
            self.spaces.push(indentation(row))?;
        }
        self.failed = false;
        self.blanks += 1;
        Ok(ScalarStep::GoesOn)
    }

    /// Reads a row that is neither blank nor a document marker.
    fn read_text(&mut self, row: &[char]) -> ScalarStep
        requires { block_rows self.old + 1 < 2 ^ 64 }
        ensures line { step_value result [] (block_reader_value self.new)
            ≡ text_line (block_reader_value self.old).content (block_reader_value self.old) row.now }
        ensures same { is_block_refused self.new ≡ is_block_refused self.old }
        ensures count { block_rows self.new ≤ block_rows self.old + 1 }
    {
        let column = indentation(row);
        let Some(content) = self.content else {
            if column < self.least {
                return ScalarStep::EndedAbove(self.finish());
            }
            if let Some((down, column)) = deeper(column, &self.spaces) {
                return ScalarStep::Fails(ScalarFault::BadIndentation, ScalarPlace { down, column });
            }
            return self.take(column, row);
        };
        if column < content {
            return ScalarStep::EndedAbove(self.finish());
        }
        self.take(content, row)
    }

    /// Takes a row of the content, which is indented to the column `content`.
    fn take(&mut self, content: usize, row: &[char]) -> ScalarStep
        requires { block_rows self.old + 1 < 2 ^ 64 }
        ensures line { step_value result [] (block_reader_value self.new) ≡ with_content (block_reader_value self.old) content row.now }
        ensures same { is_block_refused self.new ≡ is_block_refused self.old }
        ensures count { block_rows self.new ≤ block_rows self.old + 1 }
    {
        let down = self.down + self.blanks + 1;
        if let Some(column) = first_bad(row) {
            return ScalarStep::Fails(ScalarFault::NotAllowed, ScalarPlace { down, column });
        }
        self.content = Some(content);
        self.down = down;
        self.column = row.len();
        self.blanks = 0;
        ScalarStep::GoesOn
    }
}
