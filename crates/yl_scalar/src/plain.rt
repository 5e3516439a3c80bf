//! Plain scalars: YAML 1.2.2, 7.3.3.
ghost use Rattle.std.specs.Prelude.{◌≡◌, ◌≤◌, ◌<◌, ◌+◌, ◌^◌, ◌++◌, IfOk, OnErr, OnOk, IsErr, IsTrue, None, true, false, length};
ghost use Rattle.yl_scalar.specs.Reading.{Whole};
ghost use Rattle.yl_text.specs.Character.{is_plain_safe, starts_by};
ghost use Rattle.yl_scalar.specs.Folding.{joint};
ghost use Rattle.yl_scalar.specs.Plain.{stop};
ghost use Rattle.yl_scalar.specs.PlainSteps.{plain_begin, plain_step, plain_finish};
ghost use Rattle.yl_scalar.specs.Reader.{step_value, extent_at, plain_reader_value, plain_rows, is_plain_refused};

use crate::answer::{ScalarFault, ScalarPlace, ScalarStep};
use crate::character::{
    first_bad, indentation, is_blank, is_flow_indicator, is_marker, is_plain_safe, is_white,
    leading_white, without_end,
};
use crate::folding::{add_break, inline_text_of, with_characters};
use std::alloc::{AllocError, Allocator};
use std::mem;
use yl_text::InlineString;

/// A reader of a plain scalar, which takes its rows one after another.
#[derive(Drop)]
pub struct PlainReader<A: Allocator> {
    alloc: A,
    flow: bool,
    least: usize,
    down: usize,
    column: usize,
    blanks: usize,
    value: InlineString<A>,
    failed: bool,
}

/// Returns whether the text begins with a plain-safe character. `flow` is set in a flow collection.
pub fn is_safe_next(flow: bool, text: &[char]) -> bool
    ensures { result ≡ starts_by (is_plain_safe flow) text.now }
{
    match text {
        [] => false,
        [c, ..] => is_plain_safe(flow, *c),
    }
}

/// Returns the number of characters of a row that a plain scalar takes at the most. `behind_space`
/// is set if white space or the start of the row is before them.
fn stop(flow: bool, behind_space: bool, text: &[char]) -> usize
    ensures count { result ≡ stop flow behind_space text.now }
    ensures within { result ≤ length text.now }
{
    let mut previous = if behind_space { ' ' } else { '-' };
    for (i, c) in text.iter().enumerate() {
        if *c == ':' && !is_safe_next(flow, &text[i + 1..]) {
            return i;
        }
        if *c == '#' && is_white(previous) {
            return i;
        }
        if flow && is_flow_indicator(*c) {
            return i;
        }
        previous = *c;
    }
    text.len()
}

impl<A: Allocator + Copy> PlainReader<A> {
    /// Creates a reader of a scalar that begins at the column `at`, and reads its part of the first
    /// row. `text` is the row from that column on. Outside flow collections, a row below continues
    /// the scalar only if it is indented by at least `least` spaces, which is one more than the
    /// indentation of the surrounding collection. The only error is out of memory.
    pub fn begin(
        alloc: A,
        flow: bool,
        least: usize,
        at: usize,
        text: &[char],
    ) -> Result<(PlainReader<A>, ScalarStep), AllocError>
        requires { at + length text.now < 2 ^ 64 }
        ensures line { IfOk result (λ r. step_value r.1 (plain_reader_value r.0).value (plain_reader_value r.0)
            ≡ plain_begin flow least at text.now) }
        ensures reads { IfOk result (λ r. is_plain_refused r.0 ≡ false) }
        ensures count { IfOk result (λ r. plain_rows r.0 ≡ 0) }
    {
        let taken = stop(flow, false, text);
        let part = without_end(&text[..taken]);
        let value = inline_text_of(alloc, part)?;
        let column = at + part.len();
        let reader = PlainReader {
            alloc,
            flow,
            least,
            down: 0,
            column,
            blanks: 0,
            value,
            failed: false,
        };
        if let Some(place) = first_bad(part) {
            let place = ScalarPlace {
                down: 0,
                column: at + place,
            };
            return Ok((reader, ScalarStep::Fails(ScalarFault::NotAllowed, place)));
        }
        if taken == text.len() {
            return Ok((reader, ScalarStep::GoesOn));
        }
        Ok((reader, ScalarStep::EndsIn(ScalarPlace { down: 0, column })))
    }

    /// Reads the next row. The only error is out of memory. After an error, every later call
    /// returns an error.
    pub fn read(&mut self, row: &[char]) -> Result<ScalarStep, AllocError>
        requires { plain_rows self.old + 1 < 2 ^ 64 }
        ensures line { IfOk result (λ line. step_value line (plain_reader_value self.new).value (plain_reader_value self.new)
            ≡ plain_step (plain_reader_value self.old) row.now) }
        ensures reads { OnOk result (is_plain_refused self.new ≡ false) }
        ensures failed { OnErr result (is_plain_refused self.new ≡ true) }
        ensures count { plain_rows self.new ≤ plain_rows self.old + 1 }
        ensures stays { is_plain_refused self.old ≡ true → IsErr result }
    {
        if self.failed {
            return Err(AllocError);
        }
        if is_blank(row) {
            self.blanks += 1;
            return Ok(ScalarStep::GoesOn);
        }
        if is_marker(row) || !(self.flow || self.least <= indentation(row)) {
            return Ok(ScalarStep::EndedAbove(self.finish()));
        }
        let white = leading_white(row);
        let text = &row[white..];
        let taken = stop(self.flow, true, text);
        if taken == 0 {
            return Ok(ScalarStep::EndedAbove(self.finish()));
        }
        let part = without_end(&text[..taken]);
        let down = self.down + self.blanks + 1;
        if let Some(place) = first_bad(part) {
            let column = white + place;
            return Ok(ScalarStep::Fails(ScalarFault::NotAllowed, ScalarPlace { down, column }));
        }
        self.push_part(part)?;
        self.down = down;
        self.column = white + part.len();
        self.blanks = 0;
        if taken == text.len() {
            Ok(ScalarStep::GoesOn)
        } else {
            Ok(ScalarStep::EndsIn(self.finish()))
        }
    }

    /// Appends to the value what the breaks above the row stand for, and the scalar's part of the
    /// row. The only error is out of memory. After an error the value is lost.
    fn push_part(&mut self, part: &[char]) -> Result<(), AllocError>
        ensures value { OnOk result (plain_reader_value self.new ≡ record (plain_reader_value self.old) {
          value = (plain_reader_value self.old).value ++ joint None (plain_reader_value self.old).blanks ++ part.now;
        }) }
        ensures reads { OnOk result (is_plain_refused self.new ≡ false) }
        ensures failed { OnErr result (is_plain_refused self.new ≡ true) }
        ensures count { plain_rows self.new ≡ plain_rows self.old }
    {
        self.failed = true;
        let value = mem::replace(&mut self.value, InlineString::new());
        let mut value = value.into_string(self.alloc)?;
        add_break(&mut value, self.blanks)?;
        let value = with_characters(value, part)?;
        self.value = InlineString::of_string(value);
        self.failed = false;
        Ok(())
    }

    /// Returns the place at which the scalar ends, if no row follows.
    pub fn finish(&self) -> ScalarPlace
        ensures { Whole (extent_at result (plain_reader_value self.now).value) ≡ plain_finish (plain_reader_value self.now) }
    {
        ScalarPlace {
            down: self.down,
            column: self.column,
        }
    }

    /// Returns the value of the rows that were read: the whole value, once the scalar has ended.
    pub fn into_value(self) -> InlineString<A>
        ensures { result ≡ (plain_reader_value self).value }
    {
        self.value
    }
}
