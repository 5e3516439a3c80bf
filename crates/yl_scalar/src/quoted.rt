//! Quoted scalars: YAML 1.2.2, 7.3.1 and 7.3.2.
ghost use Rattle.std.specs.Prelude.{◌≡◌, ◌≤◌, ◌<◌, ◌+◌, ◌^◌, ◌++◌, ◌∷◌, ◌&&◌, ◌==◌, not, ℕ, List, IfOk, IfSome, OnErr, OnOk, IsErr, true, false, length, slice_index};
ghost use Rattle.yl_scalar.specs.Reading.{EndsIn, Refused};
ghost use Rattle.yl_scalar.specs.Quoted.{Closes, stretch, quote};
ghost use Rattle.yl_scalar.specs.QuotedSteps.{quoted_begin, quoted_step, quoted_finish, quoted_step_behind};
ghost use Rattle.yl_scalar.specs.Reader.{step_value, quoted_reader_value, quoted_rows, is_quoted_refused};
ghost use Rattle.yl_scalar.specs.Part.{gives, onward, IsWithin, FitsBehind};

use crate::answer::{ScalarFault, ScalarPlace, ScalarStep};
use crate::character::{is_blank, is_marker, is_quoted_character, is_white, leading_white};
use crate::escape::escape;
use crate::folding::{inline_text_of, push_joint};
use std::alloc::{AllocError, Allocator};
use yl_text::InlineString;

/// A reader of a quoted scalar, which takes its rows one after another.
#[derive(Drop)]
pub struct QuotedReader<A: Allocator> {
    double: bool,
    opening: usize,
    down: usize,
    blanks: usize,
    value: Vec<char, A>,
    backslash: Option<usize>,
    failed: bool,
}

/// The part that a scalar has of a row. Characters are counted from where reading began.
#[derive(Clone, Copy)]
enum Part {
    /// The scalar continues after the break. If a backslash is before the break, this is its index.
    Open(Option<usize>),
    /// The scalar ends after this many characters.
    Closed(usize),
    /// This fault is after this many characters.
    Faulted(ScalarFault, usize),
}

/// What comes next in a row of a scalar.
#[derive(Clone, Copy)]
enum Glyph {
    /// A character of the value, and the number of characters after the first one that it takes in
    /// the row.
    Stands(char, usize),
    /// A backslash before the break.
    EndsRow,
    /// The closing quote.
    Closes,
    /// A fault.
    Fails(ScalarFault),
}

/// Returns the quote: a double one if `double` is set, else a single one.
fn quote(double: bool) -> char
    ensures { result ≡ quote double }
{
    if double { '"' } else { '\'' }
}

/// Returns whether the text begins with a single quote.
fn is_single_quote_next(text: &[char]) -> bool
    ensures { result ≡ (slice_index text.now 0 == 0x27) }
{
    match text {
        [] => false,
        [c, ..] => *c == '\'',
    }
}

/// Returns whether a quote that `after` follows is doubled, and so stands for itself.
fn is_doubled(double: bool, after: &[char]) -> bool
    ensures { result ≡ (not double && slice_index after.now 0 == 0x27) }
{
    !double && is_single_quote_next(after)
}

/// Returns whether an escape begins with this character.
fn begins_escape(double: bool, c: char) -> bool
    ensures { result ≡ (double && c == 0x5C) }
{
    double && c == '\\'
}

/// Returns what begins with the character `c`, which `after` follows.
fn next_glyph(double: bool, c: char, after: &[char]) -> Glyph
    ensures { (text : List ℕ) (kept at : ℕ) → stretch double 0 text kept at (c ∷ after.now) ≡ onward double result text kept at after.now }
{
    if c == quote(double) {
        if is_doubled(double, after) {
            return Glyph::Stands(c, 1);
        }
        return Glyph::Closes;
    }
    if begins_escape(double, c) {
        if after.is_empty() {
            return Glyph::EndsRow;
        }
        return match escape(after) {
            Some((x, len)) => Glyph::Stands(x, len + 1),
            None => Glyph::Fails(ScalarFault::BadEscape),
        };
    }
    if is_quoted_character(c) {
        Glyph::Stands(c, 0)
    } else {
        Glyph::Fails(ScalarFault::NotAllowed)
    }
}

/// Returns the part of the row before the closing quote, if each of its characters stands for
/// itself. Returns `None` if one does not, or if the row does not close the scalar.
fn simple_part(double: bool, text: &[char]) -> Option<&[char]>
    ensures part { IfSome result (λ part. (value : List ℕ) → stretch double 0 value (length value) 0 text.now ≡ Closes (value ++ part.now) (length part.now + 1)) }
    ensures within { IfSome result (λ part. length part.now < length text.now) }
{
    for (i, c) in text.iter().enumerate() {
        if *c == quote(double) {
            if is_doubled(double, &text[i + 1..]) {
                return None;
            }
            return Some(&text[..i]);
        }
        if begins_escape(double, *c) {
            return None;
        }
        if !is_quoted_character(*c) {
            return None;
        }
    }
    None
}

/// Returns the value of a quoted scalar that ends in its first row, if each of its characters
/// stands for itself, else `None`. `double` is set for double quotes, and `text` is the rest of the
/// row after the opening quote. Copies nothing.
pub fn simple_quoted(double: bool, text: &[char]) -> Option<&[char]>
    ensures value { IfSome result (λ part. (opening : ℕ) → quoted_begin double opening text.now ≡ EndsIn (record { down = 0; column = opening + 1 + (length part.now + 1); value = part.now })) }
    ensures within { IfSome result (λ part. length part.now < length text.now) }
{
    simple_part(double, text)
}

/// Reads a row and appends its text to `value`. Drops the white space at the end of a row after
/// which the scalar continues, but nothing of the old value. The only error is out of memory.
fn stretch<A: Allocator>(
    double: bool,
    value: &mut Vec<char, A>,
    text: &[char],
) -> Result<Part, AllocError>
    ensures part { IfOk result (λ part. gives part value.new.items
        ≡ stretch double 0 value.old.items (length value.old.items) 0 text.now) }
    ensures within { IfOk result (IsWithin (length text.now)) }
{
    if let Some(part) = simple_part(double, text) {
        value.extend_from_slice(part)?;
        return Ok(Part::Closed(part.len() + 1));
    }
    let mut kept = value.len();
    let mut skip = 0;
    for (i, c) in text.iter().enumerate() {
        if skip > 0 {
            skip -= 1;
            continue;
        }
        match next_glyph(double, *c, &text[i + 1..]) {
            Glyph::Stands(x, more) => {
                value.push(x)?;
                if more > 0 || !is_white(x) {
                    kept = value.len();
                }
                skip = more;
            }
            Glyph::EndsRow => return Ok(Part::Open(Some(i))),
            Glyph::Closes => return Ok(Part::Closed(i + 1)),
            Glyph::Fails(fault) => return Ok(Part::Faulted(fault, i)),
        }
    }
    value.truncate(kept);
    Ok(Part::Open(None))
}

impl<A: Allocator + Copy> QuotedReader<A> {
    /// Creates a reader of a scalar whose opening quote, a double or a single one, is at the column
    /// `opening`, and reads its part of the first row. `text` is the rest of the row after the
    /// quote. The only error is out of memory.
    pub fn begin(
        alloc: A,
        double: bool,
        opening: usize,
        text: &[char],
    ) -> Result<(QuotedReader<A>, ScalarStep), AllocError>
        requires { opening + 1 + length text.now < 2 ^ 64 }
        ensures line { IfOk result (λ r. step_value r.1 (quoted_reader_value r.0).value (quoted_reader_value r.0)
            ≡ quoted_begin double opening text.now) }
        ensures reads { IfOk result (λ r. is_quoted_refused r.0 ≡ false) }
        ensures count { IfOk result (λ r. quoted_rows r.0 ≡ 0) }
    {
        let mut value = Vec::new(alloc);
        let part = stretch(double, &mut value, text)?;
        let mut reader = QuotedReader {
            double,
            opening,
            down: 0,
            blanks: 0,
            value,
            backslash: None,
            failed: false,
        };
        let line = reader.take(opening + 1, part);
        Ok((reader, line))
    }

    /// Reads the next row. The only error is out of memory. After an error, every later call
    /// returns an error.
    pub fn read(&mut self, row: &[char]) -> Result<ScalarStep, AllocError>
        requires { quoted_rows self.old + 1 < 2 ^ 64 }
        ensures line { IfOk result (λ line. step_value line (quoted_reader_value self.new).value (quoted_reader_value self.new)
            ≡ quoted_step (quoted_reader_value self.old) row.now) }
        ensures reads { OnOk result (is_quoted_refused self.new ≡ false) }
        ensures failed { OnErr result (is_quoted_refused self.new ≡ true) }
        ensures count { quoted_rows self.new ≤ quoted_rows self.old + 1 }
        ensures stays { is_quoted_refused self.old ≡ true → IsErr result }
    {
        if self.failed {
            return Err(AllocError);
        }
        let down = self.down + self.blanks + 1;
        if is_marker(row) {
            return Ok(ScalarStep::Fails(
                ScalarFault::MarkerInQuote,
                ScalarPlace { down, column: 0 },
            ));
        }
        if is_blank(row) {
            self.blanks += 1;
            return Ok(ScalarStep::GoesOn);
        }
        let white = leading_white(row);
        self.failed = true;
        push_joint(&mut self.value, self.backslash, self.blanks)?;
        let part = stretch(self.double, &mut self.value, &row[white..])?;
        self.failed = false;
        self.down = down;
        self.blanks = 0;
        Ok(self.take(white, part))
    }

    /// Returns the fault of the scalar if no row follows, and its place: a bad escape if the last
    /// row ends in a backslash, else an unclosed quote.
    pub fn finish(&self) -> (ScalarFault, ScalarPlace)
        ensures { Refused result.0 (result.1).down (result.1).column ≡ quoted_finish (quoted_reader_value self.now) }
    {
        if let Some(column) = self.backslash
            && self.blanks == 0
        {
            let place = ScalarPlace {
                down: self.down,
                column,
            };
            return (ScalarFault::BadEscape, place);
        }
        let place = ScalarPlace {
            down: 0,
            column: self.opening,
        };
        (ScalarFault::UnclosedQuote, place)
    }

    /// Returns the value of the rows that were read: the whole value, once the scalar has ended.
    /// The only error is out of memory.
    pub fn to_value(&self, alloc: A) -> Result<InlineString<A>, AllocError>
        ensures { IfOk result (λ text. text ≡ (quoted_reader_value self.now).value) }
    {
        inline_text_of(alloc, &self.value)
    }

    /// Returns the result of a row that was read from the column `column` on, and records the
    /// column of a backslash before its break.
    fn take(&mut self, column: usize, part: Part) -> ScalarStep
        requires { FitsBehind column part }
        ensures line { step_value result (quoted_reader_value self.new).value (quoted_reader_value self.new)
            ≡ quoted_step_behind (quoted_reader_value self.old) column (gives part (quoted_reader_value self.old).value) }
        ensures same { is_quoted_refused self.new ≡ is_quoted_refused self.old }
        ensures count { quoted_rows self.new ≡ quoted_rows self.old }
    {
        let down = self.down;
        self.backslash = None;
        match part {
            Part::Open(None) => ScalarStep::GoesOn,
            Part::Open(Some(at)) => {
                self.backslash = Some(column + at);
                ScalarStep::GoesOn
            }
            Part::Closed(at) => ScalarStep::EndsIn(ScalarPlace {
                down,
                column: column + at,
            }),
            Part::Faulted(fault, at) => ScalarStep::Fails(
                fault,
                ScalarPlace {
                    down,
                    column: column + at,
                },
            ),
        }
    }
}
