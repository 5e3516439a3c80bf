//! A reader of a scalar of any style that may go on in the row below.

ghost use Rattle.std.specs.Prelude.{◌≡◌, ◌≤◌, ◌<◌, ◌+◌, ◌^◌, IfOk};
ghost use Rattle.yl_row.specs.ScalarReader.{reader_step, reader_finish};
ghost use Rattle.yl_row.specs.Reader.{scalar_reader_value, rows_of, value_of, reader_step_value, reader_outcome_value};

use std::alloc::{AllocError, Allocator};
use yl_scalar::{BlockReader, PlainReader, QuotedReader, ScalarOutcome, ScalarStep};
use yl_text::InlineString;

/// A reader of a scalar that may go on in the row below.
#[derive(Drop)]
pub enum ScalarReader<A: Allocator + Copy> {
    /// A reader of a plain scalar.
    Plain(PlainReader<A>),
    /// A reader of a quoted scalar.
    Quoted(QuotedReader<A>),
    /// A reader of a block scalar.
    Block(BlockReader<A>),
}

impl<A: Allocator + Copy> ScalarReader<A> {
    /// Reads the next row. Returns the reader after it, and what the row is to the scalar. The only
    /// error is out of memory.
    pub fn read(self, row: &[char]) -> Result<(ScalarReader<A>, ScalarStep), AllocError>
        requires { rows_of self + 1 < 2 ^ 64 }
        ensures line { IfOk result (λ r. reader_step_value r.1 r.0 ≡ reader_step (scalar_reader_value self) row.now) }
        ensures count { IfOk result (λ r. rows_of r.0 ≤ rows_of self + 1) }
    {
        match self {
            ScalarReader::Plain(reader) => {
                let mut reader = reader;
                let line = reader.read(row)?;
                Ok((ScalarReader::Plain(reader), line))
            }
            ScalarReader::Quoted(reader) => {
                let mut reader = reader;
                let line = reader.read(row)?;
                Ok((ScalarReader::Quoted(reader), line))
            }
            ScalarReader::Block(reader) => {
                let mut reader = reader;
                let line = reader.read(row)?;
                Ok((ScalarReader::Block(reader), line))
            }
        }
    }

    /// Returns what the scalar is if the text ends here: its end, or its fault.
    pub fn finish(&self) -> ScalarOutcome
        ensures { reader_outcome_value result self.now ≡ reader_finish (scalar_reader_value self.now) }
    {
        match self {
            ScalarReader::Plain(reader) => ScalarOutcome::Whole(reader.finish()),
            ScalarReader::Quoted(reader) => {
                let (fault, place) = reader.finish();
                ScalarOutcome::Refused(fault, place)
            }
            ScalarReader::Block(reader) => ScalarOutcome::Whole(reader.finish()),
        }
    }

    /// Returns the value of the scalar as far as it was read. That of a block scalar is empty,
    /// since it is not read. The only error is out of memory.
    #[inline(always)]
    pub fn into_value(self, alloc: A) -> Result<InlineString<A>, AllocError>
        ensures { IfOk result (λ text. text ≡ value_of self) }
    {
        match self {
            ScalarReader::Plain(reader) => Ok(reader.into_value()),
            ScalarReader::Quoted(reader) => reader.to_value(alloc),
            ScalarReader::Block(_) => Ok(InlineString::new()),
        }
    }
}
