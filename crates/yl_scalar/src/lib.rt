//! Readers of plain, quoted and block scalars of YAML 1.2.2. Each reads one scalar, row by row.
//!
//! `begin` takes the rest of the row in which the scalar begins. `read` takes the rows below, one
//! after another, as characters without their break, until it returns something other than
//! `ScalarStep::GoesOn`. If the text ends before that, `finish` returns the result. The row of a
//! place is counted from the first row of the scalar, and its column counts characters from 0.
#![tactic(auto)]

mod answer;
mod block;
mod character;
mod escape;
mod folding;
mod header;
mod plain;
mod quoted;
mod whole;

ghost use Rattle.yl_scalar.specs.Laws.{BlockLaw, PlainLaw};
ghost use Rattle.yl_scalar.specs.QuotedRows.{QuotedRowsLaw};
ghost use Rattle.yl_scalar.specs.Written.{QuotedLaw};

pub use answer::{ScalarFault, ScalarOutcome, ScalarPlace, ScalarStep};
pub use block::BlockReader;
pub use character::{
    first_bad, indentation, is_allowed, is_blank, is_flow_indicator, is_marker_of, is_white,
    leading_white, without_end,
};
pub use folding::{inline_text_of, text_of};
pub use plain::{PlainReader, is_safe_next};
pub use quoted::{QuotedReader, simple_quoted};
pub use whole::{read_block, read_plain, read_quoted};

/// Laws of the definitions: a plain, a quoted or a block scalar that is read line by line is the
/// one that is defined by all the lines that it takes, and a text that is written in quotes is read
/// back.
pub fn scalars_by_their_lines()
    ensures plain { PlainLaw }
    ensures quoted { QuotedLaw }
    ensures quoted_rows { QuotedRowsLaw }
    ensures block { BlockLaw }
{}
