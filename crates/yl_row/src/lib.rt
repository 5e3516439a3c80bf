//! Reads the lexemes of one row, and the comment at its end.
//!
//! The definition of what a text consists of is `specs/Entries.antt`. It reads whole lexemes out of
//! the whole text and looks back over all lexemes before a position. The code reads one row at a
//! time, from the `Surroundings` after the rows above.
#![tactic(auto)]

ghost use Rattle.yl_row.specs.Begins.{BlockBegins, PlainBegins, QuotedBegins};
ghost use Rattle.yl_row.specs.Laws.{KeptSuffices};

mod directives;
mod fault;
mod found;
mod reader;
mod row;
mod sign;
mod word;

pub use directives::directives_stand_in_place;
pub use fault::{PlacedScanFault, ScanFault, of_scalar};
pub use reader::ScalarReader;
pub use row::{OpenScalar, RowEnd, read_row};
pub use word::first_tab;

/// A law: reading a row from the `Surroundings` of the lexemes before it gives what the definition
/// gives.
pub fn kept_suffices()
    ensures { KeptSuffices }
{}

/// Laws of the reader of a scalar that may go on below, after the row in which the scalar begins.
/// It has read no row below. A plain or block scalar ends, so far, within that row, and only white
/// space follows there.
pub fn scalars_begin()
    ensures plain { PlainBegins }
    ensures quoted { QuotedBegins }
    ensures block { BlockBegins }
{}
