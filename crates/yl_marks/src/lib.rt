//! The marks of a document: where its block collections open and close, and where its keys begin
//! (YAML 1.2.2, 7.4.2 and 8.2).
//!
//! The definition, `specs/Marks.antt`, is of whole documents. The code reads a document line by
//! line. `Marker` finds the marks, and `KeyMarker` also finds the facts that the keys decide about
//! each lexeme. A `MarkerState` keeps what a `KeyMarker` must know to go on with later lines.
#![tactic(auto)]

mod document;
mod facts;
mod key_marker;
mod keys;
mod lines;
mod marker;
mod marker_state;
mod marks;
mod row_lexemes;
mod single_keys;
mod symbol;
mod token;

pub use document::{DocumentMarks, column_at, document_marks, mark};
pub use facts::KeyFacts;
pub use key_marker::KeyMarker;
pub use lines::{keys_by_lines, line_len, marked_by_lines};
pub use marker::Marker;
pub use marker_state::{MarkerState, marks_are_alike};
pub use row_lexemes::RowLexemes;
pub use symbol::{Collection, Marked, Symbol};
pub use token::{Token, push_tokens, token_of};
