//! Prints what the scanner and the parser find in a text.
//!
//! Printed positions count from 1, and columns count characters. The end of a lexeme is the
//! position after its last character. A value is printed in double quotes, with `\\` and `\"` for a
//! backslash and a quote, and `\u{HEX}` for a character that is not printable ASCII.
#![tactic(auto)]

mod begins;
mod characters;
mod document_fault;
mod documents;
mod event;
mod events;
mod fault;
mod group;
mod lexeme_line;
mod lexemes;
mod lines;
mod names;
mod page;
mod quoting;
mod state;
mod text_scanner;

pub use begins::texts_cut_by_two;
pub use events::write_events;
pub use fault::DumpFault;
pub use lexemes::write_lexemes;
pub use lines::write_lines;
