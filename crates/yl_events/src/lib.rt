//! The documents of a text, and the events and the parse fault of each.
#![tactic(auto)]

mod cuts;
mod document;
mod event;
mod fault;
mod laws;
mod line_lexemes;
mod machine;
mod parser;
mod symbol;
mod symbol_parser;
mod symbol_parser_state;
mod trail;

pub use cuts::{begins_document, documents};
pub use document::{event_of, parse_document};
pub use event::{Built, Event, EventAnchor, EventKind};
pub use fault::{ParseFault, PlacedParseFault};
pub use laws::{
    documents_cut_by_two, one_derivation, one_fault, symbols_are_parsed_alike, told_behind,
    told_documents,
};
pub use line_lexemes::{LineLexemes, WaitingAnchor};
pub use parser::Parser;
pub use symbol::{BracketKind, Goal, Outline, Properties, Shape, Where};
pub use symbol_parser::SymbolParser;
pub use symbol_parser_state::SymbolParserState;
pub use yl_marks::{Collection, Marked, Token, line_len, mark, token_of};
