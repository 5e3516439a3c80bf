//! The rules on the lexemes of a document: `braces`, `brackets`, `colons`, `commas`,
//! `document-start`, `hyphens`, `quoted-strings` and `truthy`.
#![tactic(auto)]

mod brackets;
mod colons;
mod commas;
mod document_start;
mod hyphens;
mod lexeme_rules;
mod lexemes;
mod options;
mod quoted_strings;
mod report;
mod span;
mod state;
mod strings;
mod truthy;
mod words;

pub use brackets::{BracketsOptions, Forbid};
pub use colons::ColonsOptions;
pub use commas::CommasOptions;
pub use document_start::DocumentStartOptions;
pub use hyphens::HyphensOptions;
pub use lexeme_rules::LexemeRules;
pub use lexemes::lexeme_problems;
pub use options::LexemeOptions;
pub use quoted_strings::{QuoteType, QuotedStringsOptions};
pub use state::{LexemeRulesState, lexemes_are_judged_alike};
pub use strings::is_string;
pub use truthy::{TruthyOptions, TruthyWords};
