//! Decides whether an edit leaves the summaries of all sections as they were, since only values are
//! typed again.
//!
//! A value that is last in its line, directly after an indicator that asks for one, is no key, and
//! no mark depends on it. If only its text changes, and the rules on values find nothing at the old
//! text and at the new one, the summary of its section stays. It also stays if the lines that are
//! typed have the same lexemes, comments, indentation and faults as before, as lines below a fault
//! may have.
#![tactic(auto)]

mod lexemes;
mod rows;
mod staying;

pub use staying::keep_sections;
