//! The report of a text.
//!
//! `report_of_text` records the rows of a text, judges its sections one after another, and joins
//! the summary of each (`Kept`) with the findings of the rules on lines. A report hides the
//! sections after the first one with a fault.
//!
//! A session keeps the records and the summaries of the sections. It calls the steps one by one:
//! each finds the problems in lines, in a section, or of a fault.
#![tactic(auto)]

mod assembling;
mod comments;
mod fault;
mod kept;
mod laws;
mod lines;
mod lint;
mod moving;

pub use assembling::{push_indentation, push_section, report_of_kept};
pub use comments::push_comments;
pub use fault::finding_of_fault;
pub use laws::{heard_of_text, indentation_looks_back, one_report};
pub use lines::{end_of, find_in_lines, first_text};
pub use lint::report_of_text;
pub use moving::{line_below, push_moved};
