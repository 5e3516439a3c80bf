//! Prints the problems of a file in the formats of yamllint.
#![tactic(auto)]

mod colored;
mod format;
mod github;
mod listing;
mod rule;
mod spaces;
mod standard;
mod writing;

pub use format::Format;
pub use writing::write_problems;
