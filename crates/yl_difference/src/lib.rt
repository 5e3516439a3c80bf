//! The lines in which two texts differ, as an edit of one of them.
#![tactic(auto)]

mod difference;
mod front;
mod tail;

pub use difference::Difference;
