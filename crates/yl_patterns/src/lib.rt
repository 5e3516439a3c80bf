//! Patterns of paths, as gitignore has them.
#![tactic(auto)]

mod fault;
mod fitting;
mod item;
mod patterns;
mod piece;
mod reading;
mod tables;

pub use fault::PatternFault;
pub use patterns::Patterns;
