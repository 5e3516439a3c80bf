//! Laws of the collections that are open in a document: what of them counts for the rules on keys,
//! and which they are, by what the parser has still to read.
//!
//! No function here does anything.
#![tactic(auto)]

mod counting;
mod opening;

pub use counting::mappings_count;
pub use opening::goals_open_collections;
