//! Laws of an edit of a piece: what it changes of what the rules on keys and anchors find.
//!
//! A run of events comes in place of another. The laws say, by the two runs alone, when nothing else
//! changes. `RunNames` holds what they ask of a run, and `rules_for_run` gives the rules on keys for a
//! run alone.
#![tactic(auto)]

mod anchors;
mod asked;
mod asked_key;
mod behind;
mod key_name;
mod kinds;
mod named_collection;
mod named_collections;
mod names;
mod opening;
mod rows;
mod run_names;
mod run_rules;
mod tree;

pub use anchors::anchors_are_patched;
pub use asked::asked_names;
pub use behind::same_names;
pub use kinds::kinds_and_turns_suffice;
pub use names::{goals_open, names_of_runs};
pub use opening::Opening;
pub use rows::rows_are_patched;
pub use run_names::RunNames;
pub use run_rules::rules_for_run;
pub use tree::tree_findings_are_patched;
