//! yamllint's rules key-duplicates, key-ordering and anchors, over a document's events.
#![tactic(auto)]

mod anchor_finder;
mod anchor_rule;
mod duplicates;
mod greatest;
mod laws;
mod messages;
mod name;
mod name_set;
mod name_stack;
mod open_keys;
mod options;
mod ordering;
mod reference;
mod tree_rules;
mod walk;

pub use anchor_rule::anchors;
pub use duplicates::key_duplicates;
pub use laws::{code_point_order, references_suffice};
pub use options::{AnchorsOptions, KeyDuplicatesOptions, TreeOptions};
pub use ordering::key_ordering;
pub use tree_rules::TreeRules;
