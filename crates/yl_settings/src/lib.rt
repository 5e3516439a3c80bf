//! The options of the rules, and how a node of a document sets them.
//!
//! The nodes of a document are read directly from its events, and no tree is built. The option
//! table lists the options of each rule and the values that each option takes.
#![tactic(auto)]

mod node;
mod options;
mod table;
mod values;
mod words;

pub use node::{EntryAt, Item, ItemAt, first_entry, first_item, is_alias, starts_mapping};
pub use options::{RuleOptions, standard_rule_options};
pub use table::Answer;
pub use values::level;
pub use words::{is_false_word, is_true_word, plain_word, word};
