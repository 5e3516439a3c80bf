//! Configurations: which rules are on, at which level, with which options.
//!
//! `Config::read` reads the bytes of a configuration. It scans and parses their lines, and reads
//! the levels and options from the one document. `specs/Outcome.antt` defines the result.
//!
//! The lexemes of a scanned text get their lines (`in_text`), and are cut into documents and parsed
//! (`build_all`). `text_fault` returns the position of the first fault.
#![tactic(auto)]

ghost use Rattle.yl_config.specs.Law.{OneBuilding};
ghost use Rattle.yl_config.specs.Outcome.{OneAnswer};

mod config;
mod document;
mod documents;
mod fault;
mod misfit;
mod read;
mod reading;
mod syntax;
mod text;

pub use config::Config;
pub use document::root_of;
pub use documents::{BuiltDocument, build_all};
pub use fault::{ConfigFault, FaultPlace, fault_of, from_one};
pub use misfit::{Misfit, MisfitKind};
pub use read::from_own;
pub use reading::{Reading, rule_named, turns_off, turns_on};
pub use syntax::{place_behind, stands_before, text_fault};
pub use text::{end_of, in_text, place_of_scan_fault};
pub use yl_settings::RuleOptions;

/// A law: the documents that are built of some lexemes, cut into documents, are unique.
pub fn one_building()
    ensures { OneBuilding }
{}

/// A law: the result for some bytes is unique, unless it is `ConfigFault::Memory`.
pub fn one_answer()
    ensures { OneAnswer }
{}
