//! The configuration of a project: the rules that hold for a path, and the files that are YAML.
//!
//! `Named::read` returns the files that the bytes of a `.yamllint` name, among them the
//! configuration that it extends. `Project::read` reads the bytes of a `.yamllint` over the project
//! that it extends. `specs/Outcome.antt` defines both. `Project::config_for` returns the rules that
//! hold for a path.
#![tactic(auto)]

mod document;
mod entries;
mod misfits;
mod named;
mod over;
mod project;
mod read;
mod texts;

pub use named::Named;
pub use project::Project;
