//! The search for the configuration of a project and for the files of folders that are linted.
//!
//! All of this depends on the file system, so the contracts say nothing about it.
#![tactic(auto)]

mod loading;
mod metadata;
mod places;
mod walk;

pub use loading::{LoadCause, LoadFault, Loader, Opened, Origin};
pub use places::{project_file, user_file};
pub use walk::{Found, Walk};
