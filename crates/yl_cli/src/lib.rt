//! Lints a text, or edits it by commands: from the bytes of a reader to lines on a writer.
#![tactic(auto)]

mod command;
mod editing;
mod stream;

pub use editing::drive;
pub use yl_check::{joined, lint, lint_bytes};
pub use yl_devices::{BadText, ProgramFault, RunFault, say};
pub use yl_programs::{Asked, Flags, Source, Stop, asked, asked_edit};
