//! Reads the parameters of an editor's messages, and writes the messages of LSP that it is sent.
#![tactic(auto)]

mod diagnostic;
mod message;
mod params;
mod presentation;
mod publication;
mod range;
mod report;
mod settings;

pub use diagnostic::{Code, Severity};
pub use message::{ErrorMessage, InitializeResult, PlacedError, WatchRequest};
pub use params::{Change, Opened, change_of, changes_in, document_in, opened_in, version_in};
pub use presentation::{MOST_PROBLEMS, Presentation};
pub use publication::{Content, Publication};
pub use range::{Range, next_range};
pub use report::Report;
pub use settings::{
    Settings, changed_settings, encoding_in, first_settings, settings_in, takes_links,
    takes_watchers,
};
