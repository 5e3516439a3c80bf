//! The documents that an editor has open: the text of each, followed through its changes, or the
//! cause why it is no longer followed.
#![tactic(auto)]

mod cause;
mod change;
mod document;
mod workspace;

pub use cause::Cause;
pub use document::Document;
pub use workspace::Workspace;
pub use yl_lint::one_report;
pub use yl_session::Session;
