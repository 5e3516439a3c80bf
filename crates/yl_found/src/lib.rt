//! All problems of a text, whatever comments silence and its first fault hides.
//!
//! These are the problems in the lines of the text and those in its sections, one section after
//! another. They are split into two lists: the problems that the report shows, with the text's
//! fault in its place, and the suppressed ones. The findings in a section are in the lines of this
//! section, so the first list is the report (`report_is_shown`).
#![tactic(auto)]

mod comments;
mod fault;
mod found;
mod gathered;
mod laws;
mod showing;

pub use comments::comments_among;
pub use fault::fault_of;
pub use found::found_problems;
pub use laws::report_is_shown;
pub use showing::showing_of;
