//! The sections of an edited text that are judged again, and their summaries.
//!
//! A section is a range of rows that holds one document. An edit changes some rows. The sections
//! before and after these rows stay as they are, and so do their summaries.
#![tactic(auto)]

mod comparing;
mod places;
mod rejudging;
mod shortened;

pub use rejudging::{Rejudged, rejudge};
