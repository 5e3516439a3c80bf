//! A run of rows of a document, judged from the state before it, and its laws.
//!
//! What rows report is determined by the state before them, which has no line numbers and no counts,
//! but for the rules on keys and anchors. Of those the laws go by runs of events and by lexemes. A
//! `PieceJudge` tells what rows report. The other functions are laws, and do nothing.
#![tactic(auto)]

mod comments;
mod duplicates;
mod edit;
mod events;
mod joined;
mod keys;
mod of_section;
mod one_section;
mod ordering;
mod patched;
mod piece;
mod references;
mod row_events;
mod section_edited;
mod told_below;

pub use duplicates::duplicates_of_runs;
pub use edit::{edit_is_told, told_is_within};
pub use events::{events_are_below, events_are_joined, events_of_section};
pub use joined::rows_are_joined;
pub use keys::keys_of_runs;
pub use of_section::section_is_told;
pub use one_section::{last_kind_is_told, rows_are_one_section, rows_go_on_as_one_section};
pub use ordering::ordering_of_runs;
pub use patched::told_is_patched;
pub use piece::{Piece, PieceFault, PieceJudge};
pub use references::{anchors_are_lexemes, references_are_lexemes};
pub use row_events::RowEvents;
pub use section_edited::{section_is_edited, section_is_replaced};
pub use told_below::{rows_are_told_below, start_is_told_below};
