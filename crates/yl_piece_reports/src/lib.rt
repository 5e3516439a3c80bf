//! Laws of sections that are kept in pieces: runs of a section's rows, each with a summary of its
//! own.
//!
//! A section without a fault is cut into pieces, as what is told of its rows is. Pieces make the
//! same report as the sections, and their part in it is theirs alone. No function here does
//! anything.
#![tactic(auto)]

mod cuts;
mod plain;
mod reports;
mod told;

pub use cuts::cuts_are_local;
pub use plain::pieces_are_plain;
pub use reports::pieces_report;
pub use told::{faultless_section_is_cut, piece_is_cut, pieces_stand_within};
