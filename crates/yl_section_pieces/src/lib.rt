//! A section without a fault that is kept in pieces, which are runs of its rows: where they are cut,
//! and an edit within one of them.
//!
//! Of each piece the summary is kept, and the state before it. An edit within a piece judges its
//! rows alone, if the state after them and the names that other pieces ask for stay.
#![tactic(auto)]

mod border_judge;
mod borders;
mod cut;
mod edit;
mod edited;
mod listed;
mod lists;
mod openings;
mod piece;
mod plain_rows;
mod run_judge;
mod summary;

pub use cut::pieces_of_section;
pub use edit::edit_piece;
pub use edited::piece_is_edited;
pub use listed::{sections_are_found, sections_are_listed};
pub use piece::SectionPiece;
