//! What an edit makes of the pieces in which the sections of a text are kept.
//!
//! All pieces stand in one list, and a section begins with a piece that has no state before it. An
//! edit within one piece mostly changes this piece alone. Otherwise the sections that it touches are
//! judged again, and cut into pieces. A section that only loses rows without a lexeme and a comment
//! at its end keeps its pieces: the last one has fewer rows then.
#![tactic(auto)]

mod anew;
mod cutting;
mod list;
mod one_piece;
mod places;
mod rejudging;
mod shorter;
mod state_before;

pub use list::PieceList;
pub use rejudging::{Rejudged, rejudge_pieces};
pub use state_before::StateBefore;
