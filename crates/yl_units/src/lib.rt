//! Places of a text as an editor names them: a line, and a column in the units in which the editor counts.
#![tactic(auto)]

mod encoding;
mod laws;
mod place;
mod walk;

pub use encoding::{Encoding, column_of};
pub use laws::{columns_are_last, places_lead_back};
pub use place::{EditorPlace, place_of, told_place};
pub use walk::{Reached, text_from};
