//! What is known of the sections of a text without a walk over them.
//!
//! An overview says of consecutive sections how many lines they have, where the first one with a
//! fault is, the measure of their indentation facts, and which of them may silence rules. The
//! overview of some sections and that of the sections after them give the overview of all. So a
//! text keeps an overview of every 32 sections or so, and an edit makes again only those around the
//! sections that it touches.
#![tactic(auto)]

mod edit;
mod overview;
mod overviews;
mod survey;
mod walking;

pub use edit::{Nearby, SectionEdit};
pub use overview::{Overview, Silencing};
pub use overviews::{Border, nearest, overviews_of};
pub use survey::Survey;
