//! The problems of a text, split into those that its report shows and those that are suppressed.
//!
//! Comments silence problems, and the first section with a fault hides what is found in the
//! sections after it, rules on lines apart. `FoundProblems` keeps the suppressed problems in a list
//! beside the report, so an edit that shows or hides problems needs no walk over the text. Both
//! lists are in the order of a report. The text's fault, if it is shown, is in the list of the
//! report. A `Change` says what an edit makes of both lists. `make_room` allocates all that a
//! change needs before any of it is made.
#![tactic(auto)]

mod change;
mod comparing;
mod judging;
mod laws;
mod merging;
mod parting;
mod parts;
mod places;
mod shifting;
mod showing;

pub use change::{Change, FoundProblems, LinesPatch, Spare};
pub use laws::{faults_come, faults_go, parts_follow, parts_stay_in_order, reports_are_in_order};
pub use showing::{Showing, is_of_lines};
