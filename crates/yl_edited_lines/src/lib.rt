//! What an edit asks of the lines of a text.
//!
//! `TextEdit` is an edit of the lines, and `reads_alike` says whether it leaves their findings as
//! they are. `find_there` finds the problems in some of the lines and in their sections, and
//! `have_same_texts` and `speak_within` say what comments that silence rules change.
#![tactic(auto)]

mod edit;
mod switches;
mod there;
mod unchanged;
mod window;

pub use edit::TextEdit;
pub use switches::{have_same_texts, retain_switches, speak_within};
pub use there::{Ends, find_there};
pub use unchanged::reads_alike;
pub use window::Window;
