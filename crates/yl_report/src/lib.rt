//! The report of a text: its problems in order, with their levels and without the silenced ones,
//! its exit status and its printed lines.
#![tactic(auto)]

mod arranging;
mod comment;
mod directive;
mod hearing;
mod marks;
mod noting;
mod printing;
mod problem;
mod silence;

pub use arranging::{arrange, compare, is_syntax, one_arrangement};
pub use comment::{disables_file, own_line};
pub use hearing::heard_reports;
pub use printing::write_report;
pub use problem::{Problem, status};
pub use silence::Silences;
