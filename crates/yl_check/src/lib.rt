//! The report of the bytes of a file, its printed form, and the status of a run over many files.
//! `lint` reads a file and prints its report.
#![tactic(auto)]

mod report;
mod run;
mod status;

pub use report::{Printing, print_report, report_of_bytes};
pub use run::{lint, lint_bytes};
pub use status::joined;
