//! `yl_project_cases`: reads test cases of projects' configurations, and prints the result of
//! each.
//!
//! A case is a line as `test_cases` reads it:
//!
//!     more, times     give the start of the next text
//!     lines TEXT      gives the lines of the files that the next configurations name
//!     base WORD       gives the base that the next configurations extend: `empty`, `default`,
//!                     `relaxed` or `last`, the last one that was read
//!     read TEXT       reads a configuration
//!     named TEXT      prints the files that a configuration names
//!     path PATH       prints the rules that hold for a path under the last configuration
//!     yaml NAME       prints whether a file with this name is YAML
//!
//! Each case is printed before its result. Empty lines, and lines that start with `#`, are skipped.
//! A configuration is also read with each allocation refused in turn, unless its base is `last`. A
//! line is printed if the answer is wrong.
#![tactic(auto)]

mod printed;
mod reading;
mod state;

use state::State;
use std::process::ExitCode;
use test_cases::follow_cases;

fn main(rt: HostRuntime) -> ExitCode {
    match State::new(rt.alloc()) {
        Ok(mut state) => follow_cases(&rt, &mut state),
        Err(_) => ExitCode::FAILURE,
    }
}
