//! `yl_text_cases`: reads test cases, and prints the result of each.
//!
//! A case is a line as `test_cases` reads it:
//!
//!     config TEXT     takes the configuration of the next cases, or prints its fault
//!     more, times, keys, stairs
//!                     give the start of the next text
//!     lint TEXT       prints the report of the text that ends with TEXT
//!     lexemes TEXT    prints the lexemes of such a text, as `yldump` does
//!     events TEXT     prints its events
//!     lines TEXT      prints its lines
//!     growths N       the next request allocates at least N times
//!
//! Each case is printed before its result. Empty lines, and lines that start with `#`, are skipped.
//! A request about a small text, or after `growths`, is also answered with each allocation refused
//! in turn. The answer must then be out of memory.
#![tactic(auto)]

mod cases;
mod views;

use cases::Kept;
use std::process::ExitCode;
use test_cases::follow_cases;

fn main(rt: HostRuntime) -> ExitCode {
    follow_cases(&rt, &mut Kept::new(rt.alloc()))
}
