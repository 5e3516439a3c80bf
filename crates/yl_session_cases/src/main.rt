//! `yl_session_cases`: reads test cases of texts that are kept open, and prints the result of
//! each.
//!
//! A case is a line as `test_cases` reads it. A text is kept open over both stores, whose answers
//! must be the same:
//!
//!     config TEXT     takes the configuration of the next cases
//!     more, times, keys, stairs
//!                     give the start of the next text
//!     open TEXT       opens the text that ends with TEXT, and prints its report
//!     edit A B ROWS DOCUMENTS TEXT
//!                     replaces the lines from A to before B by TEXT, and prints the report after
//!                     it. It may scan at most ROWS rows, and derive the events of at most
//!                     DOCUMENTS documents
//!     put LINE COLUMN LINE COLUMN ROWS DOCUMENTS TEXT
//!                     replaces the range between two positions by TEXT. Prints the lines with a
//!                     bar after each, the status with `strict` unset and set, and the report.
//!                     Reading these must not allocate
//!     replay          makes all edits so far as a list of edits of the text that was opened. The
//!                     result must be that of making them one by one
//!     growths N       the next request allocates at least N times
//!     most N          the next edit allocates at most N times
//!     exactly         the next edit derives the events of exactly DOCUMENTS documents
//!
//! The number `-` is the largest number. Each case is printed before its result. Empty lines, and
//! lines that start with `#`, are skipped. After `growths`, a text, an edit or a list of edits is
//! also tried with each allocation refused in turn. Nothing may change then, and the edit must
//! succeed once there is memory.
#![tactic(auto)]

mod cases;
mod edits;
mod refused;
mod sessions;
mod words;

use cases::Kept;
use failing_alloc::FailingAlloc;
use std::process::ExitCode;
use test_cases::follow_cases;

fn main(rt: HostRuntime) -> ExitCode {
    let heap = FailingAlloc::new(rt.alloc());
    follow_cases(&rt, &mut Kept::new(rt.alloc(), &heap))
}
