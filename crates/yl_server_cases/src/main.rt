//! `yl_server_cases`: reads test cases of the Language Server, and prints the result of each.
//!
//! A case is a line as `test_cases` reads it:
//!
//!     more, times     give the start of the next text
//!     form WORD TEXT  defines a word. A later case that starts with WORD is a message whose body is
//!                     TEXT. The rest of that case replaces the last `$` of TEXT, and one of the
//!                     words before it replaces each of the others
//!     bytes TEXT      appends these bytes, which need not be a message, to the server's input
//!     serve           runs the server on the input since the last case of this kind. Prints the
//!                     messages that it sends, each as a line, and its status or fault
//!     try             does what `serve` does, and prints the number of bytes that the server has
//!                     written each time it waits for a message. Runs it again with each
//!                     allocation refused, and prints a sum over what is sent then, each sum once.
//!                     Runs it with readers and writers that take few bytes a call, with each that
//!                     fails at one of its calls, and on each prefix of its input. Prints a line if
//!                     an answer is wrong
//!
//! The path of a configuration's file contains its text, and the URI of a document contains what
//! its files say (`Files`). Each case is printed before its result. Empty lines, and lines that
//! start with `#`, are skipped. Of a message of more than 2,000 bytes, the start and the end are
//! printed.
#![tactic(auto)]

mod cases;
mod devices;
mod runs;
mod telling;
mod trials;

use cases::Kept;
use std::process::ExitCode;
use test_cases::follow_cases;

fn main(rt: HostRuntime) -> ExitCode {
    follow_cases(&rt, &mut Kept::new(rt.alloc()))
}
