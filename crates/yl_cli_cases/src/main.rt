//! `yl_cli_cases`: reads test cases of `lint` and `drive`, and prints what comes of each.
//!
//! A case is a line as `test_cases` reads it:
//!
//!     more, times, keys, stairs
//!                     how the next text begins
//!     growths N       the next `lint` asks for memory at least so often
//!     lint TEXT       what `lint` answers to the text that ends so, and writes
//!     text TEXT       the cases below edit the text that ends so
//!     drive TEXT      what `drive` answers to these commands, and writes
//!     work TEXT       the same where each edit tells its work
//!     standard        the cases below have the default configuration
//!     data TEXT       they have the configuration that this text says
//!     file NAME       they have the configuration that this file says
//!     flags WORDS     they have the flags `strict` and `no-warnings` that stand here
//!     flood lint N    what `lint` answers to so many bytes 0xFF; with `drive`, to so many letters in place of commands
//!     joined A B      the status of two files
//!     faults          the lines of faults
//!
//! Each case is printed before what comes of it; empty lines, and those that begin with `#`, are passed over. What is asked of a small text is asked
//! again with readers and writers that take few bytes a call, with each that fails at one of its places, and of `lint` with each growth refused;
//! where that is answered otherwise than it has to be, a line says so.
#![tactic(auto)]

mod cases;
mod faults;
mod flood;
mod runs;
mod trials;

use cases::Kept;
use std::process::ExitCode;
use test_cases::follow_cases;

fn main(rt: HostRuntime) -> ExitCode {
    follow_cases(&rt, &mut Kept::new(rt.alloc()))
}
