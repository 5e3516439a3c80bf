//! `yl_patterns_cases`: reads test cases of patterns, and prints what comes of each.
//!
//! A case is a line as `test_cases` reads it:
//!
//!     more, times              how the next case goes on after its word
//!     fits PATH|LINE|LINE..    `fits` or `-`, whether the path is among the patterns of these lines, or `bad` where a line is none
//!
//! Each case is printed before what comes of it; empty lines, and those that begin with `#`, are passed over. A small case is answered again with each
//! allocation refused in turn, by a list of patterns that is asked once more then; where that is answered otherwise, a line says so.
#![tactic(auto)]

mod answering;

use answering::show_answer;
use std::process::ExitCode;
use test_cases::{Cases, NextText, first_word, follow_cases, say};
use yl_devices::RunFault;

// The start of the next case.
#[derive(Drop)]
struct PatternCases {
    next: NextText,
}

impl Cases for PatternCases {
    fn follow(&mut self, rt: &HostRuntime, case: &str) -> Result<(), RunFault> {
        let (word, rest) = first_word(case);
        let Some(text) = self.next.end_by(word, rest)? else {
            return Ok(());
        };
        match word {
            "fits" => show_answer(rt, text.as_slice()),
            _ => say(rt, "is no case"),
        }
    }
}

fn main(rt: HostRuntime) -> ExitCode {
    let next = NextText::new(rt.alloc());
    follow_cases(&rt, &mut PatternCases { next })
}
