//! `yl_rpc_cases`: reads test cases of JSON-RPC, and prints what comes of each.
//!
//! A case is a line as `test_cases` reads it:
//!
//!     more, times     how the next bytes begin
//!     body BYTES      the call that these bytes are, or why they are none, and the answers that it may get
//!
//! Each case is printed before what comes of it; empty lines, and those that begin with `#`, are passed over. Of a line of more than 200 bytes the
//! first 80 and the last 40 are printed. A small body is read again with each allocation refused; where that is answered otherwise than it has to
//! be, a line says so.
#![tactic(auto)]

mod calls;
mod lines;
mod reading;

use reading::show_body;
use std::process::ExitCode;
use test_cases::{Cases, NextText, first_word, follow_cases, say};
use yl_devices::RunFault;

// The start of the next bytes.
#[derive(Drop)]
struct CallCases {
    next: NextText,
}

impl Cases for CallCases {
    fn follow(&mut self, rt: &HostRuntime, case: &str) -> Result<(), RunFault> {
        let (word, rest) = first_word(case);
        let Some(text) = self.next.end_by(word, rest)? else {
            return Ok(());
        };
        match word {
            "body" => show_body(rt, text.as_slice()),
            _ => say(rt, "is no case"),
        }
    }
}

fn main(rt: HostRuntime) -> ExitCode {
    let next = NextText::new(rt.alloc());
    follow_cases(&rt, &mut CallCases { next })
}
