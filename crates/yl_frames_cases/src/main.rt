//! `yl_frames_cases`: reads test cases of messages, and prints what comes of each.
//!
//! A case is a line as `test_cases` reads it:
//!
//!     more, times     how the next bytes begin
//!     read BYTES      the messages that these bytes are, up to the end or to bytes that are none
//!     send TEXT       the message whose body is this text as JSON
//!
//! Each case is printed before what comes of it; empty lines, and those that begin with `#`, are passed over. Bytes are read again by readers that
//! give few bytes a call, that fail at each call in turn, and with each allocation refused, and a message is sent again to writers that fail at each
//! call; where that is answered otherwise than it has to be, a line says so.
#![tactic(auto)]

mod reading;
mod sending;

use reading::show_read;
use sending::show_sent;
use std::process::ExitCode;
use test_cases::{Cases, NextText, first_word, follow_cases, say};
use yl_devices::RunFault;

// The start of the next bytes.
#[derive(Drop)]
struct MessageCases {
    next: NextText,
}

impl Cases for MessageCases {
    fn follow(&mut self, rt: &HostRuntime, case: &str) -> Result<(), RunFault> {
        let (word, rest) = first_word(case);
        let Some(text) = self.next.end_by(word, rest)? else {
            return Ok(());
        };
        match word {
            "read" => show_read(rt, text.as_slice()),
            "send" => show_sent(rt, text.as_slice()),
            _ => say(rt, "is no case"),
        }
    }
}

fn main(rt: HostRuntime) -> ExitCode {
    let next = NextText::new(rt.alloc());
    follow_cases(&rt, &mut MessageCases { next })
}
