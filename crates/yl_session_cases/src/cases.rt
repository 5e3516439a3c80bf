//! Follows cases, one after another.
use crate::edits::{Both, Inquiry, Limits, NO_LIMITS, Request, answer_both, open};
use crate::sessions::push_answer;
use crate::words::{Instruction, instruction_of};
use failing_alloc::FailingAlloc;
use std::alloc::Global;
use test_cases::{Cases, NextText, first_word, say, write};
use yl_config::Config;
use yl_devices::RunFault;

/// What is kept between cases: the configuration, the start of the next text, the limits of
/// allocations, and the text that is kept open, with the heap that it allocates from.
#[derive(Drop)]
pub struct Kept<'a> {
    config: Config,
    next: NextText,
    limits: Limits,
    heap: &'a FailingAlloc<Global>,
    both: Option<Both<'a>>,
}

// Opens a text, or prints the reason for which it is not opened.
fn reopen(rt: &HostRuntime, kept: &mut Kept<'_>, bytes: &[u8]) -> Result<(), RunFault> {
    kept.both = None;
    match open(rt.alloc(), kept.heap, &kept.config, bytes) {
        Ok(both) => {
            kept.both = Some(both);
            Ok(())
        }
        Err(fault) => {
            let mut line = Vec::new(rt.alloc());
            push_answer(rt.alloc(), Err(fault), &mut line)?;
            write(rt, line.as_slice())
        }
    }
}

// Answers a request about the open text, and prints the answer.
fn ask(
    rt: &HostRuntime,
    kept: &mut Kept<'_>,
    request: Request,
    bytes: &[u8],
) -> Result<(), RunFault> {
    let Some(both) = &mut kept.both else {
        return say(rt, "no text is open");
    };
    let inquiry = Inquiry {
        request,
        bytes,
        limits: kept.limits,
    };
    let shown = answer_both(rt.alloc(), kept.heap, both, inquiry)?;
    write(rt, shown.as_slice())
}

// Takes a configuration.
fn follow_config(rt: &HostRuntime, kept: &mut Kept<'_>, text: &str) -> Result<(), RunFault> {
    let bytes = kept.next.end(text)?;
    match Config::read(rt.alloc(), bytes.as_slice()) {
        Ok(config) => kept.config = config,
        Err(_) => say(rt, "is no configuration")?,
    }
    kept.limits = NO_LIMITS;
    Ok(())
}

// Follows a case with a request about a text that is kept open.
fn follow_asked(
    rt: &HostRuntime,
    kept: &mut Kept<'_>,
    request: Request,
    text: &str,
) -> Result<(), RunFault> {
    let bytes = kept.next.end(text)?;
    if let Request::Report = request {
        reopen(rt, kept, bytes.as_slice())?;
    }
    ask(rt, kept, request, bytes.as_slice())?;
    kept.limits = NO_LIMITS;
    Ok(())
}

impl<'a> Kept<'a> {
    /// No text is open yet, and the configuration is the default.
    pub fn new(alloc: Global, heap: &'a FailingAlloc<Global>) -> Kept<'a> {
        Kept {
            config: Config::standard(),
            next: NextText::new(alloc),
            limits: NO_LIMITS,
            heap,
            both: None,
        }
    }
}

impl Cases for Kept<'_> {
    fn follow(&mut self, rt: &HostRuntime, case: &str) -> Result<(), RunFault> {
        let (word, rest) = first_word(case);
        match instruction_of(word, rest) {
            Some(Instruction::Config(text)) => follow_config(rt, self, text)?,
            Some(Instruction::Growths(least)) => self.limits.least = least,
            Some(Instruction::Most(most)) => self.limits.most = most,
            Some(Instruction::Exactly) => self.limits.is_exact = true,
            Some(Instruction::Request(request, text)) => follow_asked(rt, self, request, text)?,
            None => {
                if !self.next.extend(word, rest)? {
                    say(rt, "is no case")?;
                }
            }
        }
        Ok(())
    }
}
