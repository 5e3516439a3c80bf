//! Prints the results of runs.
use crate::runs::Ran;
use std::alloc::{AllocError, Global};
use test_cases::{say, sum_of, write};
use yl_devices::{Ahead, RunFault};
use yl_frames::{NextBody, next_body};
use yl_text::Watched;

// Of a message, the first `FRONT` bytes are printed. If more than `REST` bytes follow these, only
// the last `BACK` of them are printed, with the length of the message and a sum over it.
const FRONT: usize = 80;

const REST: usize = 1920;

const BACK: usize = 80;

// Appends the line of a message, without the middle of a long message.
fn push_line(body: &[u8], lines: &mut Vec<u8>) -> Result<(), AllocError> {
    let (front, rest) = body.split_at(body.len().min(FRONT));
    lines.extend_from_slice(front)?;
    if rest.len() > REST {
        lines.extend_from_slice(b" .. ")?;
        lines.extend_from_slice(&rest[rest.len() - BACK..])?;
    } else {
        lines.extend_from_slice(rest)?;
    }
    lines.push(b'\n')?;
    Ok(())
}

// Appends the lines of a message.
fn push_message(alloc: Global, body: &[u8], lines: &mut Vec<u8>) -> Result<(), AllocError> {
    push_line(body, lines)?;
    if body.len() > FRONT + REST {
        let line = format!(in alloc; "= {} bytes, sum {}\n", body.len(), sum_of(body))?;
        lines.extend_from_slice(line.as_str().as_bytes())?;
    }
    Ok(())
}

// Returns the lines of the messages in these bytes.
fn lines_of(alloc: Global, mut bytes: &[u8]) -> Result<Vec<u8>, RunFault> {
    let mut lines = Vec::new(alloc);
    let mut ahead = Ahead::new();
    for _ in 0..u64::MAX {
        let mut input = Watched::new(&mut bytes);
        match next_body(alloc, &mut ahead, &mut input)? {
            NextBody::Body(body) => push_message(alloc, body.as_slice(), &mut lines)?,
            NextBody::End => return Ok(lines),
            NextBody::Dropped | NextBody::Bad => return Err(RunFault::Memory),
        }
    }
    Ok(lines)
}

/// Prints the messages that a run sent, and its status or its fault.
pub fn tell(rt: &HostRuntime, ran: &Ran) -> Result<(), RunFault> {
    let alloc = rt.alloc();
    write(rt, lines_of(alloc, ran.out.as_slice())?.as_slice())?;
    let line = match ran.answer {
        Ok(status) => format!(in alloc; "= {status}")?,
        Err(fault) => format!(in alloc; "= {fault:?}")?,
    };
    say(rt, line.as_str())
}

/// Prints numbers after a word.
pub fn tell_numbers(rt: &HostRuntime, word: &str, numbers: &[u64]) -> Result<(), RunFault> {
    let mut line = format!(in rt.alloc(); "= {word}")?;
    for number in numbers {
        let text = format!(in rt.alloc(); " {number}")?;
        line.push_str(text.as_str())?;
    }
    say(rt, line.as_str())
}
