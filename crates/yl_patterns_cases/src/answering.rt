//! What comes of a path and the lines of patterns.
use failing_alloc::FailingAlloc;
use std::alloc::{Allocator, Global};
use test_cases::say;
use yl_devices::RunFault;
use yl_patterns::{PatternFault, Patterns};

// Cases with more bytes than these are answered but once.
const SMALL: usize = 1000;

// Adds a line, once more where memory is refused.
fn add<A: Allocator + Copy>(patterns: &mut Patterns<A>, line: &str) -> Result<(), PatternFault> {
    match patterns.add(line) {
        Err(PatternFault::Memory) => patterns.add(line),
        answer => answer,
    }
}

// The answer to a case. Each call is made once more where memory is refused.
fn answer_of<A: Allocator + Copy>(alloc: A, case: &str) -> Result<&'static str, RunFault> {
    let (path, lines) = case.split_once('|').unwrap_or((case, ""));
    let mut patterns = Patterns::new(alloc);
    for line in lines.split('|') {
        match add(&mut patterns, line) {
            Ok(()) => {}
            Err(PatternFault::BadPattern) => return Ok("bad"),
            Err(PatternFault::Memory) => return Err(RunFault::Memory),
        }
    }
    let is_fit = match patterns.fits(path) {
        Ok(is_fit) => is_fit,
        Err(_) => patterns.fits(path)?,
    };
    Ok(if is_fit { "fits" } else { "-" })
}

// Whether the answer is the same where an allocation is refused, each in turn.
fn is_same_where_refused(alloc: Global, case: &str, answer: &str) -> Result<bool, RunFault> {
    let heap = FailingAlloc::new(alloc);
    for nth in 1..u64::MAX {
        heap.refuse(nth);
        if answer_of(&heap, case)? != answer {
            return Ok(false);
        }
        if heap.is_armed() {
            return Ok(true);
        }
    }
    Ok(false)
}

/// Prints the answer to a case.
pub fn show_answer(rt: &HostRuntime, case: &[u8]) -> Result<(), RunFault> {
    let Ok(case) = std::str::from_utf8(case) else {
        return say(rt, "is no text");
    };
    let answer = answer_of(rt.alloc(), case)?;
    say(rt, answer)?;
    if case.len() <= SMALL && !is_same_where_refused(rt.alloc(), case, answer)? {
        say(rt, "is answered otherwise where memory is refused")?;
    }
    Ok(())
}
