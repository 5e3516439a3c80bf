//! Cases, one after another.
use crate::printing::say;
use std::process::ExitCode;
use yl_devices::{RunFault, read_text, text_of};
use yl_text::Watched;

/// What a program keeps between its cases.
pub trait Cases {
    /// Prints what comes of a case.
    fn follow(&mut self, rt: &HostRuntime, case: &str) -> Result<(), RunFault>;
}

// Prints each case of standard input, and then what comes of it.
fn follow_each<C: Cases>(rt: &HostRuntime, cases: &mut C) -> Result<(), RunFault> {
    let bytes = read_text(rt.alloc(), &mut Watched::new(rt.stdin()))?;
    let text = match text_of(bytes.as_slice()) {
        Ok(text) => text,
        Err(fault) => return Err(RunFault::Text(fault)),
    };
    for case in text.lines() {
        if !case.is_empty() && !case.starts_with('#') {
            say(rt, case)?;
            cases.follow(rt, case)?;
        }
    }
    Ok(())
}

/// Prints each case of standard input before what comes of it. Empty lines, and lines that start
/// with `#`, are skipped. Returns the exit status of the program, which is a failure if standard
/// input is no text or cannot be read, if a case ends with a fault, or if printing fails.
pub fn follow_cases<C: Cases>(rt: &HostRuntime, cases: &mut C) -> ExitCode {
    match follow_each(rt, cases) {
        Ok(()) => ExitCode::SUCCESS,
        Err(_) => ExitCode::FAILURE,
    }
}
