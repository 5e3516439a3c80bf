//! Writes views of a text, also when allocations are refused.
use failing_alloc::FailingAlloc;
use std::alloc::{Allocator, Global};
use std::io::Write;
use yl_config::{Config, ConfigFault};
use yl_devices::{BadText, RunFault};
use yl_dump::{DumpFault, write_events, write_lexemes, write_lines};
use yl_lint::report_of_text;
use yl_report::write_report;
use yl_text::{MAX_BYTES, Watched};

/// Requests about a text of fewer bytes are also answered with each allocation refused in turn.
pub const SMALL: usize = 1000;

/// A request about a text.
#[derive(Clone, Copy, PartialEq, Eq)]
pub enum Wanted {
    /// The fault of a configuration, if there is one.
    Fault,
    /// The report of the linter.
    Report,
    /// The lexemes and the comments.
    Lexemes,
    /// The events.
    Events,
    /// The states of the lines.
    Lines,
}

// Writes the fault of a configuration, if there is one.
fn show_fault<A: Allocator + Copy, W: Write + Drop>(
    alloc: A,
    text: &str,
    out: W,
) -> Result<(), RunFault> {
    let fault = match Config::read(alloc, text.as_bytes()) {
        Ok(_) => return Ok(()),
        Err(ConfigFault::Memory) => return Err(RunFault::Memory),
        Err(fault) => format!(in alloc; "{fault}\n")?,
    };
    let mut out = out;
    match out.write_all(fault.as_str().as_bytes()) {
        Ok(()) => Ok(()),
        Err(_) => Err(RunFault::Write),
    }
}

// Writes the report of a text.
fn show_report<A: Allocator + Copy, W: Write + Drop>(
    alloc: A,
    config: &Config,
    text: &str,
    out: W,
) -> Result<(), RunFault> {
    if text.len() > MAX_BYTES {
        return Err(RunFault::Text(BadText::TooLarge));
    }
    let problems = report_of_text(alloc, config, text)?;
    let mut out = Watched::new(out);
    match write_report("", problems.as_slice(), false, &mut out) {
        Ok(()) => Ok(()),
        Err(_) => Err(RunFault::Write),
    }
}

// Writes the view of a text that `yldump` writes.
fn dump<A: Allocator + Copy, W: Write + Drop>(
    alloc: A,
    wanted: Wanted,
    text: &str,
    mut out: W,
) -> Result<(), RunFault> {
    if text.len() > MAX_BYTES {
        return Err(RunFault::Text(BadText::TooLarge));
    }
    let answer = match wanted {
        Wanted::Lexemes => write_lexemes(alloc, text, &mut out),
        Wanted::Events => write_events(alloc, text, &mut out),
        _ => write_lines(alloc, text, &mut out),
    };
    match answer {
        Ok(()) => Ok(()),
        Err(DumpFault::Write) => Err(RunFault::Write),
        Err(DumpFault::Memory) => Err(RunFault::Memory),
    }
}

/// Writes the answer to a request about a text.
pub fn show<A: Allocator + Copy, W: Write + Drop>(
    alloc: A,
    config: &Config,
    wanted: Wanted,
    text: &str,
    out: W,
) -> Result<(), RunFault> {
    match wanted {
        Wanted::Fault => show_fault(alloc, text, out),
        Wanted::Report => show_report(alloc, config, text, out),
        _ => dump(alloc, wanted, text, out),
    }
}

// Answers a request with an allocator that refuses one allocation. The answer is dropped, and only
// the error is returned.
fn asked(
    global: Global,
    heap: &FailingAlloc<Global>,
    config: &Config,
    wanted: Wanted,
    text: &str,
) -> Result<(), RunFault> {
    let mut bytes = Vec::new(global);
    show(heap, config, wanted, text, &mut bytes)
}

/// Returns the number of allocations of a request. Returns `None` if the request fails without a
/// refused allocation, or if its error is not out of memory with one.
pub fn growths(global: Global, config: &Config, wanted: Wanted, text: &str) -> Option<u64> {
    let heap = FailingAlloc::new(global);
    for n in 0..u64::MAX {
        heap.refuse(n + 1);
        let answer = asked(global, &heap, config, wanted, text);
        if heap.is_armed() {
            return answer.is_ok().then_some(n);
        }
        if answer != Err(RunFault::Memory) {
            return None;
        }
    }
    None
}
