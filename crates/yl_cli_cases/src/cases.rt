//! Cases, one after another.
use crate::faults::tell_faults;
use crate::flood::Repeated;
use crate::runs::{Call, Ran, Task, run as run_call};
use crate::trials::{Trial, failure, whole};
use std::alloc::Global;
use test_cases::{Cases, MemoryWriter, NextText, first_word, say, write};
use yl_cli::joined;
use yl_config::Config;
use yl_devices::RunFault;
use yl_programs::{Flags, Source};
use yl_sources::config_of;

// What is asked of fewer bytes is asked again where devices fail and memory is refused.
const SMALL: usize = 1000;

/// What is kept between cases: how the next text begins, how often it asks for memory at least, the text that is edited, and what it is linted under.
#[derive(Drop)]
pub struct Kept {
    next: NextText,
    least: u64,
    text: Vec<u8>,
    config: Config,
    flags: Flags,
}

// No warning is left out, and none counts as an error.
const NO_FLAGS: Flags = Flags {
    strict: false,
    no_warnings: false,
    work: false,
};

// A call under what is kept.
fn call_of<'a>(kept: &Kept, task: Task<'a>, work: bool) -> Call<'a> {
    let mut flags = kept.flags;
    flags.work = work;
    Call {
        task,
        config: kept.config,
        flags,
    }
}

// Prints what a run has written, and its status or its fault.
fn tell(rt: &HostRuntime, ran: &Ran) -> Result<(), RunFault> {
    write(rt, ran.out.as_slice())?;
    let line = match ran.answer {
        Ok(status) => format!(in rt.alloc(); "= {status}")?,
        Err(fault) => format!(in rt.alloc(); "= {fault}")?,
    };
    say(rt, line.as_str())
}

// Runs over bytes, and prints what comes of it, and what is answered otherwise than it has to be.
fn show(rt: &HostRuntime, call: Call<'_>, input: &[u8], least: u64) -> Result<(), RunFault> {
    let alloc = rt.alloc();
    let whole = whole(alloc, call, input);
    tell(rt, &whole)?;
    let opened = match call.task {
        Task::Lint => 0,
        Task::Drive(text) => text.len(),
    };
    if input.len().saturating_add(opened) < SMALL {
        let trial = Trial {
            alloc,
            call,
            input,
            whole: &whole,
            least,
        };
        if let Some(what) = failure(&trial) {
            say(rt, what)?;
        }
    }
    Ok(())
}

// Reads a byte so many times at most, and prints what comes of it, and `reads all` where fewer than a million of them are left.
fn flood(rt: &HostRuntime, call: Call<'_>, byte: u8, count: usize) -> Result<(), RunFault> {
    let mut reader = Repeated { byte, left: count };
    let ran = run_call(rt.alloc(), call, &mut reader, MemoryWriter::new(rt.alloc()));
    tell(rt, &ran)?;
    if reader.left < 1_000_000 {
        say(rt, "reads all")?;
    }
    Ok(())
}

// A flood of so many bytes.
fn follow_flood(rt: &HostRuntime, kept: &Kept, rest: &str) -> Result<(), RunFault> {
    let (word, count) = first_word(rest);
    let count = count.parse().unwrap_or(0);
    match word {
        "lint" => flood(rt, call_of(kept, Task::Lint, false), 0xFF, count),
        _ => flood(
            rt,
            call_of(kept, Task::Drive(kept.text.as_slice()), false),
            b'r',
            count,
        ),
    }
}

// The status of two files.
fn follow_joined(rt: &HostRuntime, rest: &str) -> Result<(), RunFault> {
    let (one, two) = first_word(rest);
    let status = joined(one.parse().unwrap_or(0), two.parse().unwrap_or(0));
    let line = format!(in rt.alloc(); "= {status}")?;
    say(rt, line.as_str())
}

// Calls what a case asks for.
fn call(rt: &HostRuntime, kept: &Kept, word: &str, input: &[u8]) -> Result<(), RunFault> {
    let edited = Task::Drive(kept.text.as_slice());
    match word {
        "lint" => show(rt, call_of(kept, Task::Lint, false), input, kept.least),
        "drive" => show(rt, call_of(kept, edited, false), input, 0),
        "work" => show(rt, call_of(kept, edited, true), input, 0),
        _ => say(rt, "is no case"),
    }
}

// The configuration of the cases below, or the exit status where there is none.
fn follow_source(rt: &HostRuntime, kept: &mut Kept, source: &Source) -> Result<(), RunFault> {
    match config_of(rt, "yl_cli_cases", source) {
        Ok(config) => {
            kept.config = config;
            Ok(())
        }
        Err(status) => {
            let line = format!(in rt.alloc(); "= {status}")?;
            say(rt, line.as_str())
        }
    }
}

// A case that says what the cases below are linted under. `false` where it is none.
fn follow_setting(
    rt: &HostRuntime,
    kept: &mut Kept,
    word: &str,
    rest: &str,
) -> Result<bool, RunFault> {
    match word {
        "standard" => follow_source(rt, kept, &Source::Standard)?,
        "file" => follow_source(rt, kept, &Source::File(String::from_str(rt.alloc(), rest)?))?,
        "data" => follow_source(rt, kept, &Source::Data(String::from_str(rt.alloc(), rest)?))?,
        "flags" => {
            kept.flags.strict = rest.contains("strict");
            kept.flags.no_warnings = rest.contains("no-warnings");
        }
        _ => return Ok(false),
    }
    Ok(true)
}

impl Kept {
    /// No text is edited yet, and the configuration is the default.
    pub fn new(alloc: Global) -> Kept {
        Kept {
            next: NextText::new(alloc),
            least: 0,
            text: Vec::new(alloc),
            config: Config::standard(),
            flags: NO_FLAGS,
        }
    }
}

impl Cases for Kept {
    fn follow(&mut self, rt: &HostRuntime, case: &str) -> Result<(), RunFault> {
        let (word, rest) = first_word(case);
        match word {
            "flood" => return follow_flood(rt, self, rest),
            "joined" => return follow_joined(rt, rest),
            "faults" => return tell_faults(rt),
            "growths" => {
                self.least = rest.parse().unwrap_or(u64::MAX);
                return Ok(());
            }
            _ => {}
        }
        if follow_setting(rt, self, word, rest)? {
            return Ok(());
        }
        let Some(input) = self.next.end_by(word, rest)? else {
            return Ok(());
        };
        if word == "text" {
            self.text = input;
        } else {
            call(rt, self, word, input.as_slice())?;
        }
        self.least = 0;
        Ok(())
    }
}
