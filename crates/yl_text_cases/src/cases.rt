//! Follows cases, one after another.
use crate::views::{SMALL, Wanted, growths, show};
use std::alloc::Global;
use test_cases::{Cases, NextText, first_word, say, told_growths, write};
use yl_config::Config;
use yl_devices::RunFault;

/// What is kept between cases: the configuration, the start of the next text, and the minimum number
/// of allocations.
#[derive(Drop)]
pub struct Kept {
    config: Config,
    next: NextText,
    least: u64,
}

// Answers a request with each allocation refused in turn, and prints whether an answer is wrong.
fn refuse_each(rt: &HostRuntime, kept: &Kept, wanted: Wanted, text: &str) -> Result<(), RunFault> {
    if text.len() >= SMALL && kept.least == 0 {
        return Ok(());
    }
    let count = growths(rt.alloc(), &kept.config, wanted, text);
    write(rt, told_growths(count, kept.least).as_bytes())
}

// Prints the answer to a request about a text.
fn show_text(rt: &HostRuntime, kept: &Kept, wanted: Wanted, bytes: &[u8]) -> Result<(), RunFault> {
    let Ok(text) = str::from_utf8(bytes) else {
        return say(rt, "is no text");
    };
    refuse_each(rt, kept, wanted, text)?;
    show(rt.alloc(), &kept.config, wanted, text, rt.stdout())
}

// Returns the request of a case by its first word.
fn wanted_of(word: &str) -> Option<Wanted> {
    match word {
        "config" => Some(Wanted::Fault),
        "lint" => Some(Wanted::Report),
        "lexemes" => Some(Wanted::Lexemes),
        "events" => Some(Wanted::Events),
        "lines" => Some(Wanted::Lines),
        _ => None,
    }
}

// Prints the answer to a request about a text, and takes a configuration that has no fault.
fn ask(rt: &HostRuntime, kept: &mut Kept, wanted: Wanted, bytes: &[u8]) -> Result<(), RunFault> {
    show_text(rt, kept, wanted, bytes)?;
    if wanted == Wanted::Fault
        && let Ok(config) = Config::read(rt.alloc(), bytes)
    {
        kept.config = config;
    }
    kept.least = 0;
    Ok(())
}

impl Kept {
    /// No text has begun yet, and the configuration is the default.
    pub fn new(alloc: Global) -> Kept {
        Kept {
            config: Config::standard(),
            next: NextText::new(alloc),
            least: 0,
        }
    }
}

impl Cases for Kept {
    fn follow(&mut self, rt: &HostRuntime, case: &str) -> Result<(), RunFault> {
        let (word, rest) = first_word(case);
        if word == "growths" {
            self.least = rest.parse().unwrap_or(u64::MAX);
            return Ok(());
        }
        let Some(bytes) = self.next.end_by(word, rest)? else {
            return Ok(());
        };
        match wanted_of(word) {
            Some(wanted) => ask(rt, self, wanted, bytes.as_slice()),
            None => say(rt, "is no case"),
        }
    }
}
