//! `yldump`: prints what the scanner and the parser find in a YAML file.
#![tactic(auto)]

use std::process::ExitCode;
use yl_devices::{ProgramFault, RunFault, read_text, text_of};
use yl_dump::{DumpFault, write_events, write_lexemes, write_lines};
use yl_programs::{AskedDump, View, asked_dump, bytes_of, ended, stopped, words};
use yl_text::Watched;

const NAME: &str = "yldump";

// Returns the name of the file in messages.
fn shown_name(file: &str) -> &str {
    if file == "-" { "stdin" } else { file }
}

// Returns the bytes of a file, or those of standard input if the name is `-`.
fn bytes_given(rt: &HostRuntime, file: &str) -> Result<Vec<u8>, RunFault> {
    if file == "-" {
        return read_text(rt.alloc(), &mut Watched::new(rt.stdin()));
    }
    bytes_of(rt, file)
}

// Writes the view of the file that the arguments ask for.
fn shown(rt: &HostRuntime, asked: &AskedDump) -> Result<(), RunFault> {
    let bytes = bytes_given(rt, asked.file.as_str())?;
    let text = match text_of(bytes.as_slice()) {
        Ok(text) => text,
        Err(fault) => return Err(RunFault::Text(fault)),
    };
    let mut out = rt.stdout();
    let answer = match asked.view {
        View::Lexemes => write_lexemes(rt.alloc(), text, &mut out),
        View::Events => write_events(rt.alloc(), text, &mut out),
        View::Lines => write_lines(rt.alloc(), text, &mut out),
    };
    match answer {
        Ok(()) => Ok(()),
        Err(DumpFault::Write) => Err(RunFault::Write),
        Err(DumpFault::Memory) => Err(RunFault::Memory),
    }
}

// Runs the program, and returns its exit status.
fn answered(rt: &HostRuntime) -> u8 {
    let words = match words(rt) {
        Ok(words) => words,
        Err(fault) => return stopped(rt, NAME, &fault),
    };
    let asked = match asked_dump(rt.alloc(), words.as_slice()) {
        Ok(asked) => asked,
        Err(stop) => return ended(rt, NAME, stop),
    };
    match shown(rt, &asked) {
        Ok(()) => 0,
        Err(fault) => {
            let fault = ProgramFault::Run(shown_name(asked.file.as_str()), fault);
            stopped(rt, NAME, &fault)
        }
    }
}

fn main(rt: HostRuntime) -> ExitCode {
    ExitCode::from(answered(&rt))
}
