//! `yledit`: prints the problems of a YAML file, and those of each text that commands on standard
//! input make of it.
#![tactic(auto)]

use std::process::ExitCode;
use yl_chunks::ChunkStore;
use yl_cli::drive;
use yl_config::Config;
use yl_devices::{ProgramFault, RunFault};
use yl_programs::{Asked, asked_edit, bytes_of, ended, stopped, words};
use yl_sources::config_of;
use yl_text::Watched;

const NAME: &str = "yledit";

// Edits the text of a file by commands on standard input, and returns the exit status. A read fault
// after the text was read is a fault of standard input.
fn edited(rt: &HostRuntime, file: &str, asked: &Asked, config: Config) -> u8 {
    let bytes = match bytes_of(rt, file) {
        Ok(bytes) => bytes,
        Err(fault) => return stopped(rt, NAME, &ProgramFault::Run(file, fault)),
    };
    let mut input = Watched::new(rt.stdin());
    let mut out = Watched::new(rt.stdout());
    let answer = drive::<ChunkStore<_>, _, _>(
        rt.alloc(),
        file,
        config,
        asked.flags,
        bytes.as_slice(),
        &mut input,
        &mut out,
    );
    match answer {
        Ok(status) => status,
        Err(RunFault::Read) => stopped(rt, NAME, &ProgramFault::Run("stdin", RunFault::Read)),
        Err(fault) => stopped(rt, NAME, &ProgramFault::Run(file, fault)),
    }
}

fn answered(rt: &HostRuntime) -> u8 {
    let words = match words(rt) {
        Ok(words) => words,
        Err(fault) => return stopped(rt, NAME, &fault),
    };
    let asked = match asked_edit(rt.alloc(), words.as_slice()) {
        Ok(asked) => asked,
        Err(stop) => return ended(rt, NAME, stop),
    };
    let config = match config_of(rt, NAME, &asked.config) {
        Ok(config) => config,
        Err(status) => return status,
    };
    match asked.files.first() {
        Some(file) => edited(rt, file.as_str(), &asked, config),
        None => stopped(rt, NAME, &ProgramFault::Use),
    }
}

fn main(rt: HostRuntime) -> ExitCode {
    ExitCode::from(answered(&rt))
}
