//! The program `zutkrad`.
//!
//! `zutkrad check` prints the problems of files and folders under the configuration of a project.
//! `zutkrad server` shows the problems of YAML texts in an editor, as a Language Server over
//! standard input and output.
#![tactic(auto)]

mod check;
mod folders;
mod progress;

use check::check;
use folders::Folders;
use std::fs;
use std::process::ExitCode;
use yl_chunks::ChunkStore;
use yl_config::Config;
use yl_devices::{ProgramFault, RunFault};
use yl_frames::Output;
use yl_programs::{Task, asked_zutkrad, ended, stopped, words};
use yl_server::{ConfigFiles, Found, Governed, ServeFault, serve};
use yl_sources::read_config;
use yl_text::Watched;

const NAME: &str = "zutkrad";

// The source of configurations of the server: the files of this machine.
#[derive(Drop)]
struct Files<'a> {
    rt: &'a HostRuntime,
    folders: Folders<'a>,
}

impl ConfigFiles for Files<'_> {
    fn read(&mut self, path: &str) -> Found {
        let Ok(opened) = fs::open(self.rt, path) else {
            return Found::Unreadable;
        };
        match read_config(self.rt.alloc(), &mut Watched::new(opened)) {
            Ok(read) => Found::Said(read),
            Err(RunFault::Memory) => Found::NoMemory,
            Err(_) => Found::Unreadable,
        }
    }

    fn of_document(&mut self, uri: &str, is_known: bool) -> Governed {
        self.folders.of_document(uri, is_known)
    }

    fn closed(&mut self, uri: &str) {
        self.folders.closed(uri);
    }
}

// Returns the fault to report for a run that ended early.
fn fault_of(fault: ServeFault) -> ProgramFault<'static> {
    match fault {
        ServeFault::Read => ProgramFault::Run("stdin", RunFault::Read),
        ServeFault::Header => ProgramFault::Run("stdin", RunFault::Command),
        ServeFault::Write | ServeFault::TooLong => ProgramFault::Run("stdout", RunFault::Write),
    }
}

fn served(rt: &HostRuntime) -> u8 {
    let mut input = Watched::new(rt.stdin());
    let mut out = Output::new(Watched::new(rt.stdout()));
    let mut files = Files {
        rt,
        folders: Folders::new(rt),
    };
    let config = Config::standard();
    match serve::<ChunkStore<_>, _, _, _>(rt.alloc(), config, &mut files, &mut input, &mut out) {
        Ok(status) => status,
        Err(fault) => {
            let _ = stopped(rt, NAME, &fault_of(fault));
            1
        }
    }
}

fn answered(rt: &HostRuntime) -> u8 {
    let words = match words(rt) {
        Ok(words) => words,
        Err(fault) => return stopped(rt, NAME, &fault),
    };
    match asked_zutkrad(rt.alloc(), words.as_slice()) {
        Ok(Task::Server) => served(rt),
        Ok(Task::Check(asked)) => check(rt, &asked),
        Err(stop) => ended(rt, NAME, stop),
    }
}

fn main(rt: HostRuntime) -> ExitCode {
    ExitCode::from(answered(&rt))
}
