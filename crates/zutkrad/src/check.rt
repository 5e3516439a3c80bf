//! `zutkrad check`: lints files and folders under the configuration of a project.
use crate::NAME;
use crate::progress::Progress;
use std::alloc::{AllocError, Global};
use std::env;
use std::env::VarError;
use std::io::{ErrorKind, IsTerminal};
use yl_check::{Printing, joined, print_report, report_of_bytes};
use yl_config::Config;
use yl_devices::{ProgramFault, RunFault, read_text, write_parts};
use yl_formats::Format;
use yl_programs::{AskedCheck, AskedFormat, FAULT, Source, bytes_of, stopped};
use yl_project::Project;
use yl_search::{Found, LoadCause, LoadFault, Loader, Origin, Walk, project_file, user_file};
use yl_sources::say_config;
use yl_text::Watched;

// The name of standard input in reports.
const INPUT: &str = "stdin";

// Writes a line about a file to standard error, and returns the exit status.
fn said(rt: &HostRuntime, file: &str, text: &str) -> u8 {
    let start: &[u8] = b": ";
    let end: &[u8] = b"\n";
    let mut out = Watched::new(rt.stderr());
    let _ = write_parts(
        &mut out,
        &[
            NAME.as_bytes(),
            start,
            file.as_bytes(),
            start,
            text.as_bytes(),
            end,
        ],
    );
    FAULT
}

fn refused(rt: &HostRuntime, fault: &LoadFault) -> Result<u8, AllocError> {
    let file = match &fault.file {
        Some(file) => file.as_str(),
        None => "",
    };
    match fault.cause {
        LoadCause::Config(fault) => {
            let mut program = String::from_str(rt.alloc(), NAME)?;
            if !file.is_empty() {
                program.push_str(": ")?;
                program.push_str(file)?;
            }
            let mut out = Watched::new(rt.stderr());
            let _ = say_config(program.as_str(), fault, &mut out);
            Ok(FAULT)
        }
        LoadCause::Run(RunFault::Memory) => Ok(stopped(rt, NAME, &ProgramFault::Memory)),
        LoadCause::Run(fault) => Ok(stopped(rt, NAME, &ProgramFault::Run(file, fault))),
        LoadCause::TooLong => Ok(said(rt, file, "configuration: more than 64 extend each other")),
    }
}

// Returns the file of the configuration if no configuration is asked for.
fn file_of(rt: &HostRuntime) -> Result<Option<String>, AllocError> {
    let here = match env::current_dir(rt) {
        Ok(here) => String::from_str(rt.alloc(), here.as_str())?,
        Err(error) if error.kind() == ErrorKind::OutOfMemory => return Err(AllocError),
        Err(_) => String::from_str(rt.alloc(), "/")?,
    };
    match project_file(rt, here.as_str(), true)? {
        Some(file) => Ok(Some(file)),
        None => user_file(rt),
    }
}

// Loads the configuration that is asked for, or else the one that is found.
fn project_of(rt: &HostRuntime, source: &Source) -> Result<Project<Global>, LoadFault> {
    let mut loader = Loader::new(rt, "");
    match source {
        Source::Data(text) => loader.load(Origin::Text(text.as_str())),
        Source::File(file) => loader.load(Origin::File(file.as_str())),
        Source::Standard => match file_of(rt)? {
            Some(file) => loader.load(Origin::File(file.as_str())),
            None => Ok(Project::standard(rt.alloc())?),
        },
    }
}

fn is_set(rt: &HostRuntime, name: &str) -> Result<bool, AllocError> {
    match env::var(rt, name) {
        Err(VarError::OutOfMemory) => Err(AllocError),
        Err(VarError::NotPresent) => Ok(false),
        _ => Ok(true),
    }
}

// Returns `true` if this is a step of a GitHub workflow.
fn is_workflow(rt: &HostRuntime) -> Result<bool, AllocError> {
    Ok(is_set(rt, "GITHUB_ACTIONS")? && is_set(rt, "GITHUB_WORKFLOW")?)
}

fn format_of(rt: &HostRuntime, asked: AskedFormat) -> Result<Format, AllocError> {
    Ok(match asked {
        AskedFormat::Parsable => Format::Parsable,
        AskedFormat::Standard => Format::Standard,
        AskedFormat::Colored => Format::Colored,
        AskedFormat::Github => Format::Github,
        AskedFormat::Auto if is_workflow(rt)? => Format::Github,
        AskedFormat::Auto if rt.stdout().is_terminal() => Format::Colored,
        AskedFormat::Auto => Format::Standard,
    })
}

// A run over files.
#[derive(Drop)]
struct Run<'a> {
    rt: &'a HostRuntime,
    project: &'a Project<Global>,
    printing: Printing,
    lists: bool,
    progress: Progress<'a>,
    // The number of items of the walk that were taken.
    files: u64,
}

// The status of a file, or `None` if the output can no longer be written.
type Status = Option<u8>;

impl Run<'_> {
    // Writes the fault of a file to standard error.
    fn fault(&mut self, file: &str, fault: RunFault) -> Status {
        self.progress.clear();
        Some(stopped(self.rt, NAME, &ProgramFault::Run(file, fault)))
    }

    fn print(&mut self, name: &str, config: &Config, bytes: &[u8]) -> Status {
        let problems = match report_of_bytes(self.rt.alloc(), config, bytes) {
            Ok(problems) => problems,
            Err(fault) => return self.fault(name, fault),
        };
        if !problems.is_empty() {
            self.progress.clear();
        }
        let mut out = Watched::new(self.rt.stdout());
        print_report(name, problems.as_slice(), self.printing, &mut out).ok()
    }

    // Lints a file, or prints its path if the run lists files.
    fn file(&mut self, file: &str) -> Status {
        let config = match self.project.config_for(file) {
            Ok(Some(config)) => config,
            Ok(None) => return Some(0),
            Err(AllocError) => return self.fault(file, RunFault::Memory),
        };
        if self.lists {
            let end: &[u8] = b"\n";
            let mut out = Watched::new(self.rt.stdout());
            return match write_parts(&mut out, &[file.as_bytes(), end]) {
                Ok(()) => Some(0),
                Err(_) => None,
            };
        }
        match bytes_of(self.rt, file) {
            Ok(bytes) => self.print(file, &config, bytes.as_slice()),
            Err(fault) => self.fault(file, fault),
        }
    }

    fn input(&mut self) -> Status {
        if self.lists {
            return Some(0);
        }
        match read_text(self.rt.alloc(), &mut Watched::new(self.rt.stdin())) {
            Ok(bytes) => {
                let config = *self.project.config();
                self.print(INPUT, &config, bytes.as_slice())
            }
            Err(fault) => self.fault(INPUT, fault),
        }
    }

    fn take(&mut self, found: Found) -> Status {
        self.files = self.files.saturating_add(1);
        self.progress.tell(self.files);
        match found {
            Found::Input => self.input(),
            Found::File(file) => self.file(file.as_str()),
            Found::Unreadable(folder) => self.fault(folder.as_str(), RunFault::Read),
            Found::BadName(folder) => {
                self.progress.clear();
                Some(said(self.rt, folder.as_str(), "a name is not UTF-8"))
            }
        }
    }
}

// Takes each file, and returns the status of all of them.
fn walked(run: &mut Run<'_>, paths: &[String]) -> Result<u8, AllocError> {
    let mut walk = Walk::new(run.rt, run.project, paths);
    let mut status = 0;
    for _ in 0..u64::MAX {
        let Some(found) = walk.next()? else {
            break;
        };
        match run.take(found) {
            Some(code) => status = joined(status, code),
            None => {
                run.progress.clear();
                return Ok(stopped(run.rt, NAME, &ProgramFault::Run("stdout", RunFault::Write)));
            }
        }
    }
    run.progress.clear();
    Ok(status)
}

fn checked(rt: &HostRuntime, asked: &AskedCheck) -> Result<u8, AllocError> {
    let project = match project_of(rt, &asked.config) {
        Ok(project) => project,
        Err(fault) => return refused(rt, &fault),
    };
    let mut run = Run {
        rt,
        project: &project,
        printing: Printing {
            format: format_of(rt, asked.format)?,
            no_warnings: asked.flags.no_warnings,
            strict: asked.flags.strict,
        },
        lists: asked.lists,
        progress: Progress::new(rt),
        files: 0,
    };
    walked(&mut run, asked.paths.as_slice())
}

/// Lints the files that are asked for, and returns the exit status.
pub fn check(rt: &HostRuntime, asked: &AskedCheck) -> u8 {
    match checked(rt, asked) {
        Ok(status) => status,
        Err(AllocError) => stopped(rt, NAME, &ProgramFault::Memory),
    }
}
