//! `yamllint`: prints the problems of YAML files.
#![tactic(auto)]

ghost use Rattle.std.specs.Prelude.{◌≡◌, ◌-◌, ◌^◌, ◌<◌, IfErr, OnOk, bytes_eq, codes, if◌then◌else◌};
ghost use Rattle.yl_text.specs.Watched.{failures_of};

use std::fs;
use std::io::Write;
use std::process::ExitCode;
use yl_check::{joined, lint};
use yl_config::Config;
use yl_devices::{ProgramFault, RunFault};
use yl_programs::{Asked, Flags, asked, ended, stopped, words};
use yl_sources::config_of;
use yl_text::Watched;

const NAME: &str = "yamllint";

// Returns the name under which the problems of a file are printed.
fn shown_name(file: &str) -> &str
    ensures { result.now ≡ (if bytes_eq file.now (codes "-") then codes "stdin" else file.now) }
{
    if file == "-" { "stdin" } else { file }
}

// Lints a file, or standard input if the name is `-`, and prints its report.
fn linted<W: Write>(
    rt: &HostRuntime,
    file: &str,
    config: &Config,
    flags: Flags,
    out: &mut Watched<W>,
) -> Result<u8, RunFault>
    requires { failures_of out.old < 2 ^ 64 - 1 }
    ensures quiet { OnOk result (failures_of out.new ≡ failures_of out.old) }
    ensures told { IfErr result (λ fault. fault ≡ RunFault.Write → failures_of out.old < failures_of out.new) }
{
    let name = shown_name(file);
    if file == "-" {
        let mut input = Watched::new(rt.stdin());
        return lint(rt.alloc(), name, config, flags, &mut input, out);
    }
    match fs::open(rt, file) {
        Ok(opened) => {
            let mut input = Watched::new(opened);
            lint(rt.alloc(), name, config, flags, &mut input, out)
        }
        Err(_) => Err(RunFault::Read),
    }
}

// Lints the files in order, up to the first fault, and returns the exit status.
fn linted_all(rt: &HostRuntime, asked: &Asked, config: &Config) -> u8 {
    let mut out = Watched::new(rt.stdout());
    let mut status = 0;
    for file in &asked.files {
        let name = file.as_str();
        match linted(rt, name, config, asked.flags, &mut out) {
            Ok(code) => status = joined(status, code),
            Err(fault) => {
                let fault = ProgramFault::Run(shown_name(name), fault);
                return stopped(rt, NAME, &fault);
            }
        }
    }
    status
}

fn answered(rt: &HostRuntime) -> u8 {
    let words = match words(rt) {
        Ok(words) => words,
        Err(fault) => return stopped(rt, NAME, &fault),
    };
    let asked = match asked(rt.alloc(), words.as_slice()) {
        Ok(asked) => asked,
        Err(stop) => return ended(rt, NAME, stop),
    };
    match config_of(rt, NAME, &asked.config) {
        Ok(config) => linted_all(rt, &asked, &config),
        Err(status) => status,
    }
}

fn main(rt: HostRuntime) -> ExitCode {
    ExitCode::from(answered(&rt))
}
