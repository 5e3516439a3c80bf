//! Reads the configuration that is asked for.
ghost use Rattle.std.specs.Prelude.{◌≡◌, ◌-◌, ◌^◌, ◌<◌, IfOk, IfErr, Ok, Err, MatchResult};
ghost use Rattle.yl_text.specs.Watched.{device_of, failures_of};
ghost use Rattle.yl_devices.specs.Text.{IsReadFault};
ghost use Rattle.yl_sources.specs.Source.{IsConfigRead, IsSourceAnswer};

use crate::saying::say_config;
use std::alloc::Allocator;
use std::fs;
use std::io::Read;
use yl_config::{Config, ConfigFault};
use yl_devices::{ProgramFault, RunFault, read_text, without_mark};
use yl_programs::{FAULT, Source, stopped};
use yl_text::Watched;

/// Reads the text of a configuration to its end, and returns the configuration or its fault.
/// Ignores one leading byte-order mark. The error is `Read` if the reader failed, else `Memory`.
pub fn read_config<A: Allocator + Copy, R: Read>(
    alloc: A,
    input: &mut Watched<R>,
) -> Result<Result<Config, ConfigFault>, RunFault>
    requires { failures_of input.old < 2 ^ 64 - 1 }
    ensures config { IfOk result (IsConfigRead (R.remaining (device_of input.old))) }
    ensures fault { IfErr result (IsReadFault (failures_of input.old) (failures_of input.new)) }
{
    let bytes = match read_text(alloc, input) {
        Ok(bytes) => bytes,
        Err(fault) => return Err(fault),
    };
    Ok(Config::read(alloc, without_mark(bytes.as_slice())))
}

// Reads the file at this path as a configuration.
fn read_file(rt: &HostRuntime, name: &str) -> Result<Result<Config, ConfigFault>, RunFault> {
    match fs::open(rt, name) {
        Ok(opened) => read_config(rt.alloc(), &mut Watched::new(opened)),
        Err(_) => Err(RunFault::Read),
    }
}

// Writes the fault of a configuration to standard error, and returns the exit status.
fn refused(rt: &HostRuntime, program: &str, fault: ConfigFault) -> u8
    ensures { result ≡ FAULT }
{
    let mut out = Watched::new(rt.stderr());
    let _ = say_config(program, fault, &mut out);
    FAULT
}

// Returns the configuration. If it has a fault, writes the fault to standard error and returns the
// exit status.
fn accepted(
    rt: &HostRuntime,
    program: &str,
    read: Result<Config, ConfigFault>,
) -> Result<Config, u8>
    ensures { MatchResult read (λ config. result ≡ Ok config) (λ _. result ≡ Err FAULT) }
{
    match read {
        Ok(config) => Ok(config),
        Err(fault) => Err(refused(rt, program, fault)),
    }
}

/// Returns the configuration that is asked for: the default one, the one in a text, or the one in a
/// file. Ignores one leading byte-order mark of a file, but not of a text. If there is no
/// configuration, writes the fault to standard error. Then the error is the exit status.
pub fn config_of(rt: &HostRuntime, program: &str, source: &Source) -> Result<Config, u8>
    ensures config { IsSourceAnswer source.now result }
    ensures status { IfErr result (λ status. status ≡ FAULT) }
{
    match source {
        Source::Standard => Ok(Config::standard()),
        Source::Data(text) => {
            let read = Config::read(rt.alloc(), text.as_bytes());
            accepted(rt, program, read)
        }
        Source::File(name) => match read_file(rt, name.as_str()) {
            Ok(read) => accepted(rt, program, read),
            Err(fault) => {
                let fault = ProgramFault::Run(name.as_str(), fault);
                Err(stopped(rt, program, &fault))
            }
        },
    }
}
