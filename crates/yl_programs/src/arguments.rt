//! The arguments of a program.
ghost use Rattle.std.specs.IoError.{error_kind};
ghost use Rattle.std.specs.Prelude.{◌≡◌, ◌≢◌};

use std::io::ErrorKind;
use std::{env, io};
use yl_devices::ProgramFault;

// Returns the fault to report if the system did not give the arguments: `Memory` if memory ran out,
// else `Use`.
fn fault_of(error: &io::Error) -> ProgramFault<'static>
    ensures memory { error_kind error.now ≡ ErrorKind.OutOfMemory → result ≡ ProgramFault.Memory }
    ensures words { error_kind error.now ≢ ErrorKind.OutOfMemory → result ≡ ProgramFault.Use }
{
    match error.kind() {
        ErrorKind::OutOfMemory => ProgramFault::Memory,
        _ => ProgramFault::Use,
    }
}

/// Returns the arguments after the name of the program. Returns `Memory` if memory runs out, and
/// `Use` if an argument is not UTF-8.
pub fn words(rt: &HostRuntime) -> Result<Vec<String>, ProgramFault<'static>> {
    let all = match env::args(rt) {
        Ok(all) => all,
        Err(error) => return Err(fault_of(&error)),
    };
    let mut words = Vec::new(rt.alloc());
    for word in all.skip(1) {
        if words.push(word).is_err() {
            return Err(ProgramFault::Memory);
        }
    }
    Ok(words)
}
