//! How programs end.
ghost use Rattle.std.specs.Prelude.{◌≡◌};

use crate::answer::Stop;
use yl_devices::{ProgramFault, RunFault, say};
use yl_text::Watched;

/// The exit status of a program that a fault ended.
pub const FAULT: u8 = 255;

/// Writes a fault to standard error and returns the exit status, `FAULT`.
pub fn stopped(rt: &HostRuntime, program: &str, fault: &ProgramFault<'_>) -> u8
    ensures { result ≡ FAULT }
{
    let mut out = Watched::new(rt.stderr());
    let _ = say(program, fault, &mut out);
    FAULT
}

/// Ends a program whose arguments ask for no run. Prints the help if it is asked for, else writes
/// the fault. Returns the exit status.
pub fn ended(rt: &HostRuntime, program: &str, stop: Stop) -> u8 {
    match stop {
        Stop::Help(text) => match rt.print(text) {
            Ok(()) => 0,
            Err(_) => stopped(rt, program, &ProgramFault::Run("help", RunFault::Write)),
        },
        Stop::Use => stopped(rt, program, &ProgramFault::Use),
        Stop::Memory => stopped(rt, program, &ProgramFault::Memory),
    }
}
