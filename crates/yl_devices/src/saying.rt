//! The line of a fault.
ghost use Rattle.std.specs.Prelude.{◌≡◌, ◌-◌, ◌^◌, ◌<◌, ◌++◌, codes, OnOk, OnErr};
ghost use Rattle.std.specs.List.{flat_map};
ghost use Rattle.std.specs.Io.KnownBytes.{Appends};
ghost use Rattle.yl_text.specs.Watched.{device_of, failures_of};
ghost use Rattle.yl_devices.specs.Written.{AppendsFront};
ghost use Rattle.yl_devices.specs.Fault.{fault_line, line_with, run_words};

use crate::fault::{BadText, ProgramFault, RunFault};
use crate::writing::{WriteFault, write_parts};
use itoa::Buffer;
use std::io::Write;
use yl_text::Watched;

// The pieces of a line that names no place.
fn parts_of<'a>(program: &'a str, file: &'a str, what: &'a str) -> [&'a [u8]; 5]
    ensures { flat_map (λ part. part.now) result
        ≡ program.now ++ codes ": " ++ (file.now ++ what.now) ++ codes "\n" }
{
    // Each of these is lent for as long as the other pieces, which an array of them asks.
    let colon: &'a [u8] = b": ";
    let end: &'a [u8] = b"\n";
    [
        program.as_bytes(),
        colon,
        file.as_bytes(),
        what.as_bytes(),
        end,
    ]
}

// The pieces of the line of a file that is not UTF-8 from this byte on.
fn placed_parts_of<'a>(program: &'a str, file: &'a str, place: &'a str) -> [&'a [u8]; 6]
    ensures { flat_map (λ part. part.now) result
        ≡ program.now ++ codes ": " ++ (file.now ++ codes ": not UTF-8 at byte " ++ place.now) ++ codes "\n" }
{
    let colon: &'a [u8] = b": ";
    let what: &'a [u8] = b": not UTF-8 at byte ";
    let end: &'a [u8] = b"\n";
    [
        program.as_bytes(),
        colon,
        file.as_bytes(),
        what,
        place.as_bytes(),
        end,
    ]
}

// Writes a line that names no place.
fn write_line<W: Write>(
    program: &str,
    file: &str,
    what: &str,
    out: &mut Watched<W>,
) -> Result<(), WriteFault>
    requires { failures_of out.old < 2 ^ 64 - 1 }
    ensures ok { OnOk result (Appends (W.contents (device_of out.old)) (W.contents (device_of out.new))
        (line_with program.now (file.now ++ what.now))) }
    ensures quiet { OnOk result (failures_of out.new ≡ failures_of out.old) }
    ensures err { OnErr result (AppendsFront (W.contents (device_of out.old)) (W.contents (device_of out.new))
        (line_with program.now (file.now ++ what.now))) }
    ensures failed { OnErr result (failures_of out.old < failures_of out.new) }
{
    write_parts(out, &parts_of(program, file, what))
}

// Writes the line of a run that ended early.
fn say_of_run<W: Write>(
    name: &str,
    file: &str,
    fault: RunFault,
    out: &mut Watched<W>,
) -> Result<(), WriteFault>
    requires { failures_of out.old < 2 ^ 64 - 1 }
    ensures ok { OnOk result (Appends (W.contents (device_of out.old)) (W.contents (device_of out.new))
        (line_with name.now (run_words file.now fault))) }
    ensures quiet { OnOk result (failures_of out.new ≡ failures_of out.old) }
    ensures err { OnErr result (AppendsFront (W.contents (device_of out.old)) (W.contents (device_of out.new))
        (line_with name.now (run_words file.now fault))) }
    ensures failed { OnErr result (failures_of out.old < failures_of out.new) }
{
    match fault {
        RunFault::Read => write_line(name, file, ": cannot be read", out),
        RunFault::Text(bad) => match bad {
            BadText::NotUtf8 { valid_up_to } => {
                let mut buffer = Buffer::new();
                let place = buffer.format(valid_up_to);
                write_parts(out, &placed_parts_of(name, file, place))
            }
            BadText::TooLarge => write_line(name, file, ": too large", out),
        },
        RunFault::Write => write_line(name, "", "output cannot be written", out),
        RunFault::Command => write_line(name, "", "bad command", out),
        RunFault::Memory => write_line(name, "", "out of memory", out),
    }
}

/// Writes the line of a fault, as it goes to standard error, and takes no memory. The line begins
/// with the program's name. On a fault of the writer a beginning of the line is out.
pub fn say<W: Write>(
    name: &str,
    fault: &ProgramFault<'_>,
    out: &mut Watched<W>,
) -> Result<(), WriteFault>
    requires { failures_of out.old < 2 ^ 64 - 1 }
    ensures ok { OnOk result (Appends (W.contents (device_of out.old)) (W.contents (device_of out.new))
        (fault_line name.now fault.now)) }
    ensures quiet { OnOk result (failures_of out.new ≡ failures_of out.old) }
    ensures err { OnErr result (AppendsFront (W.contents (device_of out.old)) (W.contents (device_of out.new))
        (fault_line name.now fault.now)) }
    ensures failed { OnErr result (failures_of out.old < failures_of out.new) }
{
    match *fault {
        ProgramFault::Use => write_line(name, "", "fault of use", out),
        ProgramFault::Memory => write_line(name, "", "out of memory", out),
        ProgramFault::Run(file, fault) => say_of_run(name, file, fault, out),
    }
}
