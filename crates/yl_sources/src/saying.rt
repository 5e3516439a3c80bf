//! Writes the line of a fault in a configuration.
ghost use Rattle.std.specs.Prelude.{◌≡◌, ◌-◌, ◌^◌, ◌<◌, ◌++◌, codes, OnOk, OnErr, Some};
ghost use Rattle.std.specs.List.{flat_map};
ghost use Rattle.std.specs.Io.KnownBytes.{Appends};
ghost use Rattle.yl_text.specs.Watched.{device_of, failures_of};
ghost use Rattle.yl_devices.specs.Fault.{line_with};
ghost use Rattle.yl_devices.specs.Written.{AppendsFront};
ghost use Rattle.yl_sources.specs.Fault.{config_line, place_words};

use itoa::Buffer;
use std::io::Write;
use yl_config::{ConfigFault, FaultPlace};
use yl_devices::{WriteFault, write_parts};
use yl_text::Watched;

// Returns the pieces of the line of a fault without a position.
fn parts_of<'a>(program: &'a str, fault: &'a str) -> [&'a [u8]; 4]
    ensures { flat_map (λ part. part.now) result
        ≡ program.now ++ codes ": " ++ (codes "configuration: " ++ fault.now) ++ codes "\n" }
{
    // Each of these is borrowed for `'a`, since all pieces of an array have one type.
    let start: &'a [u8] = b": configuration: ";
    let end: &'a [u8] = b"\n";
    [program.as_bytes(), start, fault.as_bytes(), end]
}

// Returns the pieces of the line of a fault with a position.
fn placed_parts_of<'a>(
    program: &'a str,
    fault: &'a str,
    line: &'a str,
    column: &'a str,
) -> [&'a [u8]; 8]
    ensures { flat_map (λ part. part.now) result
        ≡ program.now ++ codes ": " ++ (codes "configuration: " ++ (fault.now ++ (codes " at " ++ (line.now ++ (codes ":" ++ column.now))))) ++ codes "\n" }
{
    let start: &'a [u8] = b": configuration: ";
    let at: &'a [u8] = b" at ";
    let colon: &'a [u8] = b":";
    let end: &'a [u8] = b"\n";
    [
        program.as_bytes(),
        start,
        fault.as_bytes(),
        at,
        line.as_bytes(),
        colon,
        column.as_bytes(),
        end,
    ]
}

// Writes the line of a fault with its position.
fn say_place<W: Write>(
    program: &str,
    fault: &str,
    place: FaultPlace,
    out: &mut Watched<W>,
) -> Result<(), WriteFault>
    requires { failures_of out.old < 2 ^ 64 - 1 }
    ensures ok { OnOk result (Appends (W.contents (device_of out.old)) (W.contents (device_of out.new))
        (line_with program.now (codes "configuration: " ++ (fault.now ++ place_words (Some place))))) }
    ensures quiet { OnOk result (failures_of out.new ≡ failures_of out.old) }
    ensures err { OnErr result (AppendsFront (W.contents (device_of out.old)) (W.contents (device_of out.new))
        (line_with program.now (codes "configuration: " ++ (fault.now ++ place_words (Some place))))) }
    ensures failed { OnErr result (failures_of out.old < failures_of out.new) }
{
    let mut line = Buffer::new();
    let mut column = Buffer::new();
    let line = line.format(place.line);
    let column = column.format(place.column);
    write_parts(out, &placed_parts_of(program, fault, line, column))
}

/// Writes the line of a fault in a configuration, as it goes to standard error. The line starts
/// with the name of the program. Does not allocate. Returns an error only if the writer failed.
/// Then a prefix of the line is written.
pub fn say_config<W: Write>(
    program: &str,
    fault: ConfigFault,
    out: &mut Watched<W>,
) -> Result<(), WriteFault>
    requires { failures_of out.old < 2 ^ 64 - 1 }
    ensures ok { OnOk result (Appends (W.contents (device_of out.old)) (W.contents (device_of out.new))
        (config_line program.now fault)) }
    ensures quiet { OnOk result (failures_of out.new ≡ failures_of out.old) }
    ensures err { OnErr result (AppendsFront (W.contents (device_of out.old)) (W.contents (device_of out.new))
        (config_line program.now fault)) }
    ensures failed { OnErr result (failures_of out.old < failures_of out.new) }
{
    match fault.place() {
        Some(place) => say_place(program, fault.name(), place, out),
        None => write_parts(out, &parts_of(program, fault.name())),
    }
}
