//! Writes the problems of a file.
ghost use Rattle.std.specs.Prelude.{◌≡◌, ◌-◌, ◌^◌, ◌<◌, OnOk, OnErr};
ghost use Rattle.std.specs.Io.KnownBytes.{Appends};
ghost use Rattle.yl_text.specs.Watched.{device_of, failures_of};
ghost use Rattle.yl_devices.specs.Written.{AppendsFront};
ghost use Rattle.yl_formats.specs.Formats.{problems_text};

use crate::format::{Format, Listing};
use crate::listing::write_listing;
use std::alloc::Allocator;
use std::io::Write;
use yl_devices::WriteFault;
use yl_report::{Problem, write_report};
use yl_text::Watched;

/// Writes the problems of a file in a format, without the warnings if `no_warnings` is set. `name`
/// is the name of the file. Writes nothing if no problem is printed. Writes through a buffer of
/// 4,096 bytes, and does not allocate. Returns an error only if the writer failed. Then a prefix of
/// the text is written.
pub fn write_problems<W: Write, A: Allocator>(
    format: Format,
    name: &str,
    problems: &[Problem<A>],
    no_warnings: bool,
    out: &mut Watched<W>,
) -> Result<(), WriteFault>
    requires { failures_of out.old < 2 ^ 64 - 1 }
    ensures ok { OnOk result (Appends (W.contents (device_of out.old)) (W.contents (device_of out.new))
        (problems_text format name.now problems.now no_warnings)) }
    ensures quiet { OnOk result (failures_of out.new ≡ failures_of out.old) }
    ensures err { OnErr result (AppendsFront (W.contents (device_of out.old)) (W.contents (device_of out.new))
        (problems_text format name.now problems.now no_warnings)) }
    ensures failed { OnErr result (failures_of out.old < failures_of out.new) }
{
    match format {
        Format::Parsable => write_report(name, problems, no_warnings, out),
        Format::Standard => write_listing(Listing::Standard, name, problems, no_warnings, out),
        Format::Colored => write_listing(Listing::Colored, name, problems, no_warnings, out),
        Format::Github => write_listing(Listing::Github, name, problems, no_warnings, out),
    }
}
