//! The report of a file.
ghost use Rattle.std.specs.Prelude.{◌≡◌, ◌-◌, ◌^◌, ◌<◌, IfOk, IfErr, OnOk, OnErr};
ghost use Rattle.std.specs.Io.KnownBytes.{Appends};
ghost use Rattle.yl_text.specs.Fault.{IsText};
ghost use Rattle.yl_text.specs.Lines.{lines_of};
ghost use Rattle.yl_text.specs.Watched.{device_of, failures_of};
ghost use Rattle.yl_devices.specs.Text.{without_mark};
ghost use Rattle.yl_devices.specs.Written.{AppendsFront};
ghost use Rattle.yl_report.specs.Report.{status_of};
ghost use Rattle.yl_formats.specs.Formats.{problems_text};
ghost use Rattle.yl_lint.specs.TextReport.{IsReport};
ghost use Rattle.yl_check.specs.Check.{HasNoReport};

use std::alloc::Allocator;
use std::io::Write;
use yl_config::Config;
use yl_devices::{RunFault, WriteFault, text_of};
use yl_formats::{Format, write_problems};
use yl_lint::report_of_text;
use yl_report::{Problem, status};
use yl_text::Watched;

/// How a report is printed and counted.
#[derive(Clone, Copy)]
pub struct Printing {
    /// The format of the printed problems.
    pub format: Format,
    /// Whether warnings are not printed. They count for the status all the same.
    pub no_warnings: bool,
    /// Whether a report with warnings and without errors has status 2.
    pub strict: bool,
}

/// Returns the report of the bytes of a file. Ignores one leading byte-order mark. Returns
/// `RunFault::Text` if the bytes are not a text, which is checked first, and `RunFault::Memory` if
/// memory runs out.
pub fn report_of_bytes<A: Allocator + Copy>(
    alloc: A,
    config: &Config,
    bytes: &[u8],
) -> Result<Vec<Problem<A>, A>, RunFault>
    ensures report { IfOk result (λ problems. IsReport config.now (lines_of (without_mark bytes.now)) problems.items) }
    ensures is_text { OnOk result (IsText (without_mark bytes.now)) }
    ensures fault { IfErr result (HasNoReport bytes.now) }
{
    let text = match text_of(bytes) {
        Ok(text) => text,
        Err(fault) => return Err(RunFault::Text(fault)),
    };
    match report_of_text(alloc, config, text) {
        Ok(problems) => Ok(problems),
        Err(_) => Err(RunFault::Memory),
    }
}

/// Prints the report of a file and returns its status: 1 if it has an error, else 2 if it has a
/// warning and `printing.strict` is set, else 0. Returns an error only if the writer failed. Then a
/// prefix of the report is written.
pub fn print_report<W: Write, A: Allocator>(
    name: &str,
    problems: &[Problem<A>],
    printing: Printing,
    out: &mut Watched<W>,
) -> Result<u8, WriteFault>
    requires { failures_of out.old < 2 ^ 64 - 1 }
    ensures status { IfOk result (λ code. code ≡ status_of problems.now printing.strict) }
    ensures ok { OnOk result (Appends (W.contents (device_of out.old)) (W.contents (device_of out.new))
        (problems_text printing.format name.now problems.now printing.no_warnings)) }
    ensures quiet { OnOk result (failures_of out.new ≡ failures_of out.old) }
    ensures err { OnErr result (AppendsFront (W.contents (device_of out.old)) (W.contents (device_of out.new))
        (problems_text printing.format name.now problems.now printing.no_warnings)) }
    ensures failed { OnErr result (failures_of out.old < failures_of out.new) }
{
    match write_problems(printing.format, name, problems, printing.no_warnings, out) {
        Ok(()) => Ok(status(problems, printing.strict)),
        Err(fault) => Err(fault),
    }
}
