//! Lints a file: from its bytes to printed lines and a status.
ghost use Rattle.std.specs.Prelude.{◌≡◌, ◌-◌, ◌^◌, ◌<◌, IfOk, IfErr, IfSome, OnOk};
ghost use Rattle.yl_text.specs.Fault.{IsText};
ghost use Rattle.yl_text.specs.Watched.{device_of, failures_of};
ghost use Rattle.yl_devices.specs.Text.{without_mark, TakesAtMost};
ghost use Rattle.yl_check.specs.Run.{IsLintBegun, IsLinted, IsLintFault, IsReportFault};

use crate::report::report_of_bytes;
use std::alloc::Allocator;
use std::io::{Read, Write};
use yl_config::Config;
use yl_devices::{MOST_READ, RunFault, read_text};
use yl_programs::Flags;
use yl_report::{status, write_report};
use yl_text::Watched;

/// Writes the report of the bytes of a file and returns its status: 1 if it has an error, else 2 if
/// it has a warning and `strict` is set, else 0. Ignores one leading byte-order mark. The printed
/// lines start with `name`.
///
/// Returns `Text` if the bytes are not a text, which is checked first. Returns `Write` if the
/// writer failed. Then a prefix of the report is written. Returns `Memory` if memory runs out.
pub fn lint_bytes<A: Allocator + Copy, W: Write>(
    alloc: A,
    name: &str,
    config: &Config,
    flags: Flags,
    bytes: &[u8],
    out: &mut Watched<W>,
) -> Result<u8, RunFault>
    requires { failures_of out.old < 2 ^ 64 - 1 }
    ensures linted { IfOk result (λ code. IsLinted config.now name.now flags bytes.now (W.contents (device_of out.old)) (W.contents (device_of out.new)) code) }
    ensures is_text { OnOk result (IsText (without_mark bytes.now)) }
    ensures quiet { OnOk result (failures_of out.new ≡ failures_of out.old) }
    ensures fault { IfErr result (IsReportFault bytes.now (IsLintBegun config.now name.now flags bytes.now (W.contents (device_of out.old)) (W.contents (device_of out.new)))
        (failures_of out.old) (failures_of out.new) (W.contents (device_of out.old)) (W.contents (device_of out.new))) }
{
    let problems = match report_of_bytes(alloc, config, bytes) {
        Ok(problems) => problems,
        Err(fault) => return Err(fault),
    };
    match write_report(name, problems.as_slice(), flags.no_warnings, out) {
        Ok(()) => Ok(status(problems.as_slice(), flags.strict)),
        Err(_) => Err(RunFault::Write),
    }
}

/// Reads a text to its end, or until it is too large, and lints it as `lint_bytes` does. Returns
/// `Read` if the reader failed. The other errors are those of `lint_bytes`. After an error nothing
/// is written, unless the writer failed.
pub fn lint<A: Allocator + Copy, R: Read, W: Write>(
    alloc: A,
    name: &str,
    config: &Config,
    flags: Flags,
    input: &mut Watched<R>,
    out: &mut Watched<W>,
) -> Result<u8, RunFault>
    requires reader { failures_of input.old < 2 ^ 64 - 1 }
    requires writer { failures_of out.old < 2 ^ 64 - 1 }
    ensures linted { IfOk result (λ code. IfSome (R.remaining (device_of input.old)) (λ bytes.
        IsLinted config.now name.now flags bytes (W.contents (device_of out.old)) (W.contents (device_of out.new)) code)) }
    ensures is_text { OnOk result (IfSome (R.remaining (device_of input.old)) (λ bytes. IsText (without_mark bytes))) }
    ensures read { TakesAtMost MOST_READ (R.remaining (device_of input.old)) (R.remaining (device_of input.new)) }
    ensures reader_quiet { OnOk result (failures_of input.new ≡ failures_of input.old) }
    ensures writer_quiet { OnOk result (failures_of out.new ≡ failures_of out.old) }
    ensures fault { IfErr result (IsLintFault
        (λ bytes. IsLintBegun config.now name.now flags bytes (W.contents (device_of out.old)) (W.contents (device_of out.new))) (record {
          reads_before = failures_of input.old;
          reads_after = failures_of input.new;
          writes_before = failures_of out.old;
          writes_after = failures_of out.new;
        })
        (record {
          given = R.remaining (device_of input.old);
          left = R.remaining (device_of input.new);
          before = W.contents (device_of out.old);
          now = W.contents (device_of out.new);
        })) }
{
    let bytes = match read_text(alloc, input) {
        Ok(bytes) => bytes,
        Err(fault) => return Err(fault),
    };
    lint_bytes(alloc, name, config, flags, bytes.as_slice(), out)
}
