ghost use Rattle.std.specs.Prelude.{◌≡◌, ◌-◌, ◌^◌, ◌<◌, ◌++◌, ◌&&◌, not, [], if◌then◌else◌, OnOk, OnErr, codes};
ghost use Rattle.std.specs.List.{flat_map};
ghost use Rattle.std.specs.Io.KnownBytes.{Appends};
ghost use Rattle.yl_text.specs.Watched.{device_of, failures_of};
ghost use Rattle.yl_devices.specs.Written.{AppendsFront, Passes};
ghost use Rattle.yl_report.specs.Report.{is_error, printed_line, report_text};

use crate::problem::Problem;
use itoa::Buffer;
use std::alloc::Allocator;
use std::io::Write;
use yl_devices::{Waiting, WriteFault, flush, put_parts};
use yl_text::Watched;

// Returns the pieces of a printed line.
fn parts_of<'a>(
    name: &'a str,
    line: &'a str,
    column: &'a str,
    level: &'a str,
    message: &'a str,
    rule: &'a str,
) -> [&'a [u8]; 12]
    ensures { flat_map (λ part. part.now) result
        ≡ name.now ++ codes ":" ++ line.now ++ codes ":" ++ column.now ++ codes ": [" ++ level.now
        ++ codes "] " ++ message.now ++ codes " (" ++ rule.now ++ codes ")\n" }
{
    // Each of these is borrowed for `'a`, since all pieces of an array have one type.
    let colon: &'a [u8] = b":";
    let opened: &'a [u8] = b": [";
    let closed: &'a [u8] = b"] ";
    let before_rule: &'a [u8] = b" (";
    let end: &'a [u8] = b")\n";
    [
        name.as_bytes(),
        colon,
        line.as_bytes(),
        colon,
        column.as_bytes(),
        opened,
        level.as_bytes(),
        closed,
        message.as_bytes(),
        before_rule,
        rule.as_bytes(),
        end,
    ]
}

// Appends the printed line of a problem to the buffer `waiting`, and writes to `out` what does not
// fit.
fn put_line<W: Write, A: Allocator>(
    name: &str,
    problem: &Problem<A>,
    out: &mut Watched<W>,
    waiting: &mut Waiting,
) -> Result<(), WriteFault>
    requires { failures_of out.old < 2 ^ 64 - 1 }
    ensures ok { OnOk result (Passes (W.contents (device_of out.old)) (W.contents (device_of out.new))
        waiting.old.items (printed_line name.now problem.now) waiting.new.items) }
    ensures quiet { OnOk result (failures_of out.new ≡ failures_of out.old) }
    ensures err { OnErr result (AppendsFront (W.contents (device_of out.old)) (W.contents (device_of out.new))
        (waiting.old.items ++ printed_line name.now problem.now)) }
    ensures failed { OnErr result (failures_of out.old < failures_of out.new) }
{
    let mut line = Buffer::new();
    let mut column = Buffer::new();
    let line = line.format(problem.line());
    let column = column.format(problem.column());
    let level = problem.level().name();
    let rule = problem.rule().name();
    put_parts(
        out,
        waiting,
        &parts_of(name, line, column, level, problem.message(), rule),
    )
}

// Appends the printed line of a problem to the buffer `waiting`, unless the problem is a warning
// and `no_warnings` is set.
fn put_problem<W: Write, A: Allocator>(
    name: &str,
    problem: &Problem<A>,
    no_warnings: bool,
    out: &mut Watched<W>,
    waiting: &mut Waiting,
) -> Result<(), WriteFault>
    requires { failures_of out.old < 2 ^ 64 - 1 }
    ensures ok { OnOk result (Passes (W.contents (device_of out.old)) (W.contents (device_of out.new))
        waiting.old.items (if no_warnings && not (is_error (problem.now).level) then [] else printed_line name.now problem.now) waiting.new.items) }
    ensures quiet { OnOk result (failures_of out.new ≡ failures_of out.old) }
    ensures err { OnErr result (AppendsFront (W.contents (device_of out.old)) (W.contents (device_of out.new))
        (waiting.old.items ++ (if no_warnings && not (is_error (problem.now).level) then [] else printed_line name.now problem.now))) }
    ensures failed { OnErr result (failures_of out.old < failures_of out.new) }
{
    let is_hidden = no_warnings && !problem.is_error();
    if is_hidden {
        Ok(())
    } else {
        put_line(name, problem, out, waiting)
    }
}

// Appends the printed lines of the problems to the buffer `waiting`, without those of warnings if
// `no_warnings` is set.
fn put_problems<W: Write, A: Allocator>(
    name: &str,
    problems: &[Problem<A>],
    no_warnings: bool,
    out: &mut Watched<W>,
    waiting: &mut Waiting,
) -> Result<(), WriteFault>
    requires { failures_of out.old < 2 ^ 64 - 1 }
    ensures ok { OnOk result (Passes (W.contents (device_of out.old)) (W.contents (device_of out.new))
        waiting.old.items (report_text name.now problems.now no_warnings) waiting.new.items) }
    ensures quiet { OnOk result (failures_of out.new ≡ failures_of out.old) }
    ensures err { OnErr result (AppendsFront (W.contents (device_of out.old)) (W.contents (device_of out.new))
        (waiting.old.items ++ report_text name.now problems.now no_warnings)) }
    ensures failed { OnErr result (failures_of out.old < failures_of out.new) }
{
    for problem in problems {
        put_problem(name, problem, no_warnings, out, waiting)?;
    }
    Ok(())
}

/// Writes the printed lines of the problems, without those of warnings if `no_warnings` is set.
/// Writes through a buffer of 4,096 bytes, and does not allocate. Returns an error only if the
/// writer failed. Then a prefix of the lines is written.
pub fn write_report<W: Write, A: Allocator>(
    name: &str,
    problems: &[Problem<A>],
    no_warnings: bool,
    out: &mut Watched<W>,
) -> Result<(), WriteFault>
    requires { failures_of out.old < 2 ^ 64 - 1 }
    ensures ok { OnOk result (Appends (W.contents (device_of out.old)) (W.contents (device_of out.new))
        (report_text name.now problems.now no_warnings)) }
    ensures quiet { OnOk result (failures_of out.new ≡ failures_of out.old) }
    ensures err { OnErr result (AppendsFront (W.contents (device_of out.old)) (W.contents (device_of out.new))
        (report_text name.now problems.now no_warnings)) }
    ensures failed { OnErr result (failures_of out.old < failures_of out.new) }
{
    let mut waiting = Waiting::new();
    put_problems(name, problems, no_warnings, out, &mut waiting)?;
    flush(out, &mut waiting)
}
