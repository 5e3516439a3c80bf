//! Prints problems in columns.
ghost use Rattle.std.specs.Prelude.{◌≡◌, ◌-◌, ◌^◌, ◌<◌, ◌++◌, OnOk, OnErr, codes};
ghost use Rattle.std.specs.List.{flat_map};
ghost use Rattle.yl_text.specs.Watched.{device_of, failures_of};
ghost use Rattle.yl_devices.specs.Written.{AppendsFront, Passes};
ghost use Rattle.yl_formats.specs.Formats.{padded, rule_between, standard_line, syntax_mark};

use crate::rule::{mark_of, name_between};
use crate::spaces::spaces_after;
use itoa::Buffer;
use std::alloc::Allocator;
use std::io::Write;
use yl_devices::{Waiting, WriteFault, put_parts};
use yl_report::Problem;
use yl_text::{RuleId, Watched};

// Returns the pieces of a printed line.
fn parts_of<'a>(
    line: &'a str,
    column: &'a str,
    level: &'a str,
    message: &'a str,
    rule: RuleId,
) -> [&'a [u8]; 13]
    ensures { flat_map (λ part. part.now) result
        ≡ padded (padded (codes "  " ++ (line.now ++ codes ":" ++ column.now)) 12 ++ level.now) 21
        ++ message.now ++ syntax_mark rule ++ rule_between (codes "  (") rule (codes ")") ++ codes "\n" }
{
    // Each of these is borrowed for `'a`, since all pieces of an array have one type.
    let start: &'a [u8] = b"  ";
    let colon: &'a [u8] = b":";
    let end: &'a [u8] = b"\n";
    let line: &'a [u8] = line.as_bytes();
    let column: &'a [u8] = column.as_bytes();
    let level: &'a [u8] = level.as_bytes();
    let before_level: &'a [u8] = spaces_after(&[start, line, colon, column], 12);
    let before_message: &'a [u8] = spaces_after(
        &[start, line, colon, column, before_level, level],
        21,
    );
    let mark: &'a [u8] = mark_of(rule);
    let rule = name_between(b"  (", rule, b")");
    let before_rule: &'a [u8] = rule.before;
    let rule_name: &'a [u8] = rule.name;
    let after_rule: &'a [u8] = rule.after;
    [
        start,
        line,
        colon,
        column,
        before_level,
        level,
        before_message,
        message.as_bytes(),
        mark,
        before_rule,
        rule_name,
        after_rule,
        end,
    ]
}

/// Appends the line of a problem to the buffer `waiting`, and writes to `out` what does not fit.
pub(crate) fn put_line<W: Write, A: Allocator>(
    problem: &Problem<A>,
    out: &mut Watched<W>,
    waiting: &mut Waiting,
) -> Result<(), WriteFault>
    requires { failures_of out.old < 2 ^ 64 - 1 }
    ensures ok { OnOk result (Passes (W.contents (device_of out.old)) (W.contents (device_of out.new))
        waiting.old.items (standard_line problem.now) waiting.new.items) }
    ensures quiet { OnOk result (failures_of out.new ≡ failures_of out.old) }
    ensures err { OnErr result (AppendsFront (W.contents (device_of out.old)) (W.contents (device_of out.new))
        (waiting.old.items ++ standard_line problem.now)) }
    ensures failed { OnErr result (failures_of out.old < failures_of out.new) }
{
    let mut line = Buffer::new();
    let mut column = Buffer::new();
    let line = line.format(problem.line());
    let column = column.format(problem.column());
    let level = problem.level().name();
    put_parts(
        out,
        waiting,
        &parts_of(line, column, level, problem.message(), problem.rule()),
    )
}
