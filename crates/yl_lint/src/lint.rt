//! Computes the report of a text.
ghost use Rattle.std.specs.Prelude.{◌≡◌, ◌<◌, ◌≤◌, ◌-◌, ◌^◌, [], List, length, IfOk};
ghost use Rattle.std.specs.Str.{chars};
ghost use Rattle.yl_text.specs.Lines.{lines_of};
ghost use Rattle.yl_sections.specs.Kept.{KeptValue};
ghost use Rattle.yl_lint.specs.Left.{KeepsLeft, lines_left};
ghost use Rattle.yl_lint.specs.TextReport.{IsReport, report_of_kept};

use crate::assembling::report_of_kept;
use crate::kept::{SectionReader, lent};
use crate::laws::one_report;
use crate::lines::LineReader;
use std::alloc::{AllocError, Allocator};
use yl_config::Config;
use yl_lexeme::Meter;
use yl_report::Problem;
use yl_text::{Break, MAX_BYTES, cut_line};

/// Returns the report of a text whose first line is `first`, after all its lines were read. The
/// only error is out of memory.
fn report_of_read<A: Allocator + Copy>(
    alloc: A,
    config: &Config,
    first: &str,
    lines: LineReader<'_, A>,
    sections: SectionReader<'_, A>,
    meter: &mut Meter,
) -> Result<Vec<Problem<A>, A>, AllocError>
    requires count { lines.runs.count < 2 ^ 32 }
    requires last { length lines.runs.last < 2 ^ 32 }
    ensures { (all : List KeptValue) → KeepsLeft config.now sections.entry [] all
        → IfOk result (λ problems. problems.items ≡ report_of_kept config.now (lines_left lines.entry []) first.now
        (record { line = lines.entry.runs.count - 1; col = length (chars lines.entry.runs.last) }) all) }
{
    let end = lines.end();
    let found = lines.finish()?;
    let kept = sections.finish(config, meter)?;
    report_of_kept(alloc, config, found, first, end, &lent(alloc, &kept)?)
}

/// Returns the report of a text under a configuration, in order. Reads the text line by line. Keeps
/// of each line that was judged only its findings, its part in the summary of its section, and the
/// names of keys and anchors that are looked up again. The only error is out of memory.
pub fn report_of_text<A: Allocator + Copy>(
    alloc: A,
    config: &Config,
    text: &str,
) -> Result<Vec<Problem<A>, A>, AllocError>
    requires { length text.now ≤ MAX_BYTES }
    ensures { IfOk result (λ problems. IsReport config.now (lines_of text.now) problems.items) }
{
    one_report();
    let mut meter = Meter::new();
    let mut lines = LineReader::start(alloc, config);
    let mut sections = SectionReader::start(&alloc);
    let mut rest = text;
    loop {
        let next = cut_line(rest);
        lines.pass(next.line, next.end)?;
        sections.pass(config, next.line, &mut meter)?;
        if next.end == Break::No {
            let first = cut_line(text).line;
            return report_of_read(alloc, config, first, lines, sections, &mut meter);
        }
        rest = next.rest;
    }
}
