//! Turns the fault of a text into a problem.
ghost use Rattle.std.specs.Prelude.{◌≡◌, ◌+◌, ◌++◌, ◌∷◌, [], codes, map, IfOk, OnOk};
ghost use Rattle.yl_lint.specs.TextReport.{syntax_finding, place_after, finding_of_fault, fault_in_sections};
ghost use Rattle.yl_sections.specs.Owned.{section_fault_value};

use crate::moving::line_below;
use std::alloc::{AllocError, Allocator};
use yl_sections::{Kept, SectionFault};
use yl_text::{Finding, Pos, RuleId};

/// Returns the finding of a fault at this position. The only error is out of memory.
fn syntax_finding<A: Allocator + Copy>(
    alloc: A,
    place: Pos,
    text: &str,
) -> Result<Finding<A>, AllocError>
    ensures { IfOk result (λ f. f ≡ syntax_finding place text.now) }
{
    let message = format!(in alloc; "syntax error: {text}")?;
    let line = u64::from(place.line) + 1;
    let column = u64::from(place.col) + 1;
    Ok(Finding::new(line, column, RuleId::Syntax, message))
}

/// Returns the position after a section: that of the first lexeme of the next section, which begins
/// at `line`, or the end of the text if no section follows.
fn place_after<A: Allocator>(line: u32, end: Pos, later: &[&Kept<A>]) -> Pos
    ensures { result ≡ place_after line end (map (λ k. k.now) later.now) }
{
    match later {
        [] => end,
        [next, ..] => Pos {
            line,
            col: next.first(),
        },
    }
}

/// Returns the finding of the fault of a section of `rows` rows that begins at `line`. `later`
/// holds the sections after it, and `end` is the end of the text. The only error is out of memory.
pub fn finding_of_fault<A: Allocator + Copy>(
    alloc: A,
    line: u32,
    rows: u32,
    end: Pos,
    later: &[&Kept<A>],
    fault: SectionFault,
) -> Result<Finding<A>, AllocError>
    ensures { IfOk result (λ f. f ≡ finding_of_fault line rows end (map (λ k. k.now) later.now) (section_fault_value fault)) }
{
    match fault {
        SectionFault::Here(place, text) => {
            let place = Pos {
                line: line_below(line, place.line)?,
                col: place.col,
            };
            syntax_finding(alloc, place, text)
        }
        SectionFault::Behind(text) => {
            let place = place_after(line_below(line, rows)?, end, later);
            syntax_finding(alloc, place, text)
        }
    }
}

/// Appends the finding of the first fault of a text, if a section has one. `end` is the end of the
/// text. The only error is out of memory.
pub fn push_fault<A: Allocator + Copy>(
    alloc: A,
    end: Pos,
    kept: &[&Kept<A>],
    found: &mut Vec<Finding<A>, A>,
) -> Result<(), AllocError>
    ensures { OnOk result (found.new.items ≡ found.old.items ++ fault_in_sections 0 end (map (λ k. k.now) kept.now)) }
{
    let mut line = 0;
    let mut later = kept;
    while let [one, rest @ ..] = later {
        let rows = one.rows();
        if let Some(fault) = one.fault() {
            found.push(finding_of_fault(alloc, line, rows, end, rest, fault)?)?;
            return Ok(());
        }
        line = line_below(line, rows)?;
        later = rest;
    }
    Ok(())
}
