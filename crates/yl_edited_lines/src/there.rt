//! The findings in some lines of a text and in the sections of these lines.
ghost use Rattle.std.specs.Prelude.{◌≡◌, ◌++◌, map, IfOk, OnOk};
ghost use Rattle.yl_config.specs.Config.{options_of};
ghost use Rattle.yl_indentation.specs.Onward.{CountsEntriesOnceSeen};
ghost use Rattle.yl_lint.specs.Onward.{onward_in_section, onward_in_sections};
ghost use Rattle.yl_lint.specs.TextReport.{moved};
ghost use Rattle.yl_edited_lines.specs.There.{found_there, lines_there};
ghost use Rattle.yl_edited_lines.specs.There as spec;

use std::alloc::{AllocError, Allocator};
use yl_config::Config;
use yl_indentation::{IndentationOptions, Measure};
use yl_lint::{find_in_lines, line_below, push_moved, push_section};
use yl_sections::Kept;
use yl_text::{Finding, Lines, RuleId};

/// Whether some lines of a text are at its beginning, and whether they are at its end.
#[derive(Clone, Copy)]
pub struct Ends {
    /// Whether the lines begin the text.
    pub begins: bool,
    /// Whether the lines end the text.
    pub ends: bool,
}

/// Appends the findings in a section that begins at `line`. Its indentation is judged by the facts
/// before it, which have the measure `before`, and by its own facts. The only error is out of
/// memory.
fn push_section_onward<A: Allocator + Copy>(
    alloc: A,
    options: &IndentationOptions,
    line: u32,
    before: Measure,
    one: &Kept<A>,
    found: &mut Vec<Finding<A>, A>,
) -> Result<(), AllocError>
    requires { CountsEntriesOnceSeen before }
    ensures { OnOk result (found.new.items ≡ found.old.items ++ onward_in_section options.now line before one.now) }
{
    let upto = before.and_later(one.measure());
    push_section(alloc, options, upto, line, before, one, found)
}

/// Appends the findings in these sections, also after a fault. The first section begins at line
/// `down` of the text, and the facts before it have the measure `before`. The only error is out of
/// memory.
fn push_sections<A: Allocator + Copy>(
    alloc: A,
    options: &IndentationOptions,
    down: u32,
    before: Measure,
    kept: &[Kept<A>],
    found: &mut Vec<Finding<A>, A>,
) -> Result<(), AllocError>
    requires { CountsEntriesOnceSeen before }
    ensures { OnOk result (found.new.items ≡ found.old.items ++ onward_in_sections options.now down before kept.now) }
{
    let mut line = down;
    let mut here = before;
    for one in kept {
        push_section_onward(alloc, options, line, here, one, found)?;
        line = line_below(line, one.rows())?;
        here = here.and_later(one.measure());
    }
    Ok(())
}

/// Returns `true` if a rule judges lines with these ends. `new-lines` judges only lines that begin
/// a text, and `new-line-at-end-of-file` only lines that end one.
fn judges(ends: Ends, rule: RuleId) -> bool
    ensures { result ≡ spec.judges ends rule }
{
    match rule {
        RuleId::NewLines => ends.begins,
        RuleId::NewLineAtEndOfFile => ends.ends,
        _ => true,
    }
}

/// Returns the findings of the rules on lines in these lines of a text. The only error is out of
/// memory.
fn find_in_some_lines<L: Lines>(
    alloc: L::Alloc,
    config: &Config,
    ends: Ends,
    lines: &L,
) -> Result<Vec<Finding<L::Alloc>, L::Alloc>, AllocError>
    ensures { IfOk result (λ v. v.items ≡ lines_there (options_of config.now) ends (L.rows lines.now)) }
{
    let mut found = find_in_lines(alloc, config, lines)?;
    found.retain(|one| judges(ends, one.rule()));
    Ok(found)
}

/// Returns the findings of the rules on lines in these lines of a text, each moved `down` lines
/// down. The only error is out of memory.
fn find_in_lines_there<L: Lines>(
    alloc: L::Alloc,
    config: &Config,
    ends: Ends,
    lines: &L,
    down: u32,
) -> Result<Vec<Finding<L::Alloc>, L::Alloc>, AllocError>
    ensures { IfOk result (λ v. v.items ≡ map (moved down) (lines_there (options_of config.now) ends (L.rows lines.now))) }
{
    let in_lines = find_in_some_lines(alloc, config, ends, lines)?;
    let mut found = Vec::new(alloc);
    push_moved(down, in_lines, &mut found)?;
    Ok(found)
}

/// Returns the findings in these lines and in their sections, also after a fault. The first of the
/// lines is line `down` of the text, counted from 0, and the facts before it have the measure
/// `before`. The only error is out of memory.
pub fn find_there<L: Lines>(
    alloc: L::Alloc,
    config: &Config,
    ends: Ends,
    lines: &L,
    down: u32,
    before: Measure,
    kept: &[Kept<L::Alloc>],
) -> Result<Vec<Finding<L::Alloc>, L::Alloc>, AllocError>
    requires { CountsEntriesOnceSeen before }
    ensures { IfOk result (λ v. v.items ≡ map (moved down) (found_there (options_of config.now) ends before (L.rows lines.now) kept.now)) }
{
    let mut found = find_in_lines_there(alloc, config, ends, lines, down)?;
    let options = config.indentation_options();
    push_sections(alloc, options, down, before, kept, &mut found)?;
    Ok(found)
}
