//! The fault of a text, as its report shows it.
ghost use Rattle.std.specs.Prelude.{◌≡◌, ◌<◌, ◌∷◌, [], Some, length, slice_get, IfOk};
ghost use Rattle.yl_text.specs.Store.{AreLines, end_of_lines};
ghost use Rattle.yl_sections.specs.Kept.{KeptValue};
ghost use Rattle.yl_sections.specs.Owned.{section_fault_value};
ghost use Rattle.yl_lint.specs.TextReport.{fault_in_sections};
ghost use Rattle.yl_found.specs.Found.{fault_told};
ghost use Rattle.yl_summary.specs.Overview.{IsFirstFault};
ghost use Rattle.yl_summary.specs.Survey.{IsSurvey};

use std::alloc::{AllocError, Allocator};
use yl_chunks::Spliced;
use yl_config::Config;
use yl_lint::{end_of, finding_of_fault, first_text};
use yl_report::{Problem, Silences, arrange, disables_file};
use yl_sections::{Kept, SectionFault};
use yl_summary::{Overview, Survey};
use yl_text::{Finding, Lines, Pos};

/// Returns the finding of the fault of a text. `fault` is the fault of the first section that has
/// one, and `end` is the end of the text. The only error is out of memory.
fn finding_at<A: Allocator + Copy>(
    alloc: A,
    end: Pos,
    sections: &Spliced<'_, Kept<A>, A>,
    overview: Overview,
    fault: SectionFault,
) -> Result<Finding<A>, AllocError>
    requires first { IsFirstFault sections.now overview.sound overview.row }
    requires within { overview.sound < length sections.now }
    requires fault { (k : KeptValue) → slice_get sections.now overview.sound ≡ Some k → k.fault ≡ Some (section_fault_value fault) }
    ensures { IfOk result (λ f. fault_in_sections 0 end sections.now ≡ f ∷ []) }
{
    let count = sections.len();
    let rows = sections.get(overview.sound).rows();
    let next = overview.sound + 1;
    if next < count {
        let later = [sections.get(next)];
        return finding_of_fault(alloc, overview.row, rows, end, &later, fault);
    }
    finding_of_fault(alloc, overview.row, rows, end, &[], fault)
}

/// Returns the finding of the first fault of these sections, or an empty list if none has a fault.
/// The only error is out of memory.
fn find_fault<L: Lines>(
    alloc: L::Alloc,
    lines: &L,
    sections: &Spliced<'_, Kept<L::Alloc>, L::Alloc>,
    overview: Overview,
) -> Result<Vec<Finding<L::Alloc>, L::Alloc>, AllocError>
    requires lines { AreLines (L.rows lines.now) }
    requires first { IsFirstFault sections.now overview.sound overview.row }
    ensures { IfOk result (λ v. v.items ≡ fault_in_sections 0 (end_of_lines (L.rows lines.now)) sections.now) }
{
    let mut found = Vec::new(alloc);
    if overview.sound >= sections.len() {
        return Ok(found);
    }
    let Some(fault) = sections.get(overview.sound).fault() else {
        return Ok(found);
    };
    let one = finding_at(alloc, end_of(lines), sections, overview, fault)?;
    found.push(one)?;
    Ok(found)
}

/// Returns the problem of the fault of a text with these lines, if its report shows one. The only
/// error is out of memory.
pub fn fault_of<L: Lines>(
    alloc: L::Alloc,
    config: &Config,
    lines: &L,
    survey: &Survey<'_, L::Alloc>,
) -> Result<Option<Problem<L::Alloc>>, AllocError>
    requires lines { AreLines (L.rows lines.now) }
    requires survey { IsSurvey survey.now }
    ensures { IfOk result (λ o. o ≡ fault_told config.now (L.rows lines.now) survey.now.sections) }
{
    if disables_file(first_text(lines)) {
        return Ok(None);
    }
    let found = find_fault(alloc, lines, &survey.sections, survey.all)?;
    let mut told = arrange(alloc, found, config.levels(), &Silences::none(alloc))?;
    Ok(told.pop())
}
