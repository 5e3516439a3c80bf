//! `yl_report`: the report of what was found, and its status.

ghost use Rattle.std.specs.Prelude.{◌≡◌, false, IfOk};
ghost use Rattle.yl_report.specs.Report.{report_of, status_of};
ghost use Rattle.yl_rules.specs.LevelOf.{level_of};

use std::alloc::{AllocError, Allocator};
use yl_report::{Silences, arrange, status};
use yl_rules::RuleLevels;
use yl_text::Finding;

/// The status of what was found, where nothing is silenced.
pub fn status_of_all<A: Allocator + Copy>(
    alloc: A,
    found: Vec<Finding<A>, A>,
    levels: &RuleLevels,
) -> Result<u8, AllocError>
    ensures { IfOk result (λ answer. answer ≡ status_of (report_of (level_of levels.now) false (λ _ _. false) found.items) false) }
{
    let problems = arrange(alloc, found, levels, &Silences::none(alloc))?;
    Ok(status(&problems, false))
}
