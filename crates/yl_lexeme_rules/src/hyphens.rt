//! The rule `hyphens`.
ghost use Rattle.std.specs.Prelude.{◌≡◌, ◌++◌, Some, OnOk};
ghost use Rattle.yl_lexeme_rules.specs.Hyphens.{hyphens};

use crate::report::report_too_many_behind;
use crate::span::Place;
use std::alloc::{AllocError, Allocator};
use yl_lexeme::Kind;
use yl_text::{Finding, RuleId};

/// The options of the rule `hyphens`.
#[derive(Clone, Copy)]
pub struct HyphensOptions {
    /// The maximum number of characters between a `-` and the next lexeme of its line. `None` is no
    /// bound.
    pub max_spaces_after: Option<u32>,
}

impl HyphensOptions {
    /// Returns the options of yamllint's default configuration.
    pub fn standard() -> HyphensOptions
        ensures { result ≡ record { max_spaces_after = Some 1 } }
    {
        HyphensOptions {
            max_spaces_after: Some(1),
        }
    }
}

/// Appends the problem that the rule finds at a lexeme, given the lexeme after it. Appends nothing
/// if the rule is off. The only error is out of memory.
pub(crate) fn push_hyphens<A: Allocator>(
    problems: &mut Vec<Finding<A>, A>,
    options: &Option<HyphensOptions>,
    place: &Place,
) -> Result<(), AllocError>
    ensures { OnOk result (problems.new.items ≡ problems.old.items
        ++ hyphens options.now place.now.here place.now.after) }
{
    let Some(options) = options else {
        return Ok(());
    };
    if !matches!(place.here.kind, Kind::Entry) {
        return Ok(());
    }
    let most = options.max_spaces_after;
    let message = "too many spaces after hyphen";
    report_too_many_behind(problems, RuleId::Hyphens, most, place, message)
}
