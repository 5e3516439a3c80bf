//! `yl_lint`: the report of a text.

ghost use Rattle.std.specs.Prelude.{◌≤◌, IfOk, length};
ghost use Rattle.yl_lint.specs.TextReport.{IsReport};
ghost use Rattle.yl_text.specs.Lines.{lines_of};
ghost use Rattle.yl_text.specs.declared.TheConstants.{MAX_BYTES};

use std::alloc::{AllocError, Allocator};
use yl_config::Config;
use yl_lint::report_of_text;
use yl_report::Problem;

/// The problems of a text, in order. The only error is out of memory.
pub fn problems<A: Allocator + Copy>(
    alloc: A,
    config: &Config,
    text: &str,
) -> Result<Vec<Problem<A>, A>, AllocError>
    requires { length text.now ≤ MAX_BYTES }
    ensures { IfOk result (λ problems. IsReport config.now (lines_of text.now) problems.items) }
{
    report_of_text(alloc, config, text)
}
