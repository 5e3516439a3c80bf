//! Moves the findings in a section to their positions in the text.
ghost use Rattle.std.specs.Prelude.{◌≡◌, ◌+◌, ◌++◌, map, IfOk, OnOk};
ghost use Rattle.yl_lint.specs.TextReport.{moved};

use std::alloc::{AllocError, Allocator};
use yl_text::Finding;

/// Returns the line that is `down` lines below `line`. Returns `AllocError` if its number does not
/// fit in 32 bits. No text of at most `MAX_BYTES` bytes has such a line.
pub fn line_below(line: u32, down: u32) -> Result<u32, AllocError>
    ensures { IfOk result (λ n. n ≡ line + down) }
{
    line.checked_add(down).ok_or(AllocError)
}

/// Returns the line of the finding, moved `down` lines down. Returns `AllocError` if its number
/// does not fit in 64 bits.
fn line_of<A: Allocator>(down: u32, found: &Finding<A>) -> Result<u64, AllocError>
    ensures { IfOk result (λ n. n ≡ down + found.now.line) }
{
    u64::from(down).checked_add(found.line()).ok_or(AllocError)
}

/// Appends these findings, each moved `down` lines down. The only error is out of memory.
pub fn push_moved<A: Allocator>(
    down: u32,
    from: Vec<Finding<A>, A>,
    found: &mut Vec<Finding<A>, A>,
) -> Result<(), AllocError>
    ensures { OnOk result (found.new.items ≡ found.old.items ++ map (moved down) from.items) }
{
    for mut one in from {
        let line = line_of(down, &one)?;
        one.set_line(line);
        found.push(one)?;
    }
    Ok(())
}

/// Appends copies of these findings, each moved `down` lines down. The only error is out of memory.
pub fn push_copies<A: Allocator + Copy>(
    alloc: A,
    down: u32,
    from: &[Finding<A>],
    found: &mut Vec<Finding<A>, A>,
) -> Result<(), AllocError>
    ensures { OnOk result (found.new.items ≡ found.old.items ++ map (moved down) from.now) }
{
    for one in from {
        let line = line_of(down, one)?;
        found.push(one.copy_at(alloc, line)?)?;
    }
    Ok(())
}
