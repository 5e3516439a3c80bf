//! Appends findings to lists.
ghost use Rattle.std.specs.Prelude.{◌≡◌, ◌+◌, ◌<◌, ◌≤◌, ◌++◌, OnOk, OnErr, vec_len};
ghost use Rattle.std.specs.Option.{option_to_list};
ghost use Rattle.std.specs.Vec.{vec_capacity};

use std::alloc::{AllocError, Allocator};
use yl_text::Finding;

/// Appends a finding, if there is one. The list has capacity for it.
fn push_reserved<A: Allocator>(found: &mut Vec<Finding<A>, A>, more: Option<Finding<A>>)
    requires { vec_len found.old < vec_capacity found.old }
    ensures items { found.new.items ≡ found.old.items ++ option_to_list more }
    ensures room { vec_capacity found.new ≡ vec_capacity found.old }
    ensures len { vec_len found.new ≤ vec_len found.old + 1 }
{
    if let Some(one) = more {
        found.push_reserved(one);
    }
}

/// Appends two findings, as far as there are any. The only error is out of memory: then nothing is
/// appended.
pub(crate) fn push_both<A: Allocator>(
    found: &mut Vec<Finding<A>, A>,
    first: Option<Finding<A>>,
    second: Option<Finding<A>>,
) -> Result<(), AllocError>
    ensures ok { OnOk result (found.new.items ≡ found.old.items ++ (option_to_list first ++ option_to_list second)) }
    ensures err { OnErr result (found.new.items ≡ found.old.items) }
{
    if first.is_none() && second.is_none() {
        return Ok(());
    }
    found.reserve(2)?;
    push_reserved(found, first);
    push_reserved(found, second);
    Ok(())
}

/// Appends a finding, if there is one. The only error is out of memory: then nothing is appended.
pub(crate) fn push_found<A: Allocator>(
    found: &mut Vec<Finding<A>, A>,
    more: Option<Finding<A>>,
) -> Result<(), AllocError>
    ensures ok { OnOk result (found.new.items ≡ found.old.items ++ option_to_list more) }
    ensures err { OnErr result (found.new.items ≡ found.old.items) }
{
    if let Some(one) = more {
        found.push(one)?;
    }
    Ok(())
}
