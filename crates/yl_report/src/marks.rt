//! The lines at which one rule is silenced.
ghost use Rattle.std.specs.Prelude.{◌≡◌, ℕ, ◌≤◌, ◌<◌, ◌==◌, OnOk, nat_le, IsTrue, if◌then◌else◌};
ghost use Rattle.std.specs.List.{list_any};
ghost use Rattle.std.specs.List.Sorted.{IsNonDecreasing, IsNonDecreasingBy};
ghost use Rattle.yl_report.specs.Switched.{is_off_at};

use std::alloc::{AllocError, Allocator};

/// The switch of a rule to off or on, from a line on. Lines count from 0.
#[derive(Clone, Copy)]
pub struct Switch {
    /// The first line for which the switch counts, from 0.
    pub line: u64,
    /// Whether the rule is off from that line on.
    pub is_off: bool,
}

/// Appends a switch, after removing those at later lines, which it overrides. Of several switches
/// at one line, the last one counts. The only error is out of memory.
pub fn push_switch<A: Allocator>(
    switches: &mut Vec<Switch, A>,
    line: u64,
    is_off: bool,
) -> Result<(), AllocError>
    requires { IsNonDecreasingBy (λ w. w.line) switches.old.items }
    ensures rising { OnOk result (IsNonDecreasingBy (λ w. w.line) switches.new.items) }
    ensures switched { OnOk result ((at : ℕ) → is_off_at switches.new.items at
        ≡ (if nat_le line at then is_off else is_off_at switches.old.items at)) }
{
    while switches.last().is_some_and(|last| last.line > line) {
        let _ = switches.pop();
    }
    switches.push(Switch { line, is_off })?;
    Ok(())
}

// Returns `true` if the last switch at or before `line` is off.
fn is_switched_off(switches: &[Switch], line: u64) -> bool
    requires { IsNonDecreasingBy (λ w. w.line) switches.now }
    ensures { result ≡ is_off_at switches.now line }
{
    let behind = switches.partition_point(|switch| switch.line <= line);
    if behind == 0 {
        return false;
    }
    switches[behind - 1].is_off
}

fn has_line(lines: &[u64], line: u64) -> bool
    requires { IsNonDecreasing lines.now }
    ensures { result ≡ list_any (λ own. own == line) lines.now }
{
    lines.binary_search(&line).is_ok()
}

/// The lines at which one rule is silenced. Lines count from 0.
#[derive(Drop)]
pub struct SilencedLines<A: Allocator> {
    // The lines at which the rule is switched off or on, in ascending order.
    pub switches: Vec<Switch, A>,
    // The single lines at which the rule is silenced, in ascending order.
    pub lines: Vec<u64, A>,
    ghost rising: { IsNonDecreasingBy (λ w. w.line) switches.items },
    ghost ordered: { IsNonDecreasing lines.items },
}

impl<A: Allocator> SilencedLines<A> {
    ghost use Rattle.std.specs.Prelude.{◌≡◌, Some};
    ghost use Rattle.yl_report.specs.Silence.{is_silenced_in};

    /// Returns `true` if the rule is silenced at `line`, counted from 0.
    pub fn is_off(&self, line: u64) -> bool
        ensures { result ≡ is_silenced_in (Some self.now) line }
    {
        is_switched_off(&self.switches, line) || has_line(&self.lines, line)
    }
}
