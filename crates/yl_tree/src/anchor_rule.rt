//! The rule anchors.
ghost use Rattle.std.specs.Prelude.{◌≡◌, ◌&&◌, ◌||◌, ◌++◌, not, ℕ, Bool, List, [], ◌∷◌, map, reverse, drop, codes, if◌then◌else◌, Some, IfOk, OnOk};
ghost use Rattle.std.specs.Option.{option_to_list};
ghost use Rattle.yl_events.specs.Event.{EventValue, event_value, kind_value, anchor_value};
ghost use Rattle.yl_tree.specs.Anchors.{is_anchor_of, is_alias_of, is_declared, is_used, undeclared_alias, anchor_findings, anchors_at, anchors};
ghost use Rattle.yl_tree.specs.Messages.{name_finding};
ghost use Rattle.yl_tree.specs.NameSets.{has_name};
ghost use Rattle.std.specs.List.{list_any};
ghost use Rattle.yl_tree.specs.References.{is_reference};
ghost use Rattle.yl_tree.specs.Unused.{unused_flags, unused_if};
ghost use Rattle.yl_tree.specs.Unused as spec;

use crate::messages::{name_problem, push_found};
use crate::name_set::{NameSet, has_name, insert_name, remove_name};
use crate::options::AnchorsOptions;
use indexmap::IndexSet;
use std::alloc::{AllocError, Allocator};
use yl_events::{Event, EventAnchor, EventKind};
use yl_text::{Finding, RuleId};

/// Returns whether the event has an anchor whose name is not among the names that are used.
fn is_unused<A: Allocator>(event: &Event<'_>, used: &NameSet<'_, A>) -> bool
    ensures { (after : List EventValue) → ((q : List ℕ) → has_name used.now q ≡ is_used after q)
        → result ≡ spec.is_unused (event_value event.now).anchor after }
{
    match event.anchor() {
        None => false,
        Some(anchor) => !has_name(used, anchor.name),
    }
}

/// Updates the names that are used after an event to those that are used from the event on. The
/// only error is out of memory.
fn use_event<'a, A: Allocator + Copy>(
    event: &Event<'a>,
    used: &mut NameSet<'a, A>,
) -> Result<(), AllocError>
    ensures { OnOk result ((q : List ℕ) → has_name used.new q
        ≡ not (is_anchor_of q (event_value event.now).anchor)
        && (is_alias_of q (event_value event.now).kind || has_name used.old q)) }
{
    if let EventKind::Alias(name) = event.kind {
        insert_name(used, name)?;
    }
    if let Some(anchor) = event.anchor() {
        remove_name(used, anchor.name);
    }
    Ok(())
}

/// Returns for each event whether it has an anchor that is not used. The last event is first. The
/// only error is out of memory.
fn unused_flags<'a, A: Allocator + Copy>(
    alloc: A,
    events: &[Event<'a>],
) -> Result<Vec<bool, A>, AllocError>
    ensures { IfOk result (λ v. v.items ≡ reverse (unused_flags (map event_value events.now))) }
{
    let mut flags = Vec::new(alloc);
    let mut used = IndexSet::new(alloc);
    for i in (0..events.len()).rev() {
        let event = &events[i];
        flags.push(is_unused(event, &used))?;
        use_event(event, &mut used)?;
    }
    Ok(flags)
}

/// Removes the last flag and returns it.
fn next_flag<A: Allocator>(flags: &mut Vec<bool, A>) -> bool
    ensures { (flag : Bool) (later : List Bool) → flags.old.items ≡ reverse (flag ∷ later)
        → (result ≡ flag) × (flags.new.items ≡ reverse later) }
{
    flags.pop().unwrap_or(false)
}

/// Adds the name of the event's anchor, if it has one. The only error is out of memory.
fn declare<'a, A: Allocator + Copy>(
    event: &Event<'a>,
    declared: &mut NameSet<'a, A>,
) -> Result<(), AllocError>
    ensures { OnOk result ((q : List ℕ) → has_name declared.new q
        ≡ is_anchor_of q (event_value event.now).anchor || has_name declared.old q) }
{
    if let Some(anchor) = event.anchor() {
        insert_name(declared, anchor.name)?;
    }
    Ok(())
}

/// Returns the finding at an alias of whose name no anchor comes before, if it is forbidden. The
/// only error is out of memory.
fn undeclared_alias<A: Allocator>(
    alloc: A,
    event: &Event<'_>,
    options: &AnchorsOptions,
    declared: &NameSet<'_, A>,
) -> Result<Option<Finding<A>>, AllocError>
    ensures { (before : List EventValue) → ((q : List ℕ)
        → has_name declared.now q ≡ is_declared before q)
        → IfOk result (λ o. option_to_list o
        ≡ undeclared_alias options.now before
        (event_value event.now) (event_value event.now).kind) }
{
    let EventKind::Alias(name) = event.kind else {
        return Ok(None);
    };
    if !options.forbid_undeclared_aliases || has_name(declared, name) {
        return Ok(None);
    }
    name_problem(
        alloc,
        RuleId::Anchors,
        event.place,
        "found undeclared alias \"",
        name,
        "\"",
    )
}

/// Returns the finding at an anchor whose name an earlier anchor has, if it is forbidden. The only
/// error is out of memory.
fn duplicated_anchor<A: Allocator>(
    alloc: A,
    anchor: &EventAnchor<'_>,
    options: &AnchorsOptions,
    declared: &NameSet<'_, A>,
) -> Result<Option<Finding<A>>, AllocError>
    ensures { (before : List EventValue) → ((q : List ℕ)
        → has_name declared.now q ≡ is_declared before q)
        → IfOk result (λ o. option_to_list o
        ≡ (if options.now.forbid_duplicated_anchors && is_declared before anchor.now.name.now
        then name_finding RuleId.Anchors (Some anchor.now.place) (codes "found duplicated anchor \"")
        anchor.now.name.now (codes "\"") else [])) }
{
    if !options.forbid_duplicated_anchors || !has_name(declared, anchor.name) {
        return Ok(None);
    }
    let front = "found duplicated anchor \"";
    name_problem(
        alloc,
        RuleId::Anchors,
        Some(anchor.place),
        front,
        anchor.name,
        "\"",
    )
}

/// Returns the finding at an anchor that is not used, if it is forbidden. The only error is out of
/// memory.
fn unused_anchor<A: Allocator>(
    alloc: A,
    anchor: &EventAnchor<'_>,
    options: &AnchorsOptions,
    is_unused: bool,
) -> Result<Option<Finding<A>>, AllocError>
    ensures { IfOk result (λ o. option_to_list o
        ≡ unused_if (options.now.forbid_unused_anchors
        && is_unused) (record { name = anchor.now.name.now; place = anchor.now.place })) }
{
    if !options.forbid_unused_anchors || !is_unused {
        return Ok(None);
    }
    let front = "found unused anchor \"";
    name_problem(
        alloc,
        RuleId::Anchors,
        Some(anchor.place),
        front,
        anchor.name,
        "\"",
    )
}

/// Appends the findings at the event's anchor. The only error is out of memory.
fn push_anchor_problems<A: Allocator + Copy>(
    alloc: A,
    event: &Event<'_>,
    options: &AnchorsOptions,
    declared: &NameSet<'_, A>,
    is_unused: bool,
    found: &mut Vec<Finding<A>, A>,
) -> Result<(), AllocError>
    ensures { (before after : List EventValue)
        → ((q : List ℕ) → has_name declared.now q ≡ is_declared before q)
        → is_unused ≡ spec.is_unused (event_value event.now).anchor after
        → OnOk result (found.new.items ≡ found.old.items
        ++ anchor_findings options.now before (event_value event.now).anchor after) }
{
    let Some(anchor) = event.anchor() else {
        return Ok(());
    };
    push_found(found, duplicated_anchor(alloc, &anchor, options, declared)?)?;
    push_found(found, unused_anchor(alloc, &anchor, options, is_unused)?)
}

/// Appends the findings at the event. The only error is out of memory.
fn push_problems<A: Allocator + Copy>(
    alloc: A,
    event: &Event<'_>,
    options: &AnchorsOptions,
    declared: &NameSet<'_, A>,
    is_unused: bool,
    found: &mut Vec<Finding<A>, A>,
) -> Result<(), AllocError>
    ensures { (before after : List EventValue)
        → ((q : List ℕ) → has_name declared.now q ≡ is_declared before q)
        → is_unused ≡ spec.is_unused (event_value event.now).anchor after
        → OnOk result (found.new.items ≡ found.old.items
        ++ anchors_at options.now before (event_value event.now) after) }
{
    push_found(found, undeclared_alias(alloc, event, options, declared)?)?;
    push_anchor_problems(alloc, event, options, declared, is_unused, found)
}

/// Returns whether the event has an anchor or is an alias.
pub(crate) fn is_reference(event: &Event<'_>) -> bool
    ensures { result ≡ is_reference (event_value event.now) }
{
    event.anchor().is_some() || matches!(event.kind, EventKind::Alias(_))
}

/// Returns whether one of the events has an anchor or is an alias.
fn has_references(events: &[Event<'_>]) -> bool
    ensures { result ≡ list_any (λ e. is_reference (event_value e)) events.now }
{
    events.iter().any(|event| is_reference(event))
}

/// Returns the findings of the rule anchors in one document, in the order of the events: undeclared
/// aliases, anchors that repeat a name, and anchors that are not used. An alias uses the last
/// anchor of its name before it. Lines and columns of findings count from 1, and columns count
/// characters. The only error is out of memory.
pub fn anchors<'a, A: Allocator + Copy>(
    alloc: A,
    events: &[Event<'a>],
    options: &AnchorsOptions,
) -> Result<Vec<Finding<A>, A>, AllocError>
    ensures { IfOk result (λ v. v.items ≡ anchors options.now (map event_value events.now)) }
{
    let mut found = Vec::new(alloc);
    if !has_references(events) {
        return Ok(found);
    }
    let mut flags = unused_flags(alloc, events)?;
    let mut declared = IndexSet::new(alloc);
    for event in events {
        let is_unused = next_flag(&mut flags);
        push_problems(alloc, event, options, &declared, is_unused, &mut found)?;
        declare(event, &mut declared)?;
    }
    Ok(found)
}
