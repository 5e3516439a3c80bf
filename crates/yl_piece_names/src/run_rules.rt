//! The rules on keys at a run of events alone.
ghost use Rattle.std.specs.Prelude.{◌≡◌, ◌++◌, ◌∷◌, [], List, IfOk, OnOk, false};
ghost use Rattle.std.specs.List.{list_any};
ghost use Rattle.yl_text.specs.Finding.{FindingValue};
ghost use Rattle.yl_events.specs.Event.{EventValue, event_value, kind_value};
ghost use Rattle.yl_tree.specs.References.{is_reference};
ghost use Rattle.yl_tree.specs.TreeRules.{Finds};
ghost use Rattle.yl_piece_names.specs.OpeningEvents.{bare, events_of, opened_by, start_kind};
ghost use Rattle.yl_piece_names.specs.TreePatched.{tree_findings_after};

use crate::opening::Opening;
use std::alloc::{AllocError, Allocator};
use yl_events::{Event, EventKind};
use yl_tree::{TreeOptions, TreeRules};

/// Returns the start of a mapping, or of a sequence.
fn start_kind(is_mapping: bool) -> EventKind<'static>
    ensures { kind_value result ≡ start_kind is_mapping }
{
    if is_mapping {
        EventKind::MappingStart
    } else {
        EventKind::SequenceStart
    }
}

/// Passes an event of this kind to the rules, without a name and a place. The only error is out of
/// memory.
fn push_bare<A: Allocator + Copy>(
    rules: &mut TreeRules<A>,
    kind: EventKind<'_>,
) -> Result<(), AllocError>
    ensures { (es : List EventValue) (all : List FindingValue) → Finds rules.old (bare (kind_value kind.entry) ∷ es) all
        → OnOk result (Finds rules.new es all) }
{
    rules.push(&Event::new(kind, None, None, false))
}

/// Passes to the rules the events that open what a goal says. The only error is out of memory.
fn push_opening<A: Allocator + Copy>(
    rules: &mut TreeRules<A>,
    opening: &Opening,
) -> Result<(), AllocError>
    ensures { (es : List EventValue) (all : List FindingValue) → Finds rules.old (events_of opening.now ++ es) all
        → OnOk result (Finds rules.new es all) }
{
    match opening {
        Opening::Collection(is_mapping) => {
            push_bare(rules, EventKind::Empty)?;
            push_bare(rules, start_kind(*is_mapping))
        }
        Opening::Node => push_bare(rules, EventKind::Empty),
        Opening::Nothing => Ok(()),
    }
}

/// Returns the rules on keys and anchors at the start of a run, before which a parser had still to
/// read goals that say this of the open collections, the innermost goal last. At events without
/// anchors and aliases they find what the rules on keys find at the run alone: keys from before it
/// have no part in it. The only error is out of memory.
pub fn rules_for_run<A: Allocator + Copy>(
    alloc: A,
    options: &TreeOptions,
    openings: &[Opening],
) -> Result<TreeRules<A>, AllocError>
    ensures { IfOk result (λ rules. (es : List EventValue) → list_any is_reference es ≡ false
        → Finds rules es (tree_findings_after options.now (opened_by openings.now) es [] [] [])) }
{
    let mut rules = TreeRules::new(alloc, options);
    for opening in openings {
        push_opening(&mut rules, opening)?;
    }
    Ok(rules)
}
