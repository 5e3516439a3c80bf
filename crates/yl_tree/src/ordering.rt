//! The rule key-ordering.
ghost use Rattle.std.specs.Prelude.{◌≡◌, ◌++◌, ◌∷◌, ℕ, List, [], map, IfOk, OnOk};
ghost use Rattle.yl_text.specs.Finding.{FindingValue};
ghost use Rattle.yl_events.specs.Event.{EventValue, event_value};
ghost use Rattle.yl_tree.specs.KeyRules.{is_greater, misplaced_at, key_ordering};
ghost use Rattle.yl_tree.specs.Greatest.{is_greater_among};
ghost use Rattle.yl_tree.specs.NameStack.{level_at};
ghost use Rattle.yl_tree.specs.Frames.{IsBehind};

use crate::greatest::GreatestKeys;
use crate::messages::{name_problem, push_found};
use crate::walk::{self, Walk};
use std::alloc::{AllocError, Allocator};
use yl_events::Event;
use yl_text::{Finding, RuleId};

/// Appends the finding at the event, if it is a key after a greater one of its mapping. The only
/// error is out of memory.
fn push_misplaced<A: Allocator + Copy>(
    walk: &Walk<GreatestKeys<A>, A>,
    event: &Event<'_>,
    found: &mut Vec<Finding<A>, A>,
) -> Result<(), AllocError>
    ensures { (before after : List EventValue)
        → IsBehind is_greater (λ g n q. is_greater_among (level_at n g.keys) q) walk.now before
        → OnOk result (found.new.items
        ≡ found.old.items ++ misplaced_at before (event_value event.now) after) }
{
    let Some(name) = walk::name_of(event) else {
        return Ok(());
    };
    if !walk::is_spoken_against(walk, name) {
        return Ok(());
    }
    let problem = name_problem(
        *found.allocator(),
        RuleId::KeyOrdering,
        event.place,
        "wrong ordering of key \"",
        name,
        "\" in mapping",
    )?;
    push_found(found, problem)?;
    Ok(())
}

/// The rule key-ordering after the first events of a document.
#[derive(Drop)]
pub(crate) struct MisplacedFinder<A: Allocator + Copy> {
    walk: Walk<GreatestKeys<A>, A>,
    found: Vec<Finding<A>, A>,
}

impl<A: Allocator + Copy> MisplacedFinder<A> {
    ghost use Rattle.yl_tree.specs.Finders.{FindsMisplaced};

    /// Creates the rule at the start of a document.
    pub(crate) fn new(alloc: A) -> Self
        ensures { (es : List EventValue) → FindsMisplaced result es (key_ordering es) }
    {
        MisplacedFinder {
            walk: walk::start::<GreatestKeys<A>>(alloc),
            found: Vec::new(alloc),
        }
    }

    /// Takes the next event. The only error is out of memory. After an error the rule must not be
    /// used.
    pub(crate) fn push(&mut self, event: &Event<'_>) -> Result<(), AllocError>
        ensures { (es : List EventValue) (all : List FindingValue)
            → FindsMisplaced self.old (event_value event.now ∷ es) all
            → OnOk result (FindsMisplaced self.new es all) }
    {
        push_misplaced(&self.walk, event, &mut self.found)?;
        walk::step(&mut self.walk, event)?;
        Ok(())
    }

    /// Returns the findings of the rule, if no event follows.
    pub(crate) fn finish(self) -> Vec<Finding<A>, A>
        ensures { (all : List FindingValue) → FindsMisplaced self [] all → result.items ≡ all }
    {
        self.found
    }
}

/// Returns the findings of the rule key-ordering in one document, in the order of the events: each
/// key that comes after a greater one, by code points, in its mapping. Lines and columns of
/// findings count from 1, and columns count characters. The only error is out of memory.
pub fn key_ordering<'a, A: Allocator + Copy>(
    alloc: A,
    events: &[Event<'a>],
) -> Result<Vec<Finding<A>, A>, AllocError>
    ensures { IfOk result (λ v. v.items ≡ key_ordering (map event_value events.now)) }
{
    let mut finder = MisplacedFinder::new(alloc);
    for event in events {
        finder.push(event)?;
    }
    Ok(finder.finish())
}
