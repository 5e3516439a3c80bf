//! The rule key-duplicates.
ghost use Rattle.std.specs.Prelude.{◌≡◌, ◌++◌, ◌∷◌, ◌||◌, List, [], map, not, false, codes, IfOk, OnOk, bytes_eq, reverse};
ghost use Rattle.yl_text.specs.Finding.{FindingValue};
ghost use Rattle.yl_events.specs.Event.{EventValue, event_value};
ghost use Rattle.yl_tree.specs.Keys.{earlier_keys};
ghost use Rattle.yl_tree.specs.KeyRules.{duplicate_at, is_duplicate, key_duplicates};
ghost use Rattle.yl_tree.specs.Frames.{IsBehind};
ghost use Rattle.yl_tree.specs.NameSets.{is_among};
ghost use Rattle.yl_tree.specs.NameStack.{level_at};
ghost use Rattle.yl_tree.specs.OtherKeys.{is_other_at};

use crate::messages::{name_problem, push_found};
use crate::open_keys::OpenKeys;
use crate::options::KeyDuplicatesOptions;
use crate::walk::{self, Walk};
use std::alloc::{AllocError, Allocator};
use yl_events::Event;
use yl_text::{Finding, RuleId};

/// Returns whether a key of this name is judged: merge keys `<<` may be exempt.
fn is_judged(options: &KeyDuplicatesOptions, name: &str) -> bool
    ensures { result ≡ options.now.forbid_duplicated_merge_keys || not (bytes_eq name.now (codes "<<")) }
{
    options.forbid_duplicated_merge_keys || name != "<<"
}

/// Returns whether this name repeats a key that is judged, if a key comes next, else `false`.
fn is_duplicate<A: Allocator + Copy>(
    walk: &Walk<OpenKeys<A>, A>,
    options: &KeyDuplicatesOptions,
    name: &str,
) -> bool
    ensures { (before : List EventValue)
        → IsBehind (λ key q. bytes_eq key q)
        (λ s n q. is_among (level_at n s.keys) q
        || is_other_at s.others (reverse s.outer.items) n q) walk.now before
        → result ≡ is_duplicate options.now (earlier_keys before) name.now }
{
    is_judged(options, name) && walk::is_spoken_against(walk, name)
}

/// Appends the finding at the event, if it repeats a key of its mapping. The only error is out of
/// memory.
fn push_duplicate<A: Allocator + Copy>(
    walk: &Walk<OpenKeys<A>, A>,
    event: &Event<'_>,
    options: &KeyDuplicatesOptions,
    found: &mut Vec<Finding<A>, A>,
) -> Result<(), AllocError>
    ensures { (before after : List EventValue)
        → IsBehind (λ key q. bytes_eq key q)
        (λ s n q. is_among (level_at n s.keys) q
        || is_other_at s.others (reverse s.outer.items) n q) walk.now before
        → OnOk result (found.new.items
        ≡ found.old.items ++ duplicate_at options.now before (event_value event.now) after) }
{
    let Some(name) = walk::name_of(event) else {
        return Ok(());
    };
    if !is_duplicate(walk, options, name) {
        return Ok(());
    }
    let problem = name_problem(
        *found.allocator(),
        RuleId::KeyDuplicates,
        event.place,
        "duplication of key \"",
        name,
        "\" in mapping",
    )?;
    push_found(found, problem)?;
    Ok(())
}

/// The rule key-duplicates after a document's first events.
#[derive(Drop)]
pub(crate) struct DuplicateFinder<A: Allocator + Copy> {
    options: KeyDuplicatesOptions,
    walk: Walk<OpenKeys<A>, A>,
    found: Vec<Finding<A>, A>,
}

impl<A: Allocator + Copy> DuplicateFinder<A> {
    ghost use Rattle.yl_tree.specs.Finders.{FindsDuplicates};

    /// Creates the rule at the start of a document.
    pub(crate) fn new(alloc: A, options: KeyDuplicatesOptions) -> Self
        ensures { (es : List EventValue) → FindsDuplicates result es (key_duplicates options es) }
    {
        DuplicateFinder {
            options,
            walk: walk::start::<OpenKeys<A>>(alloc),
            found: Vec::new(alloc),
        }
    }

    /// Takes the next event. The only error is out of memory. After an error the rule must not be
    /// used.
    pub(crate) fn push(&mut self, event: &Event<'_>) -> Result<(), AllocError>
        ensures { (es : List EventValue) (all : List FindingValue)
            → FindsDuplicates self.old (event_value event.now ∷ es) all
            → OnOk result (FindsDuplicates self.new es all) }
    {
        push_duplicate(&self.walk, event, &self.options, &mut self.found)?;
        walk::step(&mut self.walk, event)?;
        Ok(())
    }

    /// Returns the findings of the rule, if no event follows.
    pub(crate) fn finish(self) -> Vec<Finding<A>, A>
        ensures { (all : List FindingValue) → FindsDuplicates self [] all → result.items ≡ all }
    {
        self.found
    }
}

/// Returns the findings of the rule key-duplicates in one document, in the order of the events:
/// each key that is equal to an earlier one of its mapping. Merge keys `<<` may be exempt. Lines
/// and columns of findings count from 1, and columns count characters. The only error is out of
/// memory.
pub fn key_duplicates<'a, A: Allocator + Copy>(
    alloc: A,
    events: &[Event<'a>],
    options: &KeyDuplicatesOptions,
) -> Result<Vec<Finding<A>, A>, AllocError>
    ensures { IfOk result (λ v. v.items ≡ key_duplicates options.now (map event_value events.now)) }
{
    let mut finder = DuplicateFinder::new(alloc, *options);
    for event in events {
        finder.push(event)?;
    }
    Ok(finder.finish())
}
