//! The rules on keys and anchors, given the events of a document one after another.
ghost use Rattle.std.specs.Prelude.{◌≡◌, List, [], ◌∷◌, if◌then◌else◌, IfOk, OnOk};
ghost use Rattle.std.specs.Option.{option_map_or};
ghost use Rattle.yl_text.specs.Finding.{FindingValue};
ghost use Rattle.yl_events.specs.Event.{EventValue, event_value};
ghost use Rattle.yl_tree.specs.Anchors.{anchors};
ghost use Rattle.yl_tree.specs.KeyRules.{key_duplicates, key_ordering};
ghost use Rattle.yl_tree.specs.Tree.{tree_findings};
ghost use Rattle.yl_tree.specs.Finders.{FindsAnchors, FindsDuplicates, FindsIf, FindsMisplaced};

use crate::anchor_finder::AnchorFinder;
use crate::duplicates::DuplicateFinder;
use crate::options::TreeOptions;
use crate::ordering::MisplacedFinder;
use std::alloc::{AllocError, Allocator};
use yl_events::Event;
use yl_text::Finding;

/// The rules on keys and anchors after the first events of a document. They own what they keep:
/// their findings, keys of open mappings, and the names and places of anchors and aliases. A rule
/// that is off keeps nothing.
#[derive(Drop)]
pub struct TreeRules<A: Allocator + Copy> {
    /// The allocator of the findings.
    alloc: A,
    /// The rule key-duplicates, if it is on.
    key_duplicates: Option<DuplicateFinder<A>>,
    /// The rule key-ordering, if it is on.
    key_ordering: Option<MisplacedFinder<A>>,
    /// The rule anchors, if it is on.
    anchors: Option<AnchorFinder<A>>,
}

/// Returns the rule key-duplicates at the start of a document, if it is on.
fn duplicate_finder<A: Allocator + Copy>(
    alloc: A,
    options: &TreeOptions,
) -> Option<DuplicateFinder<A>>
    ensures { (es : List EventValue)
        → FindsIf FindsDuplicates result es
        (option_map_or (λ d. key_duplicates d es) options.now.key_duplicates []) }
{
    let options = options.key_duplicates?;
    Some(DuplicateFinder::new(alloc, options))
}

/// Returns the rule key-ordering at the start of a document, if it is on.
fn misplaced_finder<A: Allocator + Copy>(
    alloc: A,
    options: &TreeOptions,
) -> Option<MisplacedFinder<A>>
    ensures { (es : List EventValue)
        → FindsIf FindsMisplaced result es
        (if options.now.key_ordering then key_ordering es else []) }
{
    if !options.key_ordering {
        return None;
    }
    Some(MisplacedFinder::new(alloc))
}

/// Returns the rule anchors at the start of a document, if it is on.
fn anchor_finder<A: Allocator + Copy>(alloc: A, options: &TreeOptions) -> Option<AnchorFinder<A>>
    ensures { (es : List EventValue)
        → FindsIf FindsAnchors result es
        (option_map_or (λ a. anchors a es) options.now.anchors []) }
{
    let options = options.anchors?;
    Some(AnchorFinder::new(alloc, options))
}

/// Passes the next event to the rule key-duplicates, if it is on. The only error is out of memory.
fn push_to_duplicates<A: Allocator + Copy>(
    finder: &mut Option<DuplicateFinder<A>>,
    event: &Event<'_>,
) -> Result<(), AllocError>
    ensures { (es : List EventValue) (all : List FindingValue)
        → FindsIf FindsDuplicates finder.old (event_value event.now ∷ es) all
        → OnOk result (FindsIf FindsDuplicates finder.new es all) }
{
    match finder {
        Some(finder) => finder.push(event),
        None => Ok(()),
    }
}

/// Passes the next event to the rule key-ordering, if it is on. The only error is out of memory.
fn push_to_misplaced<A: Allocator + Copy>(
    finder: &mut Option<MisplacedFinder<A>>,
    event: &Event<'_>,
) -> Result<(), AllocError>
    ensures { (es : List EventValue) (all : List FindingValue)
        → FindsIf FindsMisplaced finder.old (event_value event.now ∷ es) all
        → OnOk result (FindsIf FindsMisplaced finder.new es all) }
{
    match finder {
        Some(finder) => finder.push(event),
        None => Ok(()),
    }
}

/// Passes the next event to the rule anchors, if it is on. The only error is out of memory.
fn push_to_anchors<A: Allocator + Copy>(
    finder: &mut Option<AnchorFinder<A>>,
    event: &Event<'_>,
) -> Result<(), AllocError>
    ensures { (es : List EventValue) (all : List FindingValue)
        → FindsIf FindsAnchors finder.old (event_value event.now ∷ es) all
        → OnOk result (FindsIf FindsAnchors finder.new es all) }
{
    match finder {
        Some(finder) => finder.push(event),
        None => Ok(()),
    }
}

/// Returns the findings of the rule key-duplicates, or none if it is off.
fn duplicates_found<A: Allocator + Copy>(
    alloc: A,
    finder: Option<DuplicateFinder<A>>,
) -> Vec<Finding<A>, A>
    ensures { (all : List FindingValue) → FindsIf FindsDuplicates finder [] all
        → result.items ≡ all }
{
    match finder {
        Some(finder) => finder.finish(),
        None => Vec::new(alloc),
    }
}

/// Returns the findings of the rule key-ordering, or none if it is off.
fn misplaced_found<A: Allocator + Copy>(
    alloc: A,
    finder: Option<MisplacedFinder<A>>,
) -> Vec<Finding<A>, A>
    ensures { (all : List FindingValue) → FindsIf FindsMisplaced finder [] all
        → result.items ≡ all }
{
    match finder {
        Some(finder) => finder.finish(),
        None => Vec::new(alloc),
    }
}

/// Returns the findings of the rule anchors, or none if it is off. The only error is out of memory.
fn anchors_found<A: Allocator + Copy>(
    alloc: A,
    finder: Option<AnchorFinder<A>>,
) -> Result<Vec<Finding<A>, A>, AllocError>
    ensures { (all : List FindingValue) → FindsIf FindsAnchors finder [] all
        → IfOk result (λ v. v.items ≡ all) }
{
    match finder {
        Some(finder) => finder.finish(),
        None => Ok(Vec::new(alloc)),
    }
}

impl<A: Allocator + Copy> TreeRules<A> {
    ghost use Rattle.yl_tree.specs.TreeRules.{Finds};

    /// Creates the rules at the start of a document.
    pub fn new(alloc: A, options: &TreeOptions) -> TreeRules<A>
        ensures { (es : List EventValue) → Finds result es (tree_findings options.now es) }
    {
        TreeRules {
            alloc,
            key_duplicates: duplicate_finder(alloc, options),
            key_ordering: misplaced_finder(alloc, options),
            anchors: anchor_finder(alloc, options),
        }
    }

    /// Takes the next event. The only error is out of memory. After an error the rules must not be
    /// used.
    pub fn push(&mut self, event: &Event<'_>) -> Result<(), AllocError>
        ensures { (es : List EventValue) (all : List FindingValue)
            → Finds self.old (event_value event.now ∷ es) all
            → OnOk result (Finds self.new es all) }
    {
        push_to_duplicates(&mut self.key_duplicates, event)?;
        push_to_misplaced(&mut self.key_ordering, event)?;
        push_to_anchors(&mut self.anchors, event)?;
        Ok(())
    }

    /// Returns the findings of the rules in the document, if no event follows: those of
    /// key-duplicates, of key-ordering and of anchors, each in the order of the events. The only
    /// error is out of memory.
    pub fn finish(self) -> Result<Vec<Finding<A>, A>, AllocError>
        ensures { (all : List FindingValue) → Finds self [] all
            → IfOk result (λ v. v.items ≡ all) }
    {
        let TreeRules {
            alloc,
            key_duplicates,
            key_ordering,
            anchors,
        } = self;
        let mut found = duplicates_found(alloc, key_duplicates);
        let mut misplaced = misplaced_found(alloc, key_ordering);
        let mut of_anchors = anchors_found(alloc, anchors)?;
        found.append(&mut misplaced)?;
        found.append(&mut of_anchors)?;
        Ok(found)
    }
}
