//! The rule anchors, given the events of a document one after another.
ghost use Rattle.std.specs.Prelude.{◌≡◌, List, [], ◌∷◌, map, IfOk, OnOk};
ghost use Rattle.yl_text.specs.Finding.{FindingValue};
ghost use Rattle.yl_events.specs.Event.{EventValue, event_value};
ghost use Rattle.yl_tree.specs.Anchors.{anchors};
ghost use Rattle.yl_tree.specs.References.{reference_value};

use crate::anchor_rule::{anchors, is_reference};
use crate::options::AnchorsOptions;
use crate::reference::Reference;
use std::alloc::{AllocError, Allocator};
use yl_events::Event;
use yl_text::Finding;

/// The rule anchors after the first events of a document. Keeps what it needs of the events that
/// have an anchor or are an alias, and nothing of the others.
#[derive(Drop)]
pub(crate) struct AnchorFinder<A: Allocator + Copy> {
    options: AnchorsOptions,
    references: Vec<Reference<A>, A>,
}

/// Returns the events of which these references are kept. The only error is out of memory.
fn events_of<A: Allocator + Copy>(
    alloc: A,
    references: &[Reference<A>],
) -> Result<Vec<Event<'_>, A>, AllocError>
    ensures { IfOk result (λ v. map event_value v.items ≡ map reference_value references.now) }
{
    let mut events = Vec::new(alloc);
    for reference in references {
        events.push(reference.event())?;
    }
    Ok(events)
}

impl<A: Allocator + Copy> AnchorFinder<A> {
    ghost use Rattle.yl_tree.specs.Finders.{FindsAnchors};

    /// Creates the rule at the start of a document.
    pub(crate) fn new(alloc: A, options: AnchorsOptions) -> Self
        ensures { (es : List EventValue) → FindsAnchors result es (anchors options es) }
    {
        AnchorFinder {
            options,
            references: Vec::new(alloc),
        }
    }

    /// Takes the next event. The only error is out of memory. After an error the rule must not be
    /// used.
    pub(crate) fn push(&mut self, event: &Event<'_>) -> Result<(), AllocError>
        ensures { (es : List EventValue) (all : List FindingValue)
            → FindsAnchors self.old (event_value event.now ∷ es) all
            → OnOk result (FindsAnchors self.new es all) }
    {
        if is_reference(event) {
            let alloc = *self.references.allocator();
            self.references.push(Reference::of(alloc, event)?)?;
        }
        Ok(())
    }

    /// Returns the findings of the rule, if no event follows. The only error is out of memory.
    pub(crate) fn finish(self) -> Result<Vec<Finding<A>, A>, AllocError>
        ensures { (all : List FindingValue) → FindsAnchors self [] all
            → IfOk result (λ v. v.items ≡ all) }
    {
        let alloc = *self.references.allocator();
        let events = events_of(alloc, &self.references)?;
        anchors(alloc, &events, &self.options)
    }
}
