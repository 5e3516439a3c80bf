//! What the rule anchors keeps of an event.
ghost use Rattle.std.specs.Prelude.{◌≡◌, IfOk};
ghost use Rattle.yl_events.specs.Event.{anchor_value, event_value, kind_value};

use crate::name::Name;
use std::alloc::{AllocError, Allocator};
use yl_events::{Event, EventAnchor, EventKind};
use yl_text::Pos;

/// An anchor whose name is owned.
#[derive(Drop)]
pub(crate) struct KeptAnchor<A: Allocator> {
    /// The name of the anchor.
    name: Name<A>,
    /// The position of the anchor in the text.
    place: Pos,
}

/// What the rule anchors needs of an event that has an anchor or is an alias. Owns the names.
#[derive(Drop)]
pub(crate) struct Reference<A: Allocator> {
    /// The position of the event's content, if it has one.
    place: Option<Pos>,
    /// The name, if the event is an alias.
    alias: Option<Name<A>>,
    /// The anchor of the event, if it has one.
    anchor: Option<KeptAnchor<A>>,
}

impl<A: Allocator + Copy> Reference<A> {
    ghost use Rattle.yl_tree.specs.References.{alias_kind, kept_anchor_value, reference_value};
    ghost use Rattle.yl_tree.specs.Sufficient.{kept_kind, reference_of};

    /// Creates a reference from the parts that the rule needs of this event. The only error is out
    /// of memory.
    pub(crate) fn of(alloc: A, event: &Event<'_>) -> Result<Reference<A>, AllocError>
        ensures { IfOk result (λ r. reference_value r ≡ reference_of (event_value event.now)) }
    {
        let alias = Self::alias_of(alloc, &event.kind)?;
        let anchor = Self::anchor_of(alloc, event)?;
        Ok(Reference {
            place: event.place,
            alias,
            anchor,
        })
    }

    /// Returns an event with the parts that are kept. It is empty if it is no alias, and has no
    /// tag.
    pub(crate) fn event(&self) -> Event<'_>
        ensures { event_value result ≡ reference_value self.now }
    {
        let kind = Self::kind_of(&self.alias);
        let anchor = Self::event_anchor(&self.anchor);
        Event::new(kind, self.place, anchor, false)
    }

    /// Returns a copy of the name of an alias, or `None` for any other kind. The only error is out
    /// of memory.
    fn alias_of(alloc: A, kind: &EventKind<'_>) -> Result<Option<Name<A>>, AllocError>
        ensures { IfOk result (λ o. alias_kind o ≡ kept_kind (kind_value kind.now)) }
    {
        match kind {
            EventKind::Alias(name) => Ok(Some(Name::of(alloc, name)?)),
            _ => Ok(None),
        }
    }

    /// Returns a copy of the event's anchor, if it has one. The only error is out of memory.
    fn anchor_of(alloc: A, event: &Event<'_>) -> Result<Option<KeptAnchor<A>>, AllocError>
        ensures { IfOk result (λ o. kept_anchor_value o ≡ (event_value event.now).anchor) }
    {
        match event.anchor() {
            None => Ok(None),
            Some(anchor) => Ok(Some(KeptAnchor {
                name: Name::of(alloc, anchor.name)?,
                place: anchor.place,
            })),
        }
    }

    /// Returns the kind of the event with the parts that are kept: an alias or empty.
    fn kind_of(alias: &Option<Name<A>>) -> EventKind<'_>
        ensures { kind_value result ≡ alias_kind alias.now }
    {
        match alias {
            None => EventKind::Empty,
            Some(name) => EventKind::Alias(name.as_str()),
        }
    }

    /// Returns the anchor of the event, if it has one.
    fn event_anchor(anchor: &Option<KeptAnchor<A>>) -> Option<EventAnchor<'_>>
        ensures { anchor_value result ≡ kept_anchor_value anchor.now }
    {
        match anchor {
            None => None,
            Some(anchor) => Some(EventAnchor {
                name: anchor.name.as_str(),
                place: anchor.place,
            }),
        }
    }
}
