//! Events: YAML 1.2.2, 3.1.2.

ghost use Rattle.std.specs.Prelude.{◌≡◌};

use crate::fault::PlacedParseFault;
use std::alloc::Allocator;
use yl_lexeme::Style;
use yl_text::Pos;

/// What an event is. An alias has its name. A scalar has its style and its value, which is empty
/// for a block scalar.
#[derive(Clone, Copy, Debug, PartialEq, Eq)]
pub enum EventKind<'a> {
    /// The start of a document.
    DocumentStart,
    /// The end of a document.
    DocumentEnd,
    /// The start of a sequence.
    SequenceStart,
    /// The end of a sequence.
    SequenceEnd,
    /// The start of a mapping.
    MappingStart,
    /// The end of a mapping.
    MappingEnd,
    /// An alias, with its name.
    Alias(&'a str),
    /// A scalar, with its style and its value.
    Scalar(Style, &'a str),
    /// A missing node, or a node that consists of properties only.
    Empty,
}

/// An anchor of a node.
#[derive(Clone, Copy)]
pub struct EventAnchor<'a> {
    /// The name of the anchor.
    pub name: &'a str,
    /// The position of the anchor in the text.
    pub place: Pos,
}

/// An event of a document. The parts of its anchor are separate fields, so that the small fields
/// lie next to each other.
#[derive(Clone, Copy)]
pub struct Event<'a> {
    /// What the event is.
    pub kind: EventKind<'a>,
    /// The position at which the content begins, after properties. A scalar, an alias and the start
    /// of a collection have one.
    pub place: Option<Pos>,
    /// Whether the node has a tag.
    pub is_tagged: bool,
    /// Whether the node has an anchor.
    has_anchor: bool,
    /// The position of the anchor, if there is one.
    anchor_place: Pos,
    /// The name of the anchor, if there is one.
    anchor_name: &'a str,
}

impl<'a> Event<'a> {
    ghost use Rattle.yl_events.specs.Event.{anchor_value, event_value, kind_value};

    /// Creates an event of these parts.
    pub fn new(
        kind: EventKind<'a>,
        place: Option<Pos>,
        anchor: Option<EventAnchor<'a>>,
        is_tagged: bool,
    ) -> Event<'a>
        ensures { event_value result ≡ record { kind = kind_value kind.entry; place = place; anchor = anchor_value anchor.entry; is_tagged = is_tagged } }
    {
        match anchor {
            None => Event {
                kind,
                place,
                is_tagged,
                has_anchor: false,
                anchor_place: Pos { line: 0, col: 0 },
                anchor_name: "",
            },
            Some(anchor) => Event {
                kind,
                place,
                is_tagged,
                has_anchor: true,
                anchor_place: anchor.place,
                anchor_name: anchor.name,
            },
        }
    }

    /// Returns the anchor, if there is one.
    pub fn anchor(&self) -> Option<EventAnchor<'a>>
        ensures { anchor_value result ≡ (event_value self.now).anchor }
    {
        if self.has_anchor {
            Some(EventAnchor {
                name: self.anchor_name,
                place: self.anchor_place,
            })
        } else {
            None
        }
    }
}

/// The events of a document, or its parse fault and no events.
#[derive(Drop)]
pub struct Built<'a, A: Allocator> {
    /// The events of the document. Empty if it has a fault.
    pub events: Vec<Event<'a>, A>,
    /// The parse fault of the document, if it has one.
    pub fault: Option<PlacedParseFault>,
}
