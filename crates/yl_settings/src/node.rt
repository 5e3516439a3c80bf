//! The nodes of a document, read from its events. A node is named by the index of its first event.
ghost use Rattle.std.specs.Prelude.{◌≡◌, ◌<◌, ◌≤◌, ◌∷◌, [], map, length, MatchOption, IfSome, drop};
ghost use Rattle.yl_events.specs.Event.{event_value, kind_value};
ghost use Rattle.yl_tree.specs.Anchors.{is_alias_event};
ghost use Rattle.yl_settings.specs.Nodes.{ends, entries_of, innermost, levels_from, outer, starts, starts_mapping, starts_sequence, NoNode, Node};
ghost use Rattle.yl_settings.specs.Item.{entry_value, nodes_at};

use yl_events::{Event, EventKind};
use yl_text::Pos;

/// A node.
#[derive(Clone, Copy)]
pub struct Item<'a> {
    /// The kind of its first event.
    pub kind: EventKind<'a>,
    /// The position in the text where the content of a collection, a scalar or an alias begins.
    pub place: Option<Pos>,
    /// The index of the first event inside the node. For a node that is no collection and no
    /// document it is the number of events.
    pub inside: usize,
}

/// A node, and where the next node begins.
#[derive(Clone, Copy)]
pub struct ItemAt<'a> {
    /// The node.
    pub item: Item<'a>,
    /// The index of the event after the node.
    pub more: usize,
}

/// An entry of a mapping, and where the next entry begins.
#[derive(Clone, Copy)]
pub struct EntryAt<'a> {
    /// The kind of the first event of the key.
    pub key: EventKind<'a>,
    /// The position in the text where the content of the key begins, if the key is a collection, a
    /// scalar or an alias.
    pub key_place: Option<Pos>,
    /// The value.
    pub value: Item<'a>,
    /// The index of the event after the value.
    pub more: usize,
}

/// Returns whether a collection or a document begins.
fn starts(kind: EventKind<'_>) -> bool
    ensures { result ≡ starts (kind_value kind.entry) }
{
    matches!(
        kind,
        EventKind::DocumentStart | EventKind::SequenceStart | EventKind::MappingStart
    )
}

/// Returns whether a collection or a document ends.
fn ends(kind: EventKind<'_>) -> bool
    ensures { result ≡ ends (kind_value kind.entry) }
{
    matches!(
        kind,
        EventKind::DocumentEnd | EventKind::SequenceEnd | EventKind::MappingEnd
    )
}

/// Returns whether a mapping begins.
pub fn starts_mapping(kind: EventKind<'_>) -> bool
    ensures { result ≡ starts_mapping (kind_value kind.entry) }
{
    matches!(kind, EventKind::MappingStart)
}

/// Returns whether a sequence begins.
pub fn starts_sequence(kind: EventKind<'_>) -> bool
    ensures { result ≡ starts_sequence (kind_value kind.entry) }
{
    matches!(kind, EventKind::SequenceStart)
}

/// Returns whether the event is an alias.
pub fn is_alias(kind: EventKind<'_>) -> bool
    ensures { result ≡ is_alias_event (kind_value kind.entry) }
{
    matches!(kind, EventKind::Alias(_))
}

/// Returns the index of the event after the innermost collection or document that contains the
/// event of index `at`. Returns the number of events if that collection does not end.
fn behind_collection(events: &[Event<'_>], at: usize) -> usize
    requires { at ≤ length events.now }
    ensures within { result ≤ length events.now }
    ensures forward { at ≤ result }
    ensures outer { levels_from (map event_value (drop result events.now)) ≡ outer (levels_from (map event_value (drop at events.now))) }
{
    let mut depth: usize = 1;
    for i in at..events.len() {
        let kind = events[i].kind;
        if starts(kind) {
            depth += 1;
        } else if ends(kind) {
            depth -= 1;
            if depth == 0 {
                return i + 1;
            }
        }
    }
    events.len()
}

/// Returns the node that begins at the event of index `at`. Returns `None` if there is no such
/// event, or a collection or a document ends with it.
pub fn first_item<'a>(events: &[Event<'a>], at: usize) -> Option<ItemAt<'a>>
    requires { at ≤ length events.now }
    ensures item { MatchOption result (nodes_at events.now at ≡ NoNode)
        (λ x. nodes_at events.now at ≡ Node (kind_value x.item.kind) x.item.place (nodes_at events.now x.item.inside) (nodes_at events.now x.more)) }
    ensures inside { IfSome result (λ x. x.item.inside ≤ length events.now) }
    ensures within { IfSome result (λ x. x.more ≤ length events.now) }
    ensures forward { IfSome result (λ x. at < x.more) }
{
    if at == events.len() {
        return None;
    }
    let event = events[at];
    let (inside, more) = if starts(event.kind) {
        (at + 1, behind_collection(events, at + 1))
    } else if ends(event.kind) {
        return None;
    } else {
        (events.len(), at + 1)
    };
    Some(ItemAt {
        item: Item {
            kind: event.kind,
            place: event.place,
            inside,
        },
        more,
    })
}

/// Returns the entry of a mapping whose key begins at the event of index `at`. Returns `None` if no
/// node begins there, or no node follows it in the same collection.
pub fn first_entry<'a>(events: &[Event<'a>], at: usize) -> Option<EntryAt<'a>>
    requires { at ≤ length events.now }
    ensures entry { MatchOption result (entries_of (nodes_at events.now at) ≡ [])
        (λ x. entries_of (nodes_at events.now at) ≡ entry_value events.now x ∷ entries_of (nodes_at events.now x.more)) }
    ensures inside { IfSome result (λ x. x.value.inside ≤ length events.now) }
    ensures within { IfSome result (λ x. x.more ≤ length events.now) }
    ensures forward { IfSome result (λ x. at < x.more) }
{
    let key = first_item(events, at)?;
    let value = first_item(events, key.more)?;
    Some(EntryAt {
        key: key.item.kind,
        key_place: key.item.place,
        value: value.item,
        more: value.more,
    })
}
