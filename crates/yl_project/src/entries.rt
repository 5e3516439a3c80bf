//! Looks up the entries of mappings by their keys.
ghost use Rattle.std.specs.Prelude.{◌≡◌, ◌≤◌, length, IfSome, Some, bytes_eq, if◌then◌else◌};
ghost use Rattle.std.specs.Option.{option_map};
ghost use Rattle.yl_events.specs.Event.{kind_value};
ghost use Rattle.yl_config.specs.Misfits.{place_or};
ghost use Rattle.yl_settings.specs.Item.{item_value, nodes_at};
ghost use Rattle.yl_settings.specs.Nodes.{entries_of, starts_sequence};
ghost use Rattle.yl_settings.specs.Words.{word};
ghost use Rattle.yl_project.specs.Misfits.{is_name, is_scalar};
ghost use Rattle.yl_project.specs.Said.{value_of};

use yl_events::{Event, EventKind};
use yl_settings::{EntryAt, Item, first_entry, word};
use yl_text::Pos;

/// The start of a text.
pub const ORIGIN: Pos = Pos { line: 0, col: 0 };

/// Returns `place`, or `other` if there is none.
pub fn place_or(other: Pos, place: Option<Pos>) -> Pos
    ensures { result ≡ place_or other place }
{
    place.unwrap_or(other)
}

/// Returns `true` if the node is a sequence.
pub fn starts_sequence(kind: EventKind<'_>) -> bool
    ensures { result ≡ starts_sequence (kind_value kind.entry) }
{
    matches!(kind, EventKind::SequenceStart)
}

/// Returns `true` if the node is a scalar.
pub fn is_scalar(kind: EventKind<'_>) -> bool
    ensures { result ≡ is_scalar (kind_value kind.entry) }
{
    matches!(kind, EventKind::Scalar(_, _))
}

/// Returns `true` if the node can name a file. It then is a plain or quoted scalar, and is not
/// empty.
pub fn is_name(kind: EventKind<'_>) -> bool
    ensures { result ≡ is_name (kind_value kind.entry) }
{
    !word(kind).is_empty()
}

/// Returns the value of an entry if it has the key `name`, else `before`.
fn value_or<'a>(before: Option<Item<'a>>, entry: &EntryAt<'a>, name: &str) -> Option<Item<'a>>
    ensures { result ≡ (if bytes_eq (word (kind_value entry.now.key)) name.now then Some entry.now.value else before.entry) }
{
    if word(entry.key) == name {
        Some(entry.value)
    } else {
        before
    }
}

/// Returns the value of the last entry with the key `name`, if there is one. The entries start at
/// the event with index `inside`.
pub fn value_of<'a>(events: &[Event<'a>], inside: usize, name: &str) -> Option<Item<'a>>
    requires { inside ≤ length events.now }
    ensures value { option_map (item_value events.now) result ≡ value_of name.now (entries_of (nodes_at events.now inside)) }
    ensures inside { IfSome result (λ item. item.inside ≤ length events.now) }
{
    let mut value = None;
    let mut rest = inside;
    while let Some(entry) = first_entry(events, rest) {
        value = value_or(value, &entry, name);
        rest = entry.more;
    }
    value
}
