//! The files that a configuration names.
ghost use Rattle.std.specs.Prelude.{◌≡◌, ◌≤◌, [], length, IfOk, IfSome, map, string_bytes, OnOk};
ghost use Rattle.std.specs.Option.{option_map};
ghost use Rattle.yl_events.specs.Event.{event_value, kind_value};
ghost use Rattle.yl_settings.specs.Item.{item_value, nodes_at};
ghost use Rattle.yl_config.specs.Document.{root_of};
ghost use Rattle.yl_project.specs.Named.{extends_of, named_of, names_of, with_name, with_names};

use crate::entries::{is_name, starts_sequence, value_of};
use std::alloc::{AllocError, Allocator};
use std::marker::Model;
use yl_config::root_of;
use yl_events::{Event, EventKind};
use yl_settings::{Item, first_item, word};

/// The files that a configuration names.
#[derive(Drop)]
pub struct Named<A: Allocator> {
    extends: Option<String<A>>,
    ignore_from: Vec<String<A>, A>,
}

impl<A: Allocator> Model for Named<A> {
    ghost use Rattle.std.specs.Prelude.{map, string_bytes};
    ghost use Rattle.std.specs.Option.{option_map};
    ghost use Rattle.yl_project.specs.Named.{NamedValue};

    ghost Value = { NamedValue };

    ghost view = { λ n. record { extends = option_map string_bytes n.extends; ignore_from = map string_bytes n.ignore_from.items } };
}

impl<A: Allocator> Named<A> {
    /// Returns the name of the configuration that is extended, if one is named.
    pub fn extends(&self) -> Option<&str>
        ensures { option_map (λ name. name.now) result ≡ self.now.extends }
    {
        match &self.extends {
            Some(name) => Some(name.as_str()),
            None => None,
        }
    }

    /// Returns the names of the files whose lines are the patterns of ignored paths.
    pub fn ignore_from(&self) -> &[String<A>]
        ensures { map string_bytes result.now ≡ self.now.ignore_from }
    {
        self.ignore_from.as_slice()
    }
}

/// Appends the name of a file to `names` if the node is one. The only error is out of memory.
fn add_name<A: Allocator + Copy>(
    alloc: A,
    names: &mut Vec<String<A>, A>,
    kind: EventKind<'_>,
) -> Result<(), AllocError>
    ensures { OnOk result (map string_bytes names.new.items ≡ with_name (map string_bytes names.old.items) (kind_value kind.entry)) }
{
    if is_name(kind) {
        names.push(String::from_str(alloc, word(kind))?)?;
    }
    Ok(())
}

/// Returns the names of files in a sequence, whose nodes start at the event with index `inside`.
/// The only error is out of memory.
fn names_in<A: Allocator + Copy>(
    alloc: A,
    events: &[Event<'_>],
    inside: usize,
) -> Result<Vec<String<A>, A>, AllocError>
    requires { inside ≤ length events.now }
    ensures { IfOk result (λ names. map string_bytes names.items ≡ with_names [] (nodes_at events.now inside)) }
{
    let mut names = Vec::new(alloc);
    let mut rest = inside;
    while let Some(name) = first_item(events, rest) {
        add_name(alloc, &mut names, name.item.kind)?;
        rest = name.more;
    }
    Ok(names)
}

/// Returns the names of files in a value: those in a sequence, else the value itself if it is a
/// name. The only error is out of memory.
fn names_of<A: Allocator + Copy>(
    alloc: A,
    events: &[Event<'_>],
    value: Option<Item<'_>>,
) -> Result<Vec<String<A>, A>, AllocError>
    requires { IfSome value (λ item. item.inside ≤ length events.now) }
    ensures { IfOk result (λ names. map string_bytes names.items ≡ names_of (option_map (item_value events.now) value.entry)) }
{
    match value {
        None => Ok(Vec::new(alloc)),
        Some(item) if starts_sequence(item.kind) => names_in(alloc, events, item.inside),
        Some(item) => {
            let mut names = Vec::new(alloc);
            add_name(alloc, &mut names, item.kind)?;
            Ok(names)
        }
    }
}

/// Returns the name of the configuration that is extended, if the value is a name. The only error
/// is out of memory.
fn extends_of<A: Allocator>(
    alloc: A,
    events: &[Event<'_>],
    value: Option<Item<'_>>,
) -> Result<Option<String<A>>, AllocError>
    ensures { IfOk result (λ name. option_map string_bytes name ≡ extends_of (option_map (item_value events.now) value.entry)) }
{
    match value {
        Some(item) if is_name(item.kind) => Ok(Some(String::from_str(alloc, word(item.kind))?)),
        _ => Ok(None),
    }
}

/// Returns the files that a document with these events names. The only error is out of memory.
pub fn named_of<A: Allocator + Copy>(alloc: A, events: &[Event<'_>]) -> Result<Named<A>, AllocError>
    ensures { IfOk result (λ named. named ≡ named_of (root_of (map event_value events.now))) }
{
    let root = root_of(events);
    let extends = value_of(events, root.inside, "extends");
    let names = value_of(events, root.inside, "ignore-from-file");
    Ok(Named {
        extends: extends_of(alloc, events, extends)?,
        ignore_from: names_of(alloc, events, names)?,
    })
}
