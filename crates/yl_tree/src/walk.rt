//! Finds the events of a document that are keys, and remembers the earlier keys of open mappings.
ghost use Rattle.std.specs.Prelude.{◌≡◌, ℕ, suc, List, [], ◌∷◌, Bool, false, ◌||◌, ◌&&◌, OnOk, option_copied, option_to_list};
ghost use Rattle.std.specs.List.{list_any};
ghost use Rattle.yl_events.specs.Event.{EventValue, event_value, kind_value};
ghost use Rattle.yl_tree.specs.Keys.{is_collection_start, is_collection_end, is_mapping_start, compared_value, name_of, earlier_keys};
ghost use Rattle.yl_tree.specs.OpenNodes.{OpenNodes, closed, new_collection, opened, with_node_in};
ghost use Rattle.yl_tree.specs.Frames.{Agrees, IsBehind, StandsAt};

use std::alloc::{AllocError, Allocator};
use yl_events::{Event, EventKind};
use yl_lexeme::Style;

/// What a rule remembers of the earlier keys of the open collections: enough to judge a key by
/// them. Owns what it keeps.
pub(crate) trait KeyMemory: Drop {
    /// The allocator of the keys.
    type Alloc: Allocator + Copy;

    /// Whether the first key, if it is an earlier one, conflicts with the second.
    ghost speaks_against: { List ℕ → List ℕ → Bool };

    /// Whether a remembered key of an open collection conflicts with a key. The number is that of
    /// the open collections within this one.
    ghost is_against: { Self → ℕ → List ℕ → Bool };

    /// Creates a value for one open collection, without keys.
    fn new(alloc: Self::Alloc) -> Self
    where
        Self: Sized,
        ensures { (n : ℕ) (q : List ℕ) → is_against result n q ≡ false };

    /// Opens a collection in the innermost one. The only error is out of memory.
    fn open(&mut self) -> Result<(), AllocError>
        ensures inner { OnOk result ((q : List ℕ) → is_against self.new 0 q ≡ false) }
        ensures outer { OnOk result ((n : ℕ) (q : List ℕ)
            → is_against self.new (suc n) q ≡ is_against self.old n q) };

    /// Closes the innermost collection and forgets its keys.
    fn close(&mut self)
        ensures { (n : ℕ) (q : List ℕ) → is_against self.new n q ≡ is_against self.old (suc n) q };

    /// Remembers a key of the innermost collection. The only error is out of memory.
    fn remember(&mut self, key: &str) -> Result<(), AllocError>
        ensures inner { OnOk result ((q : List ℕ) → is_against self.new 0 q
            ≡ speaks_against key.now q || is_against self.old 0 q) }
        ensures outer { OnOk result ((n : ℕ) (q : List ℕ)
            → is_against self.new (suc n) q ≡ is_against self.old (suc n) q) };

    /// Returns whether a remembered key of the innermost collection conflicts with this one.
    fn is_against(&self, key: &str) -> bool
        ensures { result ≡ is_against self.now 0 key.now };
}

/// An open collection.
#[derive(Clone, Copy)]
pub(crate) struct Frame {
    /// Whether the collection is a mapping.
    is_mapping: bool,
    /// Whether its next node is a key, if it is a mapping.
    is_key_next: bool,
}

/// The open collections after the first events of a document, and what is remembered of their keys.
#[derive(Drop)]
pub(crate) struct Walk<M, A: Allocator> {
    /// The innermost open collection. The document itself counts as a collection.
    innermost: Frame,
    /// The other open collections, the outermost first.
    outer: Vec<Frame, A>,
    /// What is remembered of the keys.
    memory: M,
}

/// Returns a collection without nodes.
fn new_frame(is_mapping: bool) -> Frame
    ensures { Agrees result (new_collection is_mapping) }
{
    Frame {
        is_mapping,
        is_key_next: true,
    }
}

/// Returns whether a key of a mapping comes next in the collection.
fn is_key_next(frame: &Frame) -> bool
    ensures { result ≡ frame.now.is_mapping && frame.now.is_key_next }
{
    frame.is_mapping && frame.is_key_next
}

/// Remembers a key of the innermost collection, if there is a name. The only error is out of
/// memory.
fn remember_some<M: KeyMemory>(memory: &mut M, name: Option<&str>) -> Result<(), AllocError>
    ensures inner { OnOk result ((q : List ℕ) → M.is_against memory.new 0 q
        ≡ list_any (λ k. M.speaks_against k q) (option_to_list (option_copied name.entry))
        || M.is_against memory.old 0 q) }
    ensures outer { OnOk result ((n : ℕ) (q : List ℕ)
        → M.is_against memory.new (suc n) q ≡ M.is_against memory.old (suc n) q) }
{
    if let Some(name) = name {
        memory.remember(name)?;
    }
    Ok(())
}

/// Takes the next node of the innermost collection. Remembers its name, if it has one and is a key.
/// The only error is out of memory.
fn add_node<M: KeyMemory>(
    walk: &mut Walk<M, M::Alloc>,
    name: Option<&str>,
) -> Result<(), AllocError>
    ensures { (s : OpenNodes) → StandsAt M.speaks_against M.is_against walk.old s
        → OnOk result (StandsAt M.speaks_against M.is_against walk.new
        (with_node_in (option_copied name.entry) s)) }
{
    let is_key = is_key_next(&walk.innermost);
    walk.innermost.is_key_next = !walk.innermost.is_key_next;
    remember_some(&mut walk.memory, if is_key { name } else { None })
}

/// Closes the innermost collection.
fn close<M: KeyMemory>(walk: &mut Walk<M, M::Alloc>)
    ensures { (s : OpenNodes) → StandsAt M.speaks_against M.is_against walk.old s
        → StandsAt M.speaks_against M.is_against walk.new (closed s) }
{
    walk.memory.close();
    walk.innermost = match walk.outer.pop() {
        Some(frame) => frame,
        None => new_frame(false),
    };
}

/// Opens a collection in the innermost one. The only error is out of memory.
fn open<M: KeyMemory>(walk: &mut Walk<M, M::Alloc>, is_mapping: bool) -> Result<(), AllocError>
    ensures { (s : OpenNodes) → StandsAt M.speaks_against M.is_against walk.old s
        → OnOk result (StandsAt M.speaks_against M.is_against walk.new (opened is_mapping s)) }
{
    walk.memory.open()?;
    walk.outer.push(walk.innermost)?;
    walk.innermost = new_frame(is_mapping);
    Ok(())
}

/// Returns whether the event ends a collection.
fn is_end(kind: &EventKind<'_>) -> bool
    ensures { result ≡ is_collection_end (kind_value kind.now) }
{
    matches!(kind, EventKind::SequenceEnd | EventKind::MappingEnd)
}

/// Returns whether the event starts a collection.
fn is_start(kind: &EventKind<'_>) -> bool
    ensures { result ≡ is_collection_start (kind_value kind.now) }
{
    matches!(kind, EventKind::SequenceStart | EventKind::MappingStart)
}

/// Returns whether the event starts a mapping.
fn is_mapping_start(kind: &EventKind<'_>) -> bool
    ensures { result ≡ is_mapping_start (kind_value kind.now) }
{
    matches!(kind, EventKind::MappingStart)
}

/// Returns the value of a plain or quoted scalar, or `None` for any other event.
pub(crate) fn name_of<'a>(event: &Event<'a>) -> Option<&'a str>
    ensures { option_copied result ≡ name_of (event_value event.now) }
{
    match event.kind {
        EventKind::Scalar(Style::Plain | Style::Single | Style::Double, value) => Some(value),
        _ => None,
    }
}

/// Creates a walk at the start of a document.
pub(crate) fn start<M: KeyMemory>(alloc: M::Alloc) -> Walk<M, M::Alloc>
    ensures { IsBehind M.speaks_against M.is_against result [] }
{
    Walk {
        innermost: new_frame(false),
        outer: Vec::new(alloc),
        memory: M::new(alloc),
    }
}

/// Takes the next event. The only error is out of memory.
pub(crate) fn step<M: KeyMemory>(
    walk: &mut Walk<M, M::Alloc>,
    event: &Event<'_>,
) -> Result<(), AllocError>
    ensures { (before : List EventValue) → IsBehind M.speaks_against M.is_against walk.old before
        → OnOk result (IsBehind M.speaks_against M.is_against walk.new
        (event_value event.now ∷ before)) }
{
    if is_end(&event.kind) {
        close(walk);
        return Ok(());
    }
    add_node(walk, name_of(event))?;
    if is_start(&event.kind) {
        open(walk, is_mapping_start(&event.kind))?;
    }
    Ok(())
}

/// Returns whether an earlier key of its mapping conflicts with this name, if a key comes next,
/// else `false`.
pub(crate) fn is_spoken_against<M: KeyMemory>(walk: &Walk<M, M::Alloc>, name: &str) -> bool
    ensures { (before : List EventValue) → IsBehind M.speaks_against M.is_against walk.now before
        → result ≡ list_any (λ key. M.speaks_against key name.now) (earlier_keys before) }
{
    if !is_key_next(&walk.innermost) {
        return false;
    }
    walk.memory.is_against(name)
}
