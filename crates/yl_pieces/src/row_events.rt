//! The events of a row of a piece.
ghost use Rattle.std.specs.Prelude.{◌≡◌, ◌<◌, length, map, Some, slice_get};
ghost use Rattle.yl_events.specs.Event.{event_value};
ghost use Rattle.yl_events.specs.Seen.{event_seen};

use std::alloc::Allocator;
use std::marker::Model;
use yl_events::{Event, LineLexemes, Outline};

/// A view of the events of a row. An anchor of an earlier row has an empty name.
#[derive(Drop)]
pub struct RowEvents<'n, A: Allocator> {
    /// The lexemes of the row.
    lexemes: LineLexemes<'n, A>,
    /// What the parser tells of them.
    outlines: &'n [Outline],
}

impl<'n, A: Allocator> Model for RowEvents<'n, A> {
    ghost use Rattle.std.specs.Prelude.{List, map};
    ghost use Rattle.yl_events.specs.Event.{EventValue};
    ghost use Rattle.yl_events.specs.Seen.{event_seen};

    ghost Value = { List EventValue };

    ghost view = { λ e. map (event_seen e.lexemes) e.outlines.now };
}

impl<'n, A: Allocator> RowEvents<'n, A> {
    /// Creates a view of the events of these outlines, which name these lexemes. Does not allocate.
    pub(crate) fn new(lexemes: LineLexemes<'n, A>, outlines: &'n [Outline]) -> RowEvents<'n, A>
        ensures { result ≡ map (event_seen lexemes.entry) outlines.now }
    {
        RowEvents { lexemes, outlines }
    }

    /// Returns the number of events.
    pub fn len(&self) -> usize
        ensures { result ≡ length self.now }
    {
        self.outlines.len()
    }

    /// Returns the event with this index.
    pub fn get(&self, i: usize) -> Event<'n>
        requires { i < length self.now }
        ensures { slice_get self.now i ≡ Some (event_value result) }
    {
        self.lexemes.event_of(&self.outlines[i])
    }
}
