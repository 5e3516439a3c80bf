//! The document of a configuration.

use std::alloc::Allocator;
use yl_events::Event;
use yl_text::Row;

/// The document of a configuration.
#[derive(Drop)]
pub struct Document<'a, 'b, A: Allocator> {
    /// The allocator of everything that is read from the document.
    pub alloc: A,
    /// The lines of the text.
    pub rows: &'a [Row<A>],
    /// The events of the document.
    pub events: &'a [Event<'b>],
}
