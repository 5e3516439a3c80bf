//! Writes views of a text.
use std::alloc::{Allocator, Global};
use std::io::Write;
use yl_dump::{DumpFault, write_events, write_lexemes, write_lines};
use yl_text::MAX_BYTES;

/// A view of a text.
#[derive(Clone, Copy)]
pub enum PrintedView {
    /// The lexemes and the comments.
    Lexemes,
    /// The events.
    Events,
    /// The states of the lines.
    Lines,
}

/// Writes a view of a text.
pub fn write_view<A: Allocator + Copy, W: Write + Drop>(
    alloc: A,
    view: PrintedView,
    text: &str,
    mut out: W,
) -> Result<(), DumpFault> {
    if text.len() > MAX_BYTES {
        return Err(DumpFault::Memory);
    }
    match view {
        PrintedView::Lexemes => write_lexemes(alloc, text, &mut out),
        PrintedView::Events => write_events(alloc, text, &mut out),
        PrintedView::Lines => write_lines(alloc, text, &mut out),
    }
}

/// Returns the printed lines of a view.
pub fn shown(alloc: Global, view: PrintedView, text: &str) -> Result<String, DumpFault> {
    let mut bytes = Vec::new(alloc);
    write_view(alloc, view, text, &mut bytes)?;
    match String::from_utf8(bytes) {
        Ok(text) => Ok(text),
        Err(_) => Err(DumpFault::Write),
    }
}
