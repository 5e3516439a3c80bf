//! Edits of texts by both stores, against the lines of the edited text.

use crate::stores::{Heap, edit, opened};
use std::alloc::{AllocError, Allocator, Global};
use yl_chunks::ChunkStore;
use yl_text::{LineStore, Lines, PlainStore, Pos, Row, TextFault, are_one_place, split};

// Returns the text with these bytes in place of the bytes `p..q`. The only error is out of memory.
fn replaced(
    alloc: Global,
    text: &[u8],
    p: usize,
    q: usize,
    bytes: &[u8],
) -> Result<Vec<u8>, AllocError> {
    let mut whole = Vec::new(alloc);
    whole.extend_from_slice(text.get(..p).unwrap_or_default())?;
    whole.extend_from_slice(bytes)?;
    whole.extend_from_slice(text.get(q..).unwrap_or_default())?;
    Ok(whole)
}

/// Returns `true` if these are the rows of the lines.
pub(crate) fn shows<S: Lines, A: Allocator>(lines: &S, rows: &[Row<A>]) -> bool {
    if lines.len() != rows.len() {
        return false;
    }
    for (i, row) in rows.iter().enumerate() {
        if lines.row(i).as_str() != row.as_str() || lines.row(i).end() != row.end() {
            return false;
        }
    }
    true
}

// Returns `true` if a store of a text says as `are_one` does whether the two positions are one, and
// shows the text `whole` after an edit between them.
fn has_rows<'a, S: LineStore<Alloc = Heap<'a>>>(
    heap: Heap<'a>,
    text: &str,
    places: (Pos, Pos),
    are_one: bool,
    bytes: &str,
    whole: &[u8],
) -> Result<bool, TextFault> {
    let (from, to) = places;
    let mut store: S = opened(heap, text.as_bytes())?;
    store.check(from, to, b"")?;
    let is_told = are_one_place(&store, from, to) == are_one;
    let is_made = edit(heap, &mut store, from, to, bytes.as_bytes())?;
    let rows = split(heap, whole)?;
    let is_whole = store.bytes() == whole.len() as u64 && shows(&store, rows.as_slice());
    Ok(is_told && is_made && is_whole)
}

/// Makes an edit that has no fault with both stores. It replaces the bytes of a range, which are
/// between these two positions. Returns `true` if both stores show the edited text, and say rightly
/// whether the positions are one.
pub(crate) fn is_edited(
    alloc: Global,
    heap: Heap<'_>,
    text: &str,
    range: (usize, usize),
    places: (Pos, Pos),
    bytes: &str,
) -> Result<bool, TextFault> {
    let (p, q) = range;
    let Ok(whole) = replaced(alloc, text.as_bytes(), p, q, bytes.as_bytes()) else {
        return Err(TextFault::Memory);
    };
    let (one, whole) = (p == q, whole.as_slice());
    let plain = has_rows::<PlainStore<Heap<'_>>>(heap, text, places, one, bytes, whole)?;
    let chunks = has_rows::<ChunkStore<Heap<'_>>>(heap, text, places, one, bytes, whole)?;
    Ok(plain && chunks)
}
