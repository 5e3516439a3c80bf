//! The places of items in chunks, and the offsets at which chunks begin.
ghost use Rattle.std.specs.Prelude.{◌≡◌, ◌+◌, ◌^◌, ◌<◌, ◌≤◌};
ghost use Rattle.yl_text.specs.Store.{IsRange};
ghost use Rattle.yl_chunks.specs.Chunks.{left_with};

use crate::MOST;
use std::alloc::Allocator;

/// A range of a list within its chunks: the items `a..b` of the `count` items that the chunks
/// `first..end` have.
#[derive(Clone, Copy)]
pub(crate) struct Place {
    /// The first chunk.
    pub first: usize,
    /// The chunk after the last one.
    pub end: usize,
    /// The number of items that these chunks have.
    pub count: usize,
    /// The first item of the range, counted from the first item of the chunks.
    pub a: usize,
    /// The item after the last one of the range, counted from the first item of the chunks.
    pub b: usize,
}

impl Place {
    /// Returns the number of items of the chunks after `count` items replace those of the range.
    pub fn left(self, count: usize) -> usize
        requires range { IsRange self.a self.b self.count }
        requires few { self.count + count < 2 ^ 64 }
        ensures { result ≡ left_with self count }
    {
        self.count - (self.b - self.a) + count
    }
}

/// The offsets at which the chunks of a list begin, and its number of items. The offset of a chunk
/// before `turned` counts the items before this chunk, and that of any other chunk counts the items
/// from the chunk on. So an edit within the last chunk before `turned` changes `len` alone.
#[derive(Drop)]
pub(crate) struct Starts<A: Allocator> {
    /// The offset of each chunk.
    pub places: Vec<usize, A>,
    /// The first chunk whose offset counts the items from it on, or the number of chunks.
    pub turned: usize,
    /// The number of items in the list.
    pub len: usize,
}

/// Returns the range of chunks `first..end`, with a chunk next to it if fewer than `MOST / 4` items
/// are left in it: the chunk before it, or else the chunk after it.
pub(crate) fn joined(chunks: usize, first: usize, end: usize, left: usize) -> (usize, usize)
    requires { end ≤ chunks }
    ensures first { result.0 ≤ first }
    ensures end { end ≤ result.1 }
    ensures within { result.1 ≤ chunks }
{
    if left >= MOST / 4 {
        (first, end)
    } else if first > 0 {
        (first - 1, end)
    } else if end < chunks {
        (first, end + 1)
    } else {
        (first, end)
    }
}
