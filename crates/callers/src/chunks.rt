//! `yl_chunks`: a store of lines whose edits cost little, however long the text is.

ghost use Rattle.std.specs.Prelude.{IfOk};
ghost use Rattle.yl_text.specs.Lines.{IsLines};

use std::alloc::Allocator;
use yl_chunks::ChunkStore;
use yl_text::{LineStore, TextFault, split};

/// A store of the lines of a text.
pub fn stored<A: Allocator + Copy>(alloc: A, bytes: &[u8]) -> Result<ChunkStore<A>, TextFault>
    ensures { IfOk result (λ store. IsLines bytes.now store) }
{
    let mut rows = split(alloc, bytes)?;
    ChunkStore::from_rows(&mut rows).map_err(|_| TextFault::Memory)
}
