//! A store that keeps its rows in chunks.
ghost use Rattle.std.specs.Prelude.{◌≡◌, ◌+◌, ◌<◌, ◌^◌, length};

use crate::MOST;
use crate::chunks::Chunks;
use std::alloc::{AllocError, Allocator};
use std::marker::Model;
use yl_text::{LineStore, Lines, Row, bytes_between, bytes_of};

/// A store of the lines of a text in chunks of 1 to `MOST` rows, with their number of bytes.
#[derive(Drop)]
pub struct ChunkStore<A: Allocator> {
    rows: Chunks<Row<A>, A>,
    bytes: u64,
}

impl<A: Allocator> Model for ChunkStore<A> {
    ghost use Rattle.std.specs.Prelude.{List, ◌≡◌, length};
    ghost use Rattle.yl_text.specs.Lines.{RowValue, text_of};
    ghost use Rattle.yl_text.specs.Store.{AreLines};

    ghost Value = { List RowValue };

    ghost view = { λ s. s.rows.items };

    ghost invariant = { λ s. AreLines s.rows.items × (s.bytes ≡ length (text_of s.rows.items)) };
}

impl<A: Allocator + Copy> ChunkStore<A> {
    ghost use Rattle.std.specs.Prelude.{◌≤◌};

    /// Returns the number of rows of the smallest chunk, which shows how well the chunks are
    /// filled.
    pub fn fewest(&self) -> usize
        ensures { result ≤ MOST }
    {
        self.rows.fewest()
    }
}

impl<A: Allocator + Copy> Lines for ChunkStore<A> {
    type Alloc = A;

    ghost rows = { λ s. s };

    fn len(&self) -> usize {
        self.rows.len()
    }

    fn row(&self, i: usize) -> &Row<A> {
        self.rows.get(i)
    }

    fn rows_from(&self, i: usize) -> &[Row<A>] {
        self.rows.items_from(i)
    }
}

impl<A: Allocator + Copy> LineStore for ChunkStore<A> {
    fn from_rows(rows: &mut Vec<Row<A>, A>) -> Result<ChunkStore<A>, AllocError> {
        let bytes = bytes_of(rows);
        let mut chunks = Chunks::new(*rows.allocator());
        chunks.splice(0, 0, rows)?;
        Ok(ChunkStore {
            rows: chunks,
            bytes,
        })
    }

    fn bytes(&self) -> u64 {
        self.bytes
    }

    fn splice(&mut self, a: usize, b: usize, rows: &mut Vec<Row<A>, A>) -> Result<(), AllocError> {
        let bytes = self.bytes - bytes_between(self, a, b) + bytes_of(rows);
        self.rows.splice(a, b, rows)?;
        self.bytes = bytes;
        Ok(())
    }
}
