//! A list in chunks.
ghost use Rattle.std.specs.Prelude.{◌≡◌, ◌+◌, ◌^◌, ◌<◌, ◌≤◌, [], drop, length, slice_get, take, vec_len, Some, IfOk, OnOk, OnErr};
ghost use Rattle.std.specs.List.{splice};
ghost use Rattle.yl_text.specs.Store.{IsRange};

use crate::MOST;
use crate::counting::{last_start, place_of, start_of};
use crate::places::Starts;
use crate::room::{Prepared, prepare};
use crate::spreading::put;
use std::alloc::{AllocError, Allocator};
use std::marker::Model;

/// A list of items, stored in chunks of 1 to `MOST` items. In contracts it is the list, and the
/// room that is made for an edit of it, if any.
///
/// An item is looked for first in the chunk that contains it if all chunks before it are full, and
/// in the next one. Otherwise it is found by a binary search over the offsets at which the chunks
/// begin, of 8 bytes each.
///
/// An edit within one chunk that leaves it with `MOST / 4` to `MOST` items moves only items of this
/// chunk. It also changes the offsets of the chunks between this one and that of the last such
/// edit, or the end of the list if chunks were made anew since. So edits near one another change
/// few offsets. Most other edits make the chunks that they touch anew, and count all offsets again.
/// A chunk that is left with fewer than `MOST / 4` items is joined with one next to it, if there is
/// one.
///
/// `splice` makes an edit in one call. `make_room` and `fill_room` make it in two, so that several
/// lists can change together: the first does all allocations and leaves the items as they are, and
/// the second does not allocate. Room is kept until the next edit, or the next call of `make_room`.
#[derive(Drop)]
pub struct Chunks<T, A: Allocator> {
    chunks: Vec<Vec<T, A>, A>,
    starts: Starts<A>,
    room: Option<Prepared<T, A>>,
}

impl<T, A: Allocator> Model for Chunks<T, A> {
    ghost use Rattle.yl_chunks.specs.Chunks.{ListValue};

    ghost Value = { ListValue T };

    ghost use Rattle.yl_chunks.specs.Chunks.{items_of, room_of, AreChunks, IsPreparedIfAny};

    ghost view = { λ c. record { items = items_of c.chunks.items; room = room_of c.chunks.items c.room } };

    ghost invariant = { λ c. AreChunks c.chunks.items c.starts × IsPreparedIfAny c.chunks c.starts.places c.room };
}

impl<T: Drop, A: Allocator + Copy> Chunks<T, A> {
    /// Creates an empty list. Does not allocate.
    pub fn new(alloc: A) -> Chunks<T, A>
        ensures { result.items ≡ [] }
    {
        Chunks {
            chunks: Vec::new(alloc),
            starts: Starts {
                places: Vec::new(alloc),
                turned: 0,
                len: 0,
            },
            room: None,
        }
    }

    /// Returns the number of items.
    pub fn len(&self) -> usize
        ensures { result ≡ length self.now.items }
    {
        self.starts.len
    }

    /// Returns the number of items of the smallest chunk, or `MOST` if there is no chunk. It shows
    /// how well the chunks are filled.
    pub fn fewest(&self) -> usize
        ensures { result ≤ MOST }
    {
        let mut fewest = MOST;
        for chunk in &self.chunks {
            fewest = fewest.min(chunk.len());
        }
        fewest
    }

    /// Returns the item at the index `i`, counted from 0. Does not allocate.
    pub fn get(&self, i: usize) -> &T
        requires { i < length self.now.items }
        ensures { slice_get self.now.items i ≡ Some result.now }
    {
        let j = last_start(&self.chunks, &self.starts, i);
        let start = start_of(&self.chunks, &self.starts, j);
        &self.chunks[j][i - start]
    }

    /// Returns the item at the index `i`, counted from 0, and the items after it in its chunk. Does
    /// not allocate.
    pub fn items_from(&self, i: usize) -> &[T]
        requires { i < length self.now.items }
        ensures some { 0 < length result.now }
        ensures items { take (length result.now) (drop i self.now.items) ≡ result.now }
    {
        let j = last_start(&self.chunks, &self.starts, i);
        let start = start_of(&self.chunks, &self.starts, j);
        let (_, items) = self.chunks[j].split_at(i - start);
        items
    }

    /// Replaces the items `a..b`, counted from 0, by the items of `new`, and leaves `new` empty.
    /// Room that was made is released. The only error is out of memory: then the items of the list
    /// and of `new` are unchanged.
    pub fn splice(&mut self, a: usize, b: usize, new: &mut Vec<T, A>) -> Result<(), AllocError>
        requires range { IsRange a b (length self.old.items) }
        requires few { length self.old.items + vec_len new.old < 2 ^ 64 }
        ensures ok { OnOk result (self.new.items ≡ splice self.old.items a b new.old.items) }
        ensures taken { OnOk result (new.new.items ≡ []) }
        ensures err { OnErr result (self.new.items ≡ self.old.items) }
        ensures back { OnErr result (new.new.items ≡ new.old.items) }
    {
        self.room = None;
        let place = place_of(&self.chunks, &self.starts, a, b, new.len());
        let prepared = prepare(&mut self.chunks, &mut self.starts, place, new.len())?;
        put(&mut self.chunks, &mut self.starts, prepared, new);
        Ok(())
    }

    /// Makes room for replacing the items `a..b`, counted from 0, by `count` items with
    /// `fill_room`. Leaves the items as they are. Room that was made before is released, also after
    /// an error. The only error is out of memory.
    pub fn make_room(&mut self, a: usize, b: usize, count: usize) -> Result<(), AllocError>
        requires range { IsRange a b (length self.old.items) }
        requires few { length self.old.items + count < 2 ^ 64 }
        ensures items { self.new.items ≡ self.old.items }
        ensures room { OnOk result (self.new.room ≡ Some (record { a = a; b = b; count = count })) }
    {
        self.room = None;
        let place = place_of(&self.chunks, &self.starts, a, b, count);
        let prepared = prepare(&mut self.chunks, &mut self.starts, place, count)?;
        self.room = Some(prepared);
        Ok(())
    }

    /// Replaces the items `a..b`, counted from 0, by the items of `new`, and leaves `new` empty.
    /// Room was made for as many items in place of the same ones. Does not allocate.
    pub fn fill_room(&mut self, a: usize, b: usize, new: &mut Vec<T, A>)
        requires room { self.old.room ≡ Some (record { a = a; b = b; count = vec_len new.old }) }
        ensures items { self.new.items ≡ splice self.old.items a b new.old.items }
        ensures taken { new.new.items ≡ [] }
    {
        let _ = (a, b);
        let prepared = self.room.take().unwrap();
        put(&mut self.chunks, &mut self.starts, prepared, new);
    }
}
