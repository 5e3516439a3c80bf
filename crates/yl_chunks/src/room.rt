//! Allocates for an edit before the list changes.
ghost use Rattle.std.specs.Prelude.{◌≡◌, ◌+◌, ◌-◌, ◌*◌, ◌^◌, ◌<◌, ◌≤◌, All, length, map, vec_len, vec_capacity, slice_get, Some, IfOk, OnOk};
ghost use Rattle.yl_chunks.specs.Chunks.{items_of, HasRoom, AreChunks, IsPlace, HasFresh, IsPrepared, left_with, room_of, in_list};

use crate::MOST;
use crate::places::{Place, Starts};
use std::alloc::{AllocError, Allocator};

/// Empty chunks, and a `Vec` that takes all items at once before they are cut into the chunks.
#[derive(Drop)]
pub(crate) struct Fresh<T, A: Allocator> {
    /// An empty `Vec` with capacity for the old items and the new ones.
    pub items: Vec<T, A>,
    /// The empty chunks.
    pub chunks: Vec<Vec<T, A>, A>,
}

/// Room for replacing the items of a place by `count` items: in empty chunks, or else in the one
/// chunk of the place.
#[derive(Drop)]
pub(crate) struct Prepared<T, A: Allocator> {
    /// The place of the items that are replaced.
    pub place: Place,
    /// The number of items that replace them.
    pub count: usize,
    /// The empty chunks, or `None` if the items are replaced within one chunk.
    pub fresh: Option<Fresh<T, A>>,
}

/// Returns `count` empty chunks, each with capacity for `capacity` items. The only error is out of
/// memory.
fn empty_chunks<T: Drop, A: Allocator + Copy>(
    alloc: A,
    count: usize,
    capacity: usize,
) -> Result<Vec<Vec<T, A>, A>, AllocError>
    ensures len { IfOk result (λ chunks. vec_len chunks ≡ count) }
    ensures room { IfOk result (λ chunks. All (HasRoom capacity) chunks.items) }
{
    let mut chunks = Vec::with_capacity(alloc, count)?;
    for _ in 0..count {
        chunks.push_reserved(Vec::with_capacity(alloc, capacity)?);
    }
    Ok(chunks)
}

/// Returns the number of chunks into which so many items are cut.
fn chunk_count(items: usize) -> usize
    ensures enough { result ≤ items }
    ensures few { items ≤ MOST * result }
{
    items.div_ceil(MOST)
}

/// Reserves capacity for `count` more items in chunk `j`. The only error is out of memory.
fn prepare_chunk<T: Drop, A: Allocator>(
    chunks: &mut Vec<Vec<T, A>, A>,
    j: usize,
    count: usize,
) -> Result<(), AllocError>
    requires within { j < vec_len chunks.old }
    requires few { length (items_of chunks.old.items) + count < 2 ^ 64 }
    ensures same { map (λ c. c.items) chunks.new.items ≡ map (λ c. c.items) chunks.old.items }
    ensures room { OnOk result ((c : _) → slice_get chunks.new.items j ≡ Some c → vec_len c + count ≤ vec_capacity c) }
{
    chunks[j].try_reserve(count)
}

/// Makes empty chunks for the items that the chunks of the place have after `count` items replace
/// those of the place. Also reserves capacity for these chunks and their offsets in the list. The
/// only error is out of memory.
fn prepare_fresh<T: Drop, A: Allocator + Copy>(
    chunks: &mut Vec<Vec<T, A>, A>,
    places: &mut Vec<usize, A>,
    place: Place,
    count: usize,
) -> Result<Fresh<T, A>, AllocError>
    requires place { IsPlace chunks.old.items place }
    requires few { length (items_of chunks.old.items) + count < 2 ^ 64 }
    requires counted { vec_len places.old ≡ vec_len chunks.old }
    ensures chunks { chunks.new.items ≡ chunks.old.items }
    ensures places { places.new.items ≡ places.old.items }
    ensures fresh { IfOk result (λ fresh. HasFresh chunks.new places.new place count fresh) }
{
    let alloc = *chunks.allocator();
    let left = place.left(count);
    let items = Vec::with_capacity(alloc, place.count + count)?;
    let fresh = empty_chunks(alloc, chunk_count(left), MOST.min(left))?;
    chunks.try_reserve(fresh.len())?;
    places.try_reserve(fresh.len())?;
    Ok(Fresh {
        items,
        chunks: fresh,
    })
}

/// Makes room for replacing the items of the place by `count` items: within its chunk if it has one
/// chunk, which is left with 1 to `MOST` items, else in empty chunks. Leaves the items as they are.
/// The only error is out of memory.
pub(crate) fn prepare<T: Drop, A: Allocator + Copy>(
    chunks: &mut Vec<Vec<T, A>, A>,
    starts: &mut Starts<A>,
    place: Place,
    count: usize,
) -> Result<Prepared<T, A>, AllocError>
    requires chunks { AreChunks chunks.old.items starts.old }
    requires place { IsPlace chunks.old.items place }
    requires few { length (items_of chunks.old.items) + count < 2 ^ 64 }
    ensures items { items_of chunks.new.items ≡ items_of chunks.old.items }
    ensures chunks { AreChunks chunks.new.items starts.new }
    ensures prepared { IfOk result (λ r. IsPrepared chunks.new starts.new.places r) }
    ensures room { IfOk result (λ r. room_of chunks.new.items (Some r) ≡ Some (record {
      a = in_list chunks.old.items place place.a;
      b = in_list chunks.old.items place place.b;
      count = count;
    })) }
{
    let left = place.left(count);
    if place.end - place.first == 1 && 0 < left && left <= MOST {
        prepare_chunk(chunks, place.first, count)?;
        return Ok(Prepared {
            place,
            count,
            fresh: None,
        });
    }
    let fresh = prepare_fresh(chunks, &mut starts.places, place, count)?;
    Ok(Prepared {
        place,
        count,
        fresh: Some(fresh),
    })
}
