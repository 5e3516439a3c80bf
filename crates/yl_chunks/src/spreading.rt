//! Puts items in place of others, within one chunk or in chunks that are made anew. All capacity
//! was reserved before, so nothing here allocates.
ghost use Rattle.std.specs.Prelude.{◌≡◌, ◌+◌, ◌^◌, ◌<◌, [], length, vec_len};
ghost use Rattle.yl_chunks.specs.Chunks.{items_of, AreChunks, IsPlace, HasChunk, HasFresh, IsPrepared, put_at};

use crate::counting::count_starts;
use crate::cutting::{cut, gather};
use crate::places::{Place, Starts};
use crate::room::{Fresh, Prepared};
use crate::turning::turn;
use std::alloc::Allocator;
use yl_text::put_between;

/// Replaces the items of the place by the new ones, in the empty chunks, and counts all offsets
/// again. Leaves `new` empty.
fn put_in_fresh<T: Drop, A: Allocator>(
    chunks: &mut Vec<Vec<T, A>, A>,
    starts: &mut Starts<A>,
    place: Place,
    fresh: Fresh<T, A>,
    new: &mut Vec<T, A>,
)
    requires chunks { AreChunks chunks.old.items starts.old }
    requires place { IsPlace chunks.old.items place }
    requires few { length (items_of chunks.old.items) + vec_len new.old < 2 ^ 64 }
    requires fresh { HasFresh chunks.old starts.old.places place (vec_len new.old) fresh }
    ensures items { items_of chunks.new.items ≡ put_at chunks.old.items place new.old.items }
    ensures taken { new.new.items ≡ [] }
    ensures chunks { AreChunks chunks.new.items starts.new }
{
    let Fresh {
        mut items,
        chunks: mut fresh,
    } = fresh;
    gather(chunks, place.first, place.end, &mut items);
    put_between(&mut items, place.a, place.b, new);
    cut(&mut items, &mut fresh);
    put_between(chunks, place.first, place.end, &mut fresh);
    count_starts(chunks, starts);
}

/// Replaces the items of the place by the new ones, within its one chunk, and leaves `new` empty.
/// No other chunk changes.
fn put_in_chunk<T: Drop, A: Allocator>(
    chunks: &mut Vec<Vec<T, A>, A>,
    starts: &mut Starts<A>,
    place: Place,
    new: &mut Vec<T, A>,
)
    requires chunks { AreChunks chunks.old.items starts.old }
    requires place { IsPlace chunks.old.items place }
    requires few { length (items_of chunks.old.items) + vec_len new.old < 2 ^ 64 }
    requires chunk { HasChunk chunks.old.items place (vec_len new.old) }
    ensures items { items_of chunks.new.items ≡ put_at chunks.old.items place new.old.items }
    ensures taken { new.new.items ≡ [] }
    ensures chunks { AreChunks chunks.new.items starts.new }
{
    turn(chunks, starts, place.end);
    starts.len = starts.len - (place.b - place.a) + new.len();
    put_between(&mut chunks[place.first], place.a, place.b, new);
}

/// Replaces the items of the prepared place by the items of `new`, and leaves `new` empty. `new`
/// has as many items as the room is for.
pub(crate) fn put<T: Drop, A: Allocator>(
    chunks: &mut Vec<Vec<T, A>, A>,
    starts: &mut Starts<A>,
    prepared: Prepared<T, A>,
    new: &mut Vec<T, A>,
)
    requires chunks { AreChunks chunks.old.items starts.old }
    requires prepared { IsPrepared chunks.old starts.old.places prepared }
    requires count { prepared.count ≡ vec_len new.old }
    ensures items { items_of chunks.new.items ≡ put_at chunks.old.items prepared.place new.old.items }
    ensures taken { new.new.items ≡ [] }
    ensures chunks { AreChunks chunks.new.items starts.new }
{
    let Prepared {
        place,
        count: _,
        fresh,
    } = prepared;
    match fresh {
        Some(fresh) => put_in_fresh(chunks, starts, place, fresh, new),
        None => put_in_chunk(chunks, starts, place, new),
    }
}
