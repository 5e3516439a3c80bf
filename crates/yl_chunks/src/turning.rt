//! Changes offsets that count the items before a chunk into those that count the items from it on,
//! and back.
ghost use Rattle.std.specs.Prelude.{◌≡◌, ◌≤◌, length};
ghost use Rattle.yl_chunks.specs.Chunks.{ArePlaces, AreStarts};

use crate::places::Starts;
use std::alloc::Allocator;

/// Changes the offsets of the chunks `turned..to`, so that those before `to` count the items before
/// their chunks.
fn turn_on<T, A: Allocator>(
    chunks: &[Vec<T, A>],
    places: &mut [usize],
    len: usize,
    turned: usize,
    to: usize,
)
    requires places { ArePlaces chunks.now places.old turned len }
    requires ordered { turned ≤ to }
    requires within { to ≤ length chunks.now }
    ensures { ArePlaces chunks.now places.new to len }
{
    let _ = chunks;
    for k in turned..to {
        places[k] = len - places[k];
    }
}

/// Changes the offsets of the chunks `to..turned`, so that those from `to` on count the items from
/// their chunks on.
fn turn_back<T, A: Allocator>(
    chunks: &[Vec<T, A>],
    places: &mut [usize],
    len: usize,
    turned: usize,
    to: usize,
)
    requires places { ArePlaces chunks.now places.old turned len }
    requires ordered { to ≤ turned }
    ensures { ArePlaces chunks.now places.new to len }
{
    let _ = chunks;
    let mut k = turned;
    while k > to {
        k -= 1;
        places[k] = len - places[k];
    }
}

/// Sets `turned` to `to`, and changes the offsets of the chunks between the two.
pub(crate) fn turn<T, A: Allocator>(chunks: &[Vec<T, A>], starts: &mut Starts<A>, to: usize)
    requires starts { AreStarts chunks.now starts.old }
    requires within { to ≤ length chunks.now }
    ensures starts { AreStarts chunks.now starts.new }
    ensures turned { starts.new.turned ≡ to }
{
    if starts.turned < to {
        turn_on(chunks, &mut starts.places, starts.len, starts.turned, to);
    } else {
        turn_back(chunks, &mut starts.places, starts.len, starts.turned, to);
    }
    starts.turned = to;
}
