//! Finds the chunks that contain items of a list.
ghost use Rattle.std.specs.Prelude.{◌≡◌, ◌+◌, ◌-◌, ◌^◌, ◌<◌, ◌≤◌, ℕ, length, take, true, vec_capacity};
ghost use Rattle.yl_text.specs.Store.{IsRange};
ghost use Rattle.yl_chunks.specs.Chunks.{items_of, AreStarts, IsPlace, in_list};

use crate::MOST;
use crate::places::{Place, Starts, joined};
use std::alloc::Allocator;

/// Counts the offsets at which the chunks begin, in place of the old ones. `starts` has capacity
/// for them.
pub(crate) fn count_starts<T, A: Allocator>(chunks: &[Vec<T, A>], starts: &mut Starts<A>)
    requires few { length (items_of chunks.now) < 2 ^ 64 }
    requires room { length chunks.now ≤ vec_capacity starts.old.places }
    ensures { AreStarts chunks.now starts.new }
{
    starts.places.clear();
    let mut start = 0;
    for chunk in chunks {
        starts.places.push_reserved(start);
        start += chunk.len();
    }
    starts.turned = chunks.len();
    starts.len = start;
}

/// Returns the number of items before chunk `j`, or of all items if `j` is the number of chunks.
#[inline]
pub(crate) fn start_of<T, A: Allocator>(chunks: &[Vec<T, A>], starts: &Starts<A>, j: usize) -> usize
    requires starts { AreStarts chunks.now starts.now }
    requires within { j ≤ length chunks.now }
    ensures { result ≡ length (items_of (take j chunks.now)) }
{
    if j >= chunks.len() {
        starts.len
    } else if j < starts.turned {
        starts.places[j]
    } else {
        starts.len - starts.places[j]
    }
}

/// The number of chunks that are searched, from the first one that can contain an item on.
const NEAR: usize = 8;

/// Returns the range of chunks that `search` looks through: the first chunk, and the one after the
/// last. It has at most `NEAR` chunks if the chunks before item `i` have about `MOST` items each,
/// as most lists do.
fn near<T, A: Allocator>(chunks: &[Vec<T, A>], starts: &Starts<A>, i: usize) -> (usize, usize)
    requires starts { AreStarts chunks.now starts.now }
    requires some { 0 < length chunks.now }
    ensures ordered { result.0 < result.1 }
    ensures within { result.1 ≤ length chunks.now }
    ensures least { length (items_of (take result.0 chunks.now)) ≤ i }
    ensures most { result.1 < length chunks.now → i < length (items_of (take result.1 chunks.now)) }
{
    let first = i / MOST;
    if first >= chunks.len() || start_of(chunks, starts, first) > i {
        return (0, chunks.len());
    }
    if chunks.len() - first > NEAR && i < start_of(chunks, starts, first + NEAR) {
        return (first, first + NEAR);
    }
    (first, chunks.len())
}

/// Returns the last chunk that has at most `i` items before it. Finds it by a binary search.
fn search<T, A: Allocator>(chunks: &[Vec<T, A>], starts: &Starts<A>, i: usize) -> usize
    requires starts { AreStarts chunks.now starts.now }
    requires some { 0 < length chunks.now }
    ensures within { result < length chunks.now }
    ensures least { length (items_of (take result chunks.now)) ≤ i }
    ensures most { result + 1 < length chunks.now → i < length (items_of (take (result + 1) chunks.now)) }
{
    let (mut low, mut high) = near(chunks, starts, i);
    while high - low > 1 {
        let middle = low + (high - low) / 2;
        if start_of(chunks, starts, middle) <= i {
            low = middle;
        } else {
            high = middle;
        }
    }
    low
}

/// Returns whether chunk `j` is the last one that has at most `i` items before it.
#[inline]
fn is_last_start<T, A: Allocator>(
    chunks: &[Vec<T, A>],
    starts: &Starts<A>,
    j: usize,
    i: usize,
) -> bool
    requires starts { AreStarts chunks.now starts.now }
    ensures within { result ≡ true → j < length chunks.now }
    ensures least { result ≡ true → length (items_of (take j chunks.now)) ≤ i }
    ensures most { result ≡ true → j + 1 < length chunks.now → i < length (items_of (take (j + 1) chunks.now)) }
{
    if j >= chunks.len() || start_of(chunks, starts, j) > i {
        return false;
    }
    j + 1 == chunks.len() || i < start_of(chunks, starts, j + 1)
}

/// Returns the last chunk that has at most `i` items before it. Finds it without a search if all
/// chunks before it are full, or if one of them was cut in two.
#[inline]
pub(crate) fn last_start<T, A: Allocator>(
    chunks: &[Vec<T, A>],
    starts: &Starts<A>,
    i: usize,
) -> usize
    requires starts { AreStarts chunks.now starts.now }
    requires some { 0 < length chunks.now }
    ensures within { result < length chunks.now }
    ensures least { length (items_of (take result chunks.now)) ≤ i }
    ensures most { result + 1 < length chunks.now → i < length (items_of (take (result + 1) chunks.now)) }
{
    let guess = i / MOST;
    if is_last_start(chunks, starts, guess, i) {
        return guess;
    }
    if is_last_start(chunks, starts, guess + 1, i) {
        return guess + 1;
    }
    search(chunks, starts, i)
}

/// Returns the range of the chunks that contain the items `a..b`: the first chunk, and the one
/// after the last. If `a` and `b` are equal, it has one chunk: the last one with at most `a` items
/// before it.
fn touched<T, A: Allocator>(
    chunks: &[Vec<T, A>],
    starts: &Starts<A>,
    a: usize,
    b: usize,
) -> (usize, usize)
    requires starts { AreStarts chunks.now starts.now }
    requires some { 0 < length chunks.now }
    requires ordered { a ≤ b }
    ensures ordered { result.0 < result.1 }
    ensures within { result.1 ≤ length chunks.now }
    ensures start { length (items_of (take result.0 chunks.now)) ≤ a }
    ensures end { result.1 < length chunks.now → b ≤ length (items_of (take result.1 chunks.now)) }
{
    let first = last_start(chunks, starts, a);
    if a == b {
        return (first, first + 1);
    }
    (first, last_start(chunks, starts, b - 1) + 1)
}

/// Returns the place of the items `a..b`, counted from 0. It includes a chunk next to theirs if few
/// items would be left after `put` items replace them.
pub(crate) fn place_of<T, A: Allocator>(
    chunks: &[Vec<T, A>],
    starts: &Starts<A>,
    a: usize,
    b: usize,
    put: usize,
) -> Place
    requires starts { AreStarts chunks.now starts.now }
    requires range { IsRange a b (length (items_of chunks.now)) }
    requires few { length (items_of chunks.now) + put < 2 ^ 64 }
    ensures place { IsPlace chunks.now result }
    ensures from { in_list chunks.now result result.a ≡ a }
    ensures to { in_list chunks.now result result.b ≡ b }
{
    if chunks.is_empty() {
        return Place {
            first: 0,
            end: 0,
            count: 0,
            a: 0,
            b: 0,
        };
    }
    let (first, end) = touched(chunks, starts, a, b);
    let old = start_of(chunks, starts, end) - start_of(chunks, starts, first);
    let (first, end) = joined(chunks.len(), first, end, old - (b - a) + put);
    let start = start_of(chunks, starts, first);
    Place {
        first,
        end,
        count: start_of(chunks, starts, end) - start,
        a: a - start,
        b: b - start,
    }
}
