//! Moves items from chunk to chunk. All capacity was reserved before, so nothing here allocates.
ghost use Rattle.std.specs.Prelude.{◌≡◌, ◌+◌, ◌-◌, ◌*◌, ◌^◌, ◌<◌, ◌≤◌, ℕ, [], ◌++◌, All, length, take, drop, min, vec_len, vec_capacity};
ghost use Rattle.yl_chunks.specs.Chunks.{items_of, IsFilled};

use crate::MOST;
use std::alloc::Allocator;

/// Moves the last `count` items into `to`, in the same order. `to` is empty and has capacity for
/// them.
fn move_last<T: Drop, A: Allocator>(items: &mut Vec<T, A>, count: usize, to: &mut Vec<T, A>)
    requires count { count ≤ vec_len items.old }
    requires empty { to.old.items ≡ [] }
    requires room { count ≤ vec_capacity to.old }
    ensures rest { items.new.items ≡ take (vec_len items.old - count) items.old.items }
    ensures moved { to.new.items ≡ drop (vec_len items.old - count) items.old.items }
{
    for _ in 0..count {
        to.push_reserved(items.pop().unwrap());
    }
    to.reverse();
}

/// Cuts the items into chunks of nearly one size, from the end, and leaves `items` empty. The
/// chunks are empty before and have capacity for their items.
pub(crate) fn cut<T: Drop, A: Allocator>(items: &mut Vec<T, A>, chunks: &mut Vec<Vec<T, A>, A>)
    requires enough { vec_len chunks.old ≤ vec_len items.old }
    requires few { vec_len items.old ≤ MOST * vec_len chunks.old }
    requires empty { All (λ c. (c.items ≡ []) × (min MOST (vec_len items.old) ≤ vec_capacity c)) chunks.old.items }
    ensures taken { items.new.items ≡ [] }
    ensures items { items_of chunks.new.items ≡ items.old.items }
    ensures filled { All IsFilled chunks.new.items }
    ensures len { vec_len chunks.new ≡ vec_len chunks.old }
{
    let mut left = chunks.len();
    while left > 0 {
        let count = items.len() / left;
        left -= 1;
        move_last(items, count, &mut chunks[left]);
    }
}

/// Moves the items of the chunks `p..q` to the end of `items`, which has capacity for them.
pub(crate) fn gather<T: Drop, A: Allocator>(
    chunks: &mut Vec<Vec<T, A>, A>,
    p: usize,
    q: usize,
    items: &mut Vec<T, A>,
)
    requires ordered { p ≤ q }
    requires within { q ≤ vec_len chunks.old }
    requires room { vec_len items.old + length (items_of (take (q - p) (drop p chunks.old.items))) ≤ vec_capacity items.old }
    ensures items { items.new.items ≡ items.old.items ++ items_of (take (q - p) (drop p chunks.old.items)) }
    ensures before { take p chunks.new.items ≡ take p chunks.old.items }
    ensures after { drop q chunks.new.items ≡ drop q chunks.old.items }
    ensures len { vec_len chunks.new ≡ vec_len chunks.old }
    ensures capacity { vec_capacity chunks.new ≡ vec_capacity chunks.old }
    ensures items_capacity { vec_capacity items.old ≤ vec_capacity items.new }
{
    for j in p..q {
        items.append(&mut chunks[j]).unwrap();
    }
}
