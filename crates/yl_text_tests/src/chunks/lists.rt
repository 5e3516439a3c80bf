//! Lists of numbers: room that is made, filled and refused, and lists of which some items are
//! replaced.

ghost use Rattle.std.specs.Prelude.{◌≡◌, ◌+◌, ◌^◌, ◌<◌, ◌≤◌, IfOk, IsTrue, length, vec_len};
ghost use Rattle.yl_text.specs.Store.{IsRange};

use crate::chunks::{Edit, NEW, size_behind, wanted};
use crate::stores::Heap;
use std::alloc::{AllocError, Allocator};
use yl_chunks::{Chunks, Spliced};

// The lists here, and what is inserted into them, are shorter than this.
const MANY: usize = 1 << 20;

// Returns the numbers from `first` on, `count` of them. The only error is out of memory.
fn numbers<A: Allocator>(alloc: A, first: usize, count: usize) -> Result<Vec<usize, A>, AllocError>
    ensures { IfOk result (λ numbers. vec_len numbers ≡ count) }
{
    let mut numbers = Vec::with_capacity(alloc, count)?;
    for i in 0..count {
        numbers.push_reserved(first.saturating_add(i));
    }
    Ok(numbers)
}

// Returns the list of the first `size` numbers. The only error is out of memory.
fn listed<A: Allocator + Copy>(alloc: A, size: usize) -> Result<Chunks<usize, A>, AllocError> {
    let mut list = Chunks::new(alloc);
    list.splice(0, 0, &mut numbers(alloc, 0, size)?)?;
    Ok(list)
}

// Returns `true` if this is the list after the edit.
fn is_edited<A: Allocator + Copy>(list: &Chunks<usize, A>, edit: Edit) -> bool {
    let (_, a, b, count) = edit;
    for i in 0..list.len() {
        if *list.get(i) != wanted(i, a, b, count) {
            return false;
        }
    }
    list.len() == size_behind(edit)
}

// Returns `true` if this is a view of the list after the edit.
fn is_seen_edited<A: Allocator + Copy>(seen: &Spliced<'_, usize, A>, edit: Edit) -> bool {
    let (_, a, b, count) = edit;
    for i in 0..seen.len() {
        if *seen.get(i) != wanted(i, a, b, count) {
            return false;
        }
    }
    seen.len() == size_behind(edit)
}

// Makes room for an edit and fills it. The `nth` allocation for the room is refused, or none if
// `nth` is 0. Returns `true` if all new numbers were taken, and nothing was allocated to fill the
// room.
fn fill<A: Allocator + Copy>(
    heap: Heap<'_>,
    nth: u64,
    list: &mut Chunks<usize, A>,
    a: usize,
    b: usize,
    new: &mut Vec<usize, A>,
) -> Result<bool, AllocError>
    requires range { IsRange a b (length list.old.items) }
    requires few { length list.old.items + vec_len new.old < 2 ^ 64 }
{
    heap.refuse(nth);
    let answer = list.make_room(a, b, new.len());
    heap.refuse(0);
    answer?;
    heap.refuse(1);
    list.fill_room(a, b, new);
    let is_armed = heap.is_armed();
    heap.refuse(0);
    Ok(is_armed && new.is_empty())
}

// Returns `true` only if this edit can be made of the list.
fn can_be_made<A: Allocator + Copy>(
    list: &Chunks<usize, A>,
    a: usize,
    b: usize,
    count: usize,
) -> bool
    ensures { IsTrue result → (IsRange a b (length list.now.items)) × (length list.now.items + count < 2 ^ 64) }
{
    a <= b && b <= list.len() && list.len() < MANY && count < MANY
}

// Returns `true` if a view of the list shows an edit before it is made.
fn is_seen<A: Allocator + Copy>(alloc: A, list: &Chunks<usize, A>, edit: Edit) -> bool {
    let (_, a, b, count) = edit;
    let Ok(new) = numbers(alloc, NEW, count) else {
        return false;
    };
    if !can_be_made(list, a, b, count) {
        return false;
    }
    is_seen_edited(&Spliced::new(list, a, b, new.as_slice()), edit)
}

// Makes an edit. The `n`th allocation of the edit is refused, or none if `n` is 0. Returns whether
// the edit was made, or `None` if the list is not as it must be then.
fn is_made<A: Allocator + Copy>(
    alloc: A,
    heap: Heap<'_>,
    n: u64,
    list: &mut Chunks<usize, A>,
    edit: Edit,
) -> Option<bool> {
    let (size, a, b, count) = edit;
    let Ok(mut new) = numbers(alloc, NEW, count) else {
        return None;
    };
    if !can_be_made(list, a, b, count) {
        return None;
    }
    match fill(heap, n, list, a, b, &mut new) {
        Ok(is_right) => (is_right && is_edited(list, edit)).then_some(true),
        Err(_) => is_edited(list, (size, 0, 0, 0)).then_some(false),
    }
}

/// Makes an edit of a new list. The `n`th allocation of the edit is refused, or none if `n` is 0.
/// Returns whether the edit was made. Returns `None` if the list is ever not as it must be, or if
/// the edit is not made when it is tried again after a refusal.
pub(crate) fn is_made_at_once<A: Allocator + Copy>(
    alloc: A,
    heap: Heap<'_>,
    n: u64,
    edit: Edit,
) -> Option<bool> {
    let Ok(mut list) = listed(alloc, edit.0) else {
        return None;
    };
    if !is_seen(alloc, &list, edit) {
        return None;
    }
    let answer = is_made(alloc, heap, n, &mut list, edit);
    if answer == Some(false) && is_made(alloc, heap, 0, &mut list, edit) != Some(true) {
        return None;
    }
    answer
}
