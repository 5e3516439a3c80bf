//! Tests of the number of allocations. Each allocation of an edit of a list is refused in turn, up
//! to the first run without a refusal.

use crate::chunks::{Edit, is_made_at_once};
use crate::stores::{Heap, opened, place};
use crate::texts::shows;
use failing_alloc::FailingAlloc;
use std::alloc::{AllocError, Allocator, Global};
use std::test::Fail;
use yl_text::{
    Break, LineStore, Lines, Patched, PlainStore, Pos, Row, TextFault, characters, line_edit, split,
};

// Returns `true` if the buffer is empty after a refusal and can be used again, and if nothing is
// allocated for what it has room for.
fn is_buffer_kept<A: Allocator + Copy>(
    alloc: A,
    heap: Heap<'_>,
    row: &Row<Global>,
) -> Result<bool, AllocError> {
    let mut buffer = Vec::new(alloc);
    heap.refuse(1);
    let is_refused = characters(row, &mut buffer).is_err() && buffer.is_empty();
    characters(row, &mut buffer)?;
    let is_read = buffer.as_slice() == ['a', 'é'].as_slice();
    heap.refuse(1);
    characters(row, &mut buffer)?;
    Ok(is_refused && is_read && heap.is_armed() && buffer.len() == 2)
}

// Returns `true` if a store takes the rows without an allocation.
fn are_taken<'a, S: LineStore<Alloc = Heap<'a>>>(heap: Heap<'a>) -> Result<bool, TextFault> {
    let mut rows = split(heap, b"a\nb")?;
    heap.refuse(1);
    let Ok(store) = S::from_rows(&mut rows) else {
        return Ok(false);
    };
    Ok(heap.is_armed() && store.len() == 2 && rows.is_empty())
}

// Returns `true` if a line edit from this position on makes one allocation for its bytes, exactly
// as large as they are.
fn takes_one_growth<'a, S: LineStore<Alloc = Heap<'a>>>(
    heap: Heap<'a>,
    from: Pos,
) -> Result<bool, TextFault> {
    let store: S = opened(heap, b"a\rbcd\r\ne")?;
    let to = place(1, 2);
    store.check(from, to, b"\n")?;
    heap.refuse(1);
    let is_refused = line_edit(heap, &store, from, to, b"\n").is_err();
    heap.refuse(2);
    let Ok(edit) = line_edit(heap, &store, from, to, b"\n") else {
        return Ok(false);
    };
    let left = heap.left();
    heap.refuse(0);
    Ok(is_refused && left == 1 && edit.bytes.capacity() == edit.bytes.len())
}

// Returns `true` if a store of lines that are not ASCII shows its lines with the middle one
// replaced, and lends 1, 2 and 1 of these lines together.
fn is_patched<'a, S: LineStore<Alloc = Heap<'a>>>(heap: Heap<'a>) -> Result<bool, TextFault> {
    let store: S = opened(heap, "ключ: значение\r\n名: 値\n🙂".as_bytes())?;
    let whole = split(heap, "ключ: значение\r\né\rè\n\n🙂".as_bytes())?;
    let mut rows = split(heap, "é\rè\n\n".as_bytes())?;
    rows.pop();
    if store.len() != 3 || rows.len() != 3 {
        return Ok(false);
    }
    let patched = Patched::new(&store, 1, 2, rows.as_slice());
    if patched.len() != 5 || !shows(&patched, whole.as_slice()) {
        return Ok(false);
    }
    let first = patched.rows_from(0).len();
    let second = patched.rows_from(2).len();
    let last = patched.rows_from(4).len();
    Ok(first == 1 && second == 2 && last == 1)
}

#[test]
fn of_single_calls(rt: HostRuntime) -> Result<(), Fail> {
    let heap = FailingAlloc::new(rt.alloc());
    let row = Row::new(rt.alloc(), "aé", Break::No)?;
    assert!(rt; is_buffer_kept(&heap, &heap, &row)?);
    heap.refuse(0);
    assert!(rt; are_taken::<PlainStore<Heap<'_>>>(&heap)?);
    heap.refuse(0);
    for col in 0..2 {
        assert!(rt; takes_one_growth::<PlainStore<Heap<'_>>>(&heap, place(1, col))?);
    }
    assert!(rt; is_patched::<PlainStore<Heap<'_>>>(&heap)?);
    Ok(())
}

// Edits of lists, and the least number of allocations of each. A list of 257 numbers has two
// chunks.
const EDITS: [(Edit, u64); 6] = [
    ((10, 3, 4, 1), 0),
    ((10, 3, 3, 100), 1),
    ((257, 3, 3, 200), 4),
    ((257, 100, 150, 2), 3),
    ((257, 0, 128, 0), 3),
    ((257, 5, 250, 600), 5),
];

// Returns the number of allocations of an edit if none is refused, or `None` if the list is ever
// not as it must be.
fn refused_in_turn(heap: Heap<'_>, edit: Edit) -> Option<u64> {
    for n in 1..u64::MAX {
        if is_made_at_once(heap, heap, n, edit)? {
            return Some(n.saturating_sub(1));
        }
    }
    None
}

#[test]
fn of_each_edit(rt: HostRuntime) -> Result<(), Fail> {
    let heap = FailingAlloc::new(rt.alloc());
    for (edit, least) in EDITS {
        let growths = refused_in_turn(&heap, edit);
        assert!(rt; growths >= Some(least), "{growths:?} growths of {edit:?}");
    }
    Ok(())
}
