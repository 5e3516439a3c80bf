//! Tests of stores and lists in chunks: edits of about one, two and three chunks of numbers, from
//! and to each place near a border of chunks.

mod lists;

use crate::stores::{Heap, place};
use crate::texts::is_edited;
use failing_alloc::FailingAlloc;
pub(crate) use lists::is_made_at_once;
use std::alloc::{AllocError, Global};
use std::test::Fail;

// What is edited: a store of rows, or a list.
#[derive(Clone, Copy)]
enum Kind {
    Store,
    List,
}

/// An edit of the list of the first numbers: its length, the first index that is removed, the index
/// after the last one that is removed, and the number of items that are inserted.
pub(crate) type Edit = (usize, usize, usize, usize);

// The first number that is inserted.
const NEW: usize = 1000;

// Returns the number at index `i` after an edit that puts `count` numbers in place of those with
// the indices `a..b`.
fn wanted(i: usize, a: usize, b: usize, count: usize) -> usize {
    let end = a.saturating_add(count);
    if i < a {
        i
    } else if i < end {
        i.saturating_sub(a).saturating_add(NEW)
    } else {
        i.saturating_sub(end).saturating_add(b)
    }
}

// Returns the length of the list after an edit.
fn size_behind(edit: Edit) -> usize {
    let (size, a, b, count) = edit;
    size.saturating_sub(b.saturating_sub(a))
        .saturating_add(count)
}

// The first number of the lines of a text, and of those that are inserted. All numbers have as many
// digits.
const FIRST: usize = 10_000;

const FIRST_NEW: usize = 20_000;

// The number of bytes of such a line, and of those before its line break.
const LINE: usize = 6;

const DIGITS: usize = 5;

// Returns `count` lines that are the numbers from `first` on. Each ends in a line break, except for
// the last one if `is_last` is set. The only error is out of memory.
fn numbered(
    alloc: Global,
    first: usize,
    count: usize,
    is_last: bool,
) -> Result<String, AllocError> {
    let mut text = String::new(alloc);
    for i in 0..count {
        let number = first.saturating_add(i);
        text.push_str(format!(in alloc; "{number}\n")?.as_str())?;
    }
    if is_last {
        text.pop();
    }
    Ok(text)
}

// Returns whether both stores make an edit of the lines of a text rightly, or `None` if a call
// returns an error.
fn is_stored(alloc: Global, heap: Heap<'_>, edit: Edit) -> Option<bool> {
    let (size, a, b, count) = edit;
    let is_end = b == size;
    let text = numbered(alloc, FIRST, size, true).ok()?;
    let bytes = numbered(alloc, FIRST_NEW, count, is_end).ok()?;
    let start = a.saturating_mul(LINE);
    let (to, end) = if is_end {
        (place(b.saturating_sub(1), DIGITS), text.len())
    } else {
        (place(b, 0), b.saturating_mul(LINE))
    };
    let (range, places) = ((start, end), (place(a, 0), to));
    is_edited(alloc, heap, text.as_str(), range, places, bytes.as_str()).ok()
}

// The lengths of the texts and lists.
const SIZES: [usize; 4] = [255, 256, 257, 513];

// Indices at their ends, and near the borders of chunks that are halves or thirds of them.
const PLACES: [usize; 12] = [0, 1, 128, 129, 171, 172, 254, 255, 256, 257, 342, 513];

// The numbers of items that are inserted. With these a chunk keeps its items, is filled, is split,
// or is left empty.
const COUNTS: [usize; 6] = [0, 1, 2, 128, 256, 257];

// Returns the first of these counts of items that are not put rightly in place of the items with
// the indices `a..b`, if there is one.
fn wrong_count(
    alloc: Global,
    heap: Heap<'_>,
    kind: Kind,
    size: usize,
    a: usize,
    b: usize,
) -> Option<usize> {
    for count in COUNTS {
        let edit = (size, a, b, count);
        let answer = match kind {
            Kind::Store => is_stored(alloc, heap, edit),
            Kind::List => is_made_at_once(heap, heap, 0, edit),
        };
        if answer != Some(true) {
            return Some(count);
        }
    }
    None
}

// Returns the first edit near a border that is not made rightly, if there is one.
fn wrong_edit(alloc: Global, heap: Heap<'_>, kind: Kind) -> Option<Edit> {
    for size in SIZES {
        for a in PLACES {
            for b in PLACES {
                if a >= size || a > b || b > size {
                    continue;
                }
                if let Some(count) = wrong_count(alloc, heap, kind, size, a, b) {
                    return Some((size, a, b, count));
                }
            }
        }
    }
    None
}

#[test]
fn edits_about_each_border(rt: HostRuntime) -> Result<(), Fail> {
    let heap = FailingAlloc::new(rt.alloc());
    for kind in [Kind::Store, Kind::List] {
        assert_eq!(rt; wrong_edit(rt.alloc(), &heap, kind), None);
    }
    Ok(())
}
