//! Tests of the number of bytes that a session holds.
use crate::sessions::{edit_lines, opened};
use linked_list_allocator::LocalHeap;
use std::alloc::{AllocError, Global};
use std::test::Fail;
use yl_chunks::ChunkStore;
use yl_session::Session;
use yl_text::LineStore;

// Returns a text of `count` lines with a problem each, and one line without a problem after them.
fn text_of(alloc: Global, count: u32) -> Result<String, AllocError> {
    let mut text = String::new(alloc);
    for _ in 0..count {
        text.push_str("- a \n")?;
    }
    text.push_str("- b\n")?;
    Ok(text)
}

// Edits a session over that text: adds a fault and removes it, replaces all but a few lines by a
// fault, types after the fault, and removes it. Returns the numbers of bytes that the session holds
// after each of the last three edits.
fn held<S: LineStore>(
    alloc: Global,
    heap: &LocalHeap,
    taken: S::Alloc,
    count: u32,
) -> Result<[usize; 3], Fail> {
    let text = text_of(alloc, count)?;
    let mut session: Session<S> = opened(taken, text.as_str().as_bytes())?;
    let _ = edit_lines(&mut session, 1, 2, b"- 'a\n")?;
    let _ = edit_lines(&mut session, 1, 2, b"- a \n")?;
    let _ = edit_lines(&mut session, 4, count, b"- [a\n")?;
    let came = heap.used();
    let _ = edit_lines(&mut session, 4, 5, b"- [ab\n")?;
    let typed = heap.used();
    let _ = edit_lines(&mut session, 4, 5, b"- ab\n")?;
    Ok([came, typed, heap.used()])
}

// The number of bytes depends on the current text, and not on the earlier ones.
#[test]
fn what_is_held_follows_the_text(rt: HostRuntime) -> Result<(), Fail> {
    for count in [300, 1200] {
        let heap = LocalHeap::new(rt.alloc(), 4_000_000)?;
        let bytes = held::<ChunkStore<&LocalHeap>>(rt.alloc(), &heap, &heap, count)?;
        for held in bytes {
            assert!(rt; held <= 10_000, "{held} bytes behind {count} lines");
        }
    }
    Ok(())
}
