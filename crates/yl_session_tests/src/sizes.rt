//! Tests of texts, bytes of edits and configurations that are too large.
use crate::sessions::{config_fault, edit, opened};
use failing_alloc::FailingAlloc;
use std::alloc::Global;
use std::test::Fail;
use yl_config::ConfigFault;
use yl_session::Session;
use yl_text::{LineStore, PlainStore, Pos, TextFault};

// Returns the fault with which these bytes are not opened, if there is one.
fn fault_of<S: LineStore<Alloc = Global>>(alloc: Global, bytes: &[u8]) -> Option<TextFault> {
    let answer: Result<Session<S>, TextFault> = opened(alloc, bytes);
    answer.err()
}

// Returns the fault of an edit of the text `a\n`, if there is one. The edit puts these bytes
// between two columns of the first line, and its first allocation is refused.
fn edit_fault<S: LineStore>(
    heap: &FailingAlloc<Global>,
    taken: S::Alloc,
    from: u32,
    to: u32,
    bytes: &[u8],
) -> Result<Option<TextFault>, TextFault> {
    let mut session: Session<S> = opened(taken, b"a\n")?;
    let (from, to) = (Pos { line: 0, col: from }, Pos { line: 0, col: to });
    heap.refuse(1);
    let answer = edit(&mut session, from, to, bytes);
    heap.refuse(0);
    Ok(answer.err())
}

// A text of the maximum size needs memory, and a text with one more byte is too large.
#[test]
fn what_is_too_large_is_refused(rt: HostRuntime) -> Result<(), Fail> {
    let heap = FailingAlloc::new(rt.alloc());
    let long = vec![in rt.alloc(); b'x'; 67_108_865]?;
    let long = long.as_slice();
    let whole = fault_of::<PlainStore<Global>>(rt.alloc(), long);
    assert_eq!(rt; whole, Some(TextFault::TooLarge));
    for (from, to, most) in [(0, 2, 67_108_864), (1, 2, 67_108_863), (1, 1, 67_108_862)] {
        let most: usize = most;
        let fitting = long.get(..most).unwrap_or(&[]);
        let fault = edit_fault::<PlainStore<&FailingAlloc<Global>>>(
            &heap, &heap, from, to, fitting,
        )?;
        assert_eq!(rt; fault, Some(TextFault::Memory));
        let longer = long.get(..=most).unwrap_or(&[]);
        let fault = edit_fault::<PlainStore<&FailingAlloc<Global>>>(
            &heap, &heap, from, to, longer,
        )?;
        assert_eq!(rt; fault, Some(TextFault::TooLarge));
    }
    Ok(())
}

// Bytes of the maximum size that are not UTF-8 are not a configuration, and one more byte is too
// large.
#[test]
fn what_is_no_text_is_no_configuration(rt: HostRuntime) -> Result<(), Fail> {
    let bytes = vec![in rt.alloc(); 0xFF_u8; 67_108_865]?;
    for (count, wanted) in [
        (67_108_864, ConfigFault::NotUtf8),
        (67_108_865, ConfigFault::TooLarge),
    ] {
        let count: usize = count;
        let bytes = bytes.as_slice().get(..count).unwrap_or(&[]);
        assert_eq!(rt; config_fault(rt.alloc(), bytes), Some(wanted));
    }
    Ok(())
}
