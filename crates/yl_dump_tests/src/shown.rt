//! Tests of a deeply nested text.
use crate::views::{PrintedView, shown};
use std::test::Fail;

// Returns a text of opening brackets and closing ones.
fn deep(alloc: std::alloc::Global, opened: usize, closed: usize) -> Result<String, Fail> {
    let mut text = String::new(alloc);
    for _i in 0..opened {
        text.push('[')?;
    }
    for _i in 0..closed {
        text.push(']')?;
    }
    Ok(text)
}

#[test]
fn a_deep_text(rt: HostRuntime) -> Result<(), Fail> {
    let text = deep(rt.alloc(), 100_000, 100_000)?;
    let events = shown(rt.alloc(), PrintedView::Events, text.as_str())?;
    let first = "+STR\n+DOC\n+SEQ @1:1\n+SEQ @1:2\n";
    let last = "+SEQ @1:100000\n-SEQ\n-SEQ\n";
    assert!(rt; events.as_str().starts_with(first));
    assert!(rt; events.as_str().contains(last));
    assert!(rt; events.as_str().ends_with("-SEQ\n-DOC\n-STR\n"));
    Ok(())
}
