//! Tests of the texts that changes result in. The expected texts are those of a model of an editor
//! that keeps its text as a list of characters.

use crate::opened::{Open, change, open, text_in};
use std::alloc::Global;
use std::process::Abort;
use std::test::Fail;
use yl_lsp::{Change, Range};
use yl_units::{EditorPlace, Encoding};
use yl_workspace::{Cause, Workspace};

// Returns a change in a range.
fn within<'a>(start: (u64, u64), end: (u64, u64), text: &'a str) -> Change<'a> {
    let start = EditorPlace {
        line: start.0,
        units: start.1,
    };
    let end = EditorPlace {
        line: end.0,
        units: end.1,
    };
    Change::Within(Range { start, end }, text)
}

// Checks the text of a document after changes.
fn leaves(
    rt: &impl Abort,
    alloc: Global,
    encoding: Encoding,
    text: &str,
    changes: &[Change<'_>],
    want: Result<&str, Cause>,
) -> Result<(), Fail> {
    let mut documents: Open = Workspace::new(alloc);
    open(&mut documents, "file:///a.yaml", "1", text)?;
    change(&mut documents, encoding, "file:///a.yaml", changes);
    let document = documents.document("file:///a.yaml").ok_or("not open")?;
    let found = text_in(alloc, document)?;
    match (&found, want) {
        (Ok(found), Ok(want)) => assert_eq!(rt; found.as_slice(), want.as_bytes(), "of {text:?}"),
        (Err(found), Err(want)) => assert_eq!(rt; *found, want, "of {text:?}"),
        _ => assert!(rt; false, "of {text:?}"),
    }
    Ok(())
}

#[test]
fn places_in_each_encoding(rt: HostRuntime) -> Result<(), Fail> {
    leaves(
        &rt,
        rt.alloc(),
        Encoding::Utf16,
        "x: \u{1f600}b\n",
        &[within((0, 5), (0, 6), "!")],
        Ok("x: \u{1f600}!\n"),
    )?;
    leaves(
        &rt,
        rt.alloc(),
        Encoding::Utf16,
        "x: \u{1f600}b\n",
        &[within((0, 4), (0, 5), "!")],
        Ok("x: !b\n"),
    )?;
    leaves(
        &rt,
        rt.alloc(),
        Encoding::Utf8,
        "x: \u{e9}\u{1f600}b\n",
        &[within((0, 5), (0, 9), "")],
        Ok("x: \u{e9}b\n"),
    )?;
    leaves(
        &rt,
        rt.alloc(),
        Encoding::Utf8,
        "x: \u{e9}b\n",
        &[within((0, 4), (0, 6), "-")],
        Ok("x: -\n"),
    )?;
    leaves(
        &rt,
        rt.alloc(),
        Encoding::Utf32,
        "x: \u{1f600}b\n",
        &[within((0, 4), (0, 5), "!")],
        Ok("x: \u{1f600}!\n"),
    )?;
    Ok(())
}

#[test]
fn ends_of_lines(rt: HostRuntime) -> Result<(), Fail> {
    leaves(
        &rt,
        rt.alloc(),
        Encoding::Utf16,
        "a\r\nb\rc\n",
        &[within((0, 99), (1, 0), " ")],
        Ok("a b\rc\n"),
    )?;
    leaves(
        &rt,
        rt.alloc(),
        Encoding::Utf16,
        "a\r\nb\rc\n",
        &[within((1, 7), (99, 99), "")],
        Ok("a\r\nb"),
    )?;
    leaves(
        &rt,
        rt.alloc(),
        Encoding::Utf16,
        "a\r\nb\rc\n",
        &[within((99, 0), (99, 0), "d\n")],
        Ok("a\r\nb\rc\nd\n"),
    )?;
    leaves(
        &rt,
        rt.alloc(),
        Encoding::Utf16,
        "a\rb",
        &[within((1, 0), (1, 0), "\n")],
        Ok("a\r\nb"),
    )?;
    Ok(())
}

#[test]
fn changes_in_order(rt: HostRuntime) -> Result<(), Fail> {
    leaves(
        &rt,
        rt.alloc(),
        Encoding::Utf16,
        "a: 1\nb: 2\n",
        &[within((0, 3), (0, 4), "10"), within((1, 0), (1, 1), "key")],
        Ok("a: 10\nkey: 2\n"),
    )?;
    leaves(
        &rt,
        rt.alloc(),
        Encoding::Utf16,
        "a: 1\nb: 2\n",
        &[within((0, 0), (1, 0), ""), within((0, 0), (0, 1), "a")],
        Ok("a: 2\n"),
    )?;
    leaves(
        &rt,
        rt.alloc(),
        Encoding::Utf16,
        "a: 1\n",
        &[within((0, 3), (0, 1), "x")],
        Err(Cause::BadChange),
    )?;
    leaves(
        &rt,
        rt.alloc(),
        Encoding::Utf16,
        "a: 1\n",
        &[within((1, 0), (0, 0), "x"), within((0, 0), (0, 0), "y")],
        Err(Cause::BadChange),
    )?;
    Ok(())
}

#[test]
fn changes_that_cannot_be_made(rt: HostRuntime) -> Result<(), Fail> {
    leaves(
        &rt,
        rt.alloc(),
        Encoding::Utf16,
        "a: 1\n",
        &[
            within((1, 0), (0, 0), "x"),
            Change::Whole("b: 2\n"),
            within((0, 0), (0, 1), "c"),
        ],
        Ok("c: 2\n"),
    )?;
    leaves(
        &rt,
        rt.alloc(),
        Encoding::Utf16,
        "a: 1\n",
        &[Change::Unread, within((0, 0), (0, 1), "c")],
        Err(Cause::BadChange),
    )?;
    leaves(
        &rt,
        rt.alloc(),
        Encoding::Utf16,
        "a: 1\n",
        &[Change::Unread, Change::Whole("")],
        Ok(""),
    )?;
    Ok(())
}

#[test]
fn whole_texts(rt: HostRuntime) -> Result<(), Fail> {
    leaves(
        &rt,
        rt.alloc(),
        Encoding::Utf16,
        "a: 1\nb: 2\nc: 3\n",
        &[Change::Whole("a: 1\nb: 4\nc: 3\n")],
        Ok("a: 1\nb: 4\nc: 3\n"),
    )?;
    leaves(
        &rt,
        rt.alloc(),
        Encoding::Utf16,
        "a: 1\r\nb: 2\r\n",
        &[Change::Whole("a: 1\nb: 2\n")],
        Ok("a: 1\nb: 2\n"),
    )?;
    leaves(
        &rt,
        rt.alloc(),
        Encoding::Utf16,
        "a: 1\rb: 2",
        &[Change::Whole("a: 1\r\nb: 2")],
        Ok("a: 1\r\nb: 2"),
    )?;
    leaves(
        &rt,
        rt.alloc(),
        Encoding::Utf16,
        "a\nb\nb\nc\n",
        &[Change::Whole("a\nb\nc\n"), Change::Whole("a\nb\nb\nc\n")],
        Ok("a\nb\nb\nc\n"),
    )?;
    Ok(())
}
