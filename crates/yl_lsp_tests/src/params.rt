//! Tests of the parameters of messages, with the shapes of LSP and with other shapes.

use json::{Scratch, Value};
use std::alloc::Global;
use yl_lsp::{Change, change_of, document_in, opened_in, version_in};

// Returns `true` if the change of this JSON puts `x` between these units of the lines 3 and 4, or
// has another shape if `units` is `None`.
fn is_within(alloc: Global, text: &str, units: Option<(u64, u64)>) -> bool {
    let mut scratch = Scratch::new(alloc);
    let Ok(value) = Value::parse(alloc, text, &mut scratch) else {
        return false;
    };
    match (change_of(&value), units) {
        (Change::Within(range, "x"), Some((start, end))) => {
            range.start.line == 3
                && range.start.units == start
                && range.end.line == 4
                && range.end.units == end
        }
        (Change::Unread, None) => true,
        _ => false,
    }
}

#[test]
fn ranged_changes(rt: HostRuntime) {
    let rows = [
        (
            r#"{"range":{"start":{"line":3,"character":0},"end":{"line":4,"character":17}},"rangeLength":5,"text":"x"}"#,
            Some((0, 17)),
        ),
        (
            r#"{"text":"x","range":{"end":{"character":18446744073709551615,"line":4},"start":{"character":2,"line":3}}}"#,
            Some((2, 18_446_744_073_709_551_615)),
        ),
        (
            r#"{"range":{"start":{"line":-3,"character":0},"end":{"line":4,"character":17}},"text":"x"}"#,
            None,
        ),
        (
            r#"{"range":{"start":{"line":3,"character":1e0},"end":{"line":4,"character":17}},"text":"x"}"#,
            None,
        ),
        (
            r#"{"range":{"start":{"line":3,"character":0}},"text":"x"}"#,
            None,
        ),
        (r#"{"range":null,"text":"x"}"#, None),
        (
            r#"{"range":{"start":{"line":3,"character":0},"end":{"line":4,"character":18446744073709551616}},"text":"x"}"#,
            None,
        ),
        (r#"{"text":1}"#, None),
        ("[]", None),
    ];
    for (text, units) in rows {
        assert!(rt; is_within(rt.alloc(), text, units), "{text}");
    }
}

#[test]
fn documents(rt: HostRuntime) {
    let alloc = rt.alloc();
    let mut scratch = Scratch::new(alloc);
    let text =
        r#"{"textDocument":{"languageId":"yaml","uri":"file:///a%20b","version":007,"text":"a: \u00e9\n"}}"#;
    let value = Value::parse(alloc, text, &mut scratch);
    assert!(rt; value.is_err(), "a number with leading zeros is no JSON");
    let mut scratch = Scratch::new(alloc);
    let text =
        r#"{"textDocument":{"languageId":"yaml","uri":"file:///a%20b","version":-7,"text":"a: \u00e9\n"}}"#;
    let Ok(value) = Value::parse(alloc, text, &mut scratch) else {
        panic!(rt; "it is no JSON");
    };
    assert_eq!(rt; document_in(&value), Some("file:///a%20b"));
    assert_eq!(rt; version_in(&value), Some("-7"));
    let opened = opened_in(&value).map(|o| (o.uri, o.version, o.text));
    assert_eq!(rt; opened, Some(("file:///a%20b", "-7", "a: \u{e9}\n")));
}

#[test]
fn whole_changes(rt: HostRuntime) {
    let alloc = rt.alloc();
    let mut scratch = Scratch::new(alloc);
    let Ok(value) = Value::parse(alloc, r#"{"text":"a\nb"}"#, &mut scratch) else {
        panic!(rt; "it is no JSON");
    };
    let whole = match change_of(&value) {
        Change::Whole(text) => text,
        _ => "",
    };
    assert_eq!(rt; whole, "a\nb");
}
