//! Tests of the capabilities of editors and of settings, with the shapes that they have and with
//! other shapes.
use json::{Scratch, Value};
use std::alloc::Global;
use yl_lsp::{
    Settings, changed_settings, changes_in, encoding_in, first_settings, settings_in, takes_links,
    takes_watchers,
};
use yl_units::Encoding;

// Returns the capabilities in the parameters of `initialize`: the encoding of columns, the links,
// and the files to watch.
fn abilities_in(alloc: Global, text: &str) -> Option<(Encoding, bool, bool)> {
    let mut scratch = Scratch::new(alloc);
    match Value::parse(alloc, text, &mut scratch) {
        Ok(params) => Some((
            encoding_in(&params),
            takes_links(&params),
            takes_watchers(&params),
        )),
        Err(_) => None,
    }
}

#[test]
fn abilities(rt: HostRuntime) {
    let rows = [
        ("{}", (Encoding::Utf16, false, false)),
        ("null", (Encoding::Utf16, false, false)),
        (
            r#"{"capabilities":{"general":{"positionEncodings":["utf-7","utf-32","utf-8"]}}}"#,
            (Encoding::Utf32, false, false),
        ),
        (
            r#"{"capabilities":{"general":{"positionEncodings":[1,"utf-8"]},"textDocument":{"publishDiagnostics":{"codeDescriptionSupport":true}}}}"#,
            (Encoding::Utf8, true, false),
        ),
        (
            r#"{"capabilities":{"general":{"positionEncodings":[]},"textDocument":{"publishDiagnostics":{"codeDescriptionSupport":1}}}}"#,
            (Encoding::Utf16, false, false),
        ),
        (
            r#"{"capabilities":{"workspace":{"didChangeWatchedFiles":{"dynamicRegistration":true}}}}"#,
            (Encoding::Utf16, false, true),
        ),
    ];
    for (text, wanted) in rows {
        assert_eq!(rt; abilities_in(rt.alloc(), text), Some(wanted), "{text}");
    }
}

// Returns `true` if the settings have these values. `-` and 0 stand for settings that are absent.
fn is_named(settings: &Settings<'_>, config: &str, file: &str, most: u64) -> bool {
    settings.config.unwrap_or("-") == config
        && settings.config_file.unwrap_or("-") == file
        && settings.most.unwrap_or(0) == most
}

// Returns `true` if the JSON is an object with these settings, or is not valid if there are no
// settings.
fn are_settings(alloc: Global, text: &str, wanted: Option<(&str, &str, u64)>) -> bool {
    let mut scratch = Scratch::new(alloc);
    let Ok(value) = Value::parse(alloc, text, &mut scratch) else {
        return false;
    };
    match (settings_in(&value), wanted) {
        (Some(settings), Some((config, file, most))) => is_named(&settings, config, file, most),
        (None, None) => true,
        _ => false,
    }
}

#[test]
fn settings(rt: HostRuntime) {
    let rows = [
        ("{}", Some(("-", "-", 0))),
        (
            r#"{"config":"rules: {}\n","maxProblems":7}"#,
            Some(("rules: {}\n", "-", 7)),
        ),
        (r#"{"other":1,"configFile":"a b"}"#, Some(("-", "a b", 0))),
        (r#"{"config":null}"#, None),
        (r#"{"configFile":1}"#, None),
        (r#"{"maxProblems":-1}"#, None),
        (r#"{"maxProblems":"7"}"#, None),
        ("[]", None),
    ];
    for (text, wanted) in rows {
        assert!(rt; are_settings(rt.alloc(), text, wanted), "{text}");
    }
}

#[test]
fn params_with_settings(rt: HostRuntime) {
    let alloc = rt.alloc();
    let text =
        r#"{"initializationOptions":{"zutkrad":{"maxProblems":7}},"settings":{"zutkrad":{"maxProblems":8}},"contentChanges":[{"text":""},1]}"#;
    let mut scratch = Scratch::new(alloc);
    let Ok(params) = Value::parse(alloc, text, &mut scratch) else {
        panic!(rt; "it is no JSON");
    };
    let first = first_settings(&params).and_then(|value| settings_in(value));
    assert_eq!(rt; first.and_then(|settings| settings.most), Some(7));
    let changed = changed_settings(&params).and_then(|value| settings_in(value));
    assert_eq!(rt; changed.and_then(|settings| settings.most), Some(8));
    assert_eq!(rt; changes_in(&params).map(|changes| changes.len()), Some(2));
}

#[test]
fn params_without_settings(rt: HostRuntime) {
    let alloc = rt.alloc();
    let mut scratch = Scratch::new(alloc);
    let Ok(params) = Value::parse(
        alloc,
        r#"{"settings":{},"contentChanges":{}}"#,
        &mut scratch,
    ) else {
        panic!(rt; "it is no JSON");
    };
    assert!(rt; first_settings(&params).is_none());
    assert!(rt; changed_settings(&params).is_none());
    assert!(rt; changes_in(&params).is_none());
}
