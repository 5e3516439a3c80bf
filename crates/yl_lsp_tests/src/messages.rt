//! Tests of the bytes of messages. They are JSON without spaces, with members in the order of their
//! names.
use crate::texts::opened;
use std::alloc::{AllocError, Global};
use yl_frames::{Body, Output};
use yl_lsp::{
    Content, ErrorMessage, InitializeResult, Presentation, Publication, Report, WatchRequest,
};
use yl_report::Problem;
use yl_rules::Level;
use yl_text::{Finding, PlainStore, RuleId, TextFault, Watched};
use yl_units::Encoding;

// Returns `true` if the body of the message that is sent is this text.
fn is_sent<B: Body>(alloc: Global, body: &B, text: &str) -> bool {
    let mut out = Output::new(Watched::new(Vec::new(alloc)));
    if out.send(body).is_err() {
        return false;
    }
    let bytes = out.into_inner().into_inner();
    let Ok(message) = std::str::from_utf8(bytes.as_slice()) else {
        return false;
    };
    match message.split_once("\r\n\r\n") {
        Some((_, body)) => body == text,
        None => false,
    }
}

fn problems(alloc: Global) -> Result<Vec<Problem<Global>>, AllocError> {
    let mut problems = Vec::new(alloc);
    let truthy = Finding::fixed(1, 4, RuleId::Truthy, "truthy \"x\"");
    problems.push(Problem::new(truthy, Level::Warning))?;
    let blanks = Finding::fixed(1, 8, RuleId::TrailingSpaces, "trailing spaces");
    problems.push(Problem::new(blanks, Level::Error))?;
    let syntax = Finding::fixed(2, 1, RuleId::Syntax, "a\\b\n");
    problems.push(Problem::new(syntax, Level::Error))?;
    Ok(problems)
}

// Returns `true` if this message shows the problems, at most `most` of them.
fn are_shown(alloc: Global, links: bool, most: u64, text: &str) -> Result<bool, TextFault> {
    let lines = opened(alloc, "\u{1F600}: \u{1F600}key  \nk: v")?;
    let Ok(problems) = problems(alloc) else {
        return Err(TextFault::Memory);
    };
    let how = Presentation {
        encoding: Encoding::Utf16,
        links,
        most,
    };
    let publication = Publication {
        uri: "file:///a%20b",
        version: Some("7"),
        content: Content::Problems(Report::new(how, &lines, problems.as_slice())),
    };
    Ok(is_sent(alloc, &publication, text))
}

#[test]
fn problems_of_a_text(rt: HostRuntime) {
    let rows = [
        (
            true,
            3,
            r#"{"jsonrpc":"2.0","method":"textDocument/publishDiagnostics","params":{"diagnostics":[{"code":"truthy","codeDescription":{"href":"https://yamllint.readthedocs.io/en/stable/rules.html#truthy"},"message":"truthy \"x\"","range":{"end":{"character":9,"line":0},"start":{"character":4,"line":0}},"severity":2,"source":"zutkrad"},{"code":"trailing-spaces","codeDescription":{"href":"https://yamllint.readthedocs.io/en/stable/rules.html#trailing-spaces"},"message":"trailing spaces","range":{"end":{"character":11,"line":0},"start":{"character":9,"line":0}},"severity":1,"source":"zutkrad"},{"code":"syntax","message":"a\\b\n","range":{"end":{"character":1,"line":1},"start":{"character":0,"line":1}},"severity":1,"source":"zutkrad"}],"uri":"file:///a%20b","version":7}}"#,
        ),
        (
            false,
            1,
            r#"{"jsonrpc":"2.0","method":"textDocument/publishDiagnostics","params":{"diagnostics":[{"code":"truthy","message":"truthy \"x\"","range":{"end":{"character":9,"line":0},"start":{"character":4,"line":0}},"severity":2,"source":"zutkrad"},{"code":"more","message":"2 more problems","range":{"end":{"character":0,"line":0},"start":{"character":0,"line":0}},"severity":3,"source":"zutkrad"}],"uri":"file:///a%20b","version":7}}"#,
        ),
        (
            true,
            0,
            r#"{"jsonrpc":"2.0","method":"textDocument/publishDiagnostics","params":{"diagnostics":[{"code":"more","message":"3 more problems","range":{"end":{"character":0,"line":0},"start":{"character":0,"line":0}},"severity":3,"source":"zutkrad"}],"uri":"file:///a%20b","version":7}}"#,
        ),
    ];
    for (links, most, text) in rows {
        assert_eq!(rt;
            are_shown(rt.alloc(), links, most, text),
            Ok(true),
            "{text}"
        );
    }
}

#[test]
fn texts_without_a_report(rt: HostRuntime) {
    let rows: [(Option<&str>, Content<'_, PlainStore<Global>>, &str); 2] = [
        (
            Some("8"),
            Content::Lost("out of memory"),
            r#"{"jsonrpc":"2.0","method":"textDocument/publishDiagnostics","params":{"diagnostics":[{"code":"lost","message":"out of memory","range":{"end":{"character":0,"line":0},"start":{"character":0,"line":0}},"severity":1,"source":"zutkrad"}],"uri":"file:///a%20b","version":8}}"#,
        ),
        (
            None,
            Content::Nothing,
            r#"{"jsonrpc":"2.0","method":"textDocument/publishDiagnostics","params":{"diagnostics":[],"uri":"file:///a%20b"}}"#,
        ),
    ];
    for (version, content, text) in rows {
        let publication = Publication {
            uri: "file:///a%20b",
            version,
            content,
        };
        assert!(rt; is_sent(rt.alloc(), &publication, text), "{text}");
    }
}

#[test]
fn error_messages(rt: HostRuntime) {
    let message = ErrorMessage {
        text: "a: \"b\"\n\u{e9}\u{1}",
    };
    let text =
        "{\"jsonrpc\":\"2.0\",\"method\":\"window/showMessage\",\"params\":{\"message\":\"a: \\\"b\\\"\\n\u{e9}\\u0001\",\"type\":1}}";
    assert!(rt; is_sent(rt.alloc(), &message, text));
}

#[test]
fn results_of_initialize(rt: HostRuntime) {
    let rows = [
        (
            Encoding::Utf8,
            r#"{"capabilities":{"positionEncoding":"utf-8","textDocumentSync":{"change":2,"openClose":true,"save":true},"workspace":{"workspaceFolders":{"changeNotifications":true,"supported":true}}},"serverInfo":{"name":"zutkrad","version":"1.0"}}"#,
        ),
        (
            Encoding::Utf16,
            r#"{"capabilities":{"positionEncoding":"utf-16","textDocumentSync":{"change":2,"openClose":true,"save":true},"workspace":{"workspaceFolders":{"changeNotifications":true,"supported":true}}},"serverInfo":{"name":"zutkrad","version":"1.0"}}"#,
        ),
        (
            Encoding::Utf32,
            r#"{"capabilities":{"positionEncoding":"utf-32","textDocumentSync":{"change":2,"openClose":true,"save":true},"workspace":{"workspaceFolders":{"changeNotifications":true,"supported":true}}},"serverInfo":{"name":"zutkrad","version":"1.0"}}"#,
        ),
    ];
    for (encoding, text) in rows {
        let result = InitializeResult {
            encoding,
            version: "1.0",
        };
        assert!(rt; is_sent(rt.alloc(), &result, text), "{text}");
    }
}

#[test]
fn watched_files(rt: HostRuntime) {
    let text =
        r#"{"id":"configurations","jsonrpc":"2.0","method":"client/registerCapability","params":{"registrations":[{"id":"configurations","method":"workspace/didChangeWatchedFiles","registerOptions":{"watchers":[{"globPattern":"**/.yamllint"},{"globPattern":"**/.yamllint.yaml"},{"globPattern":"**/.yamllint.yml"}]}}]}}"#;
    assert!(rt; is_sent(rt.alloc(), &WatchRequest, text));
}
