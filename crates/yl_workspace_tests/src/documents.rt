//! Tests of the documents that are open, and of the configurations by which they are judged.

use crate::opened::{Open, change, open, problems, text_in};
use std::test::Fail;
use yl_config::Config;
use yl_lsp::Change;
use yl_units::Encoding;
use yl_workspace::{Cause, Workspace};

#[test]
fn documents_in_order(rt: HostRuntime) -> Result<(), Fail> {
    let mut documents: Open = Workspace::new(rt.alloc());
    open(&mut documents, "b", "1", "b: 1\n")?;
    open(&mut documents, "a", "1", "a: 1\n")?;
    open(&mut documents, "b", "7", "---\nb: 2 \n")?;
    assert_eq!(rt; documents.documents().len(), 2);
    let first = documents.documents().first().ok_or("none")?;
    assert_eq!(rt; first.uri(), "b");
    assert_eq!(rt; first.version(), "7");
    assert_eq!(rt; problems(first), 1);
    documents.close("b");
    assert!(rt; documents.document("b").is_none());
    let last = documents.document("a").ok_or("not open")?;
    assert_eq!(rt; last.version(), "1");
    change(&mut documents, Encoding::Utf16, "a", &[]);
    assert_eq!(rt; documents.document("a").ok_or("not open")?.version(), "2");
    change(&mut documents, Encoding::Utf16, "b", &[]);
    assert_eq!(rt; documents.documents().len(), 1);
    Ok(())
}

#[test]
fn lost_documents(rt: HostRuntime) -> Result<(), Fail> {
    let alloc = rt.alloc();
    let mut documents: Open = Workspace::new(alloc);
    open(&mut documents, "a", "1", "a: 1\n")?;
    open(&mut documents, "b", "1", "b: 1\n")?;
    documents.lose("b", Cause::BadChange);
    let lost = documents.document("b").ok_or("not open")?;
    assert_eq!(rt; lost.session().err(), Some(Cause::BadChange));
    documents.lose_all(Cause::Missed);
    let lost = documents.document("a").ok_or("not open")?;
    assert_eq!(rt; lost.session().err(), Some(Cause::Missed));
    change(
        &mut documents,
        Encoding::Utf16,
        "b",
        &[Change::Whole("c: 1\n")],
    );
    let found = text_in(alloc, documents.document("b").ok_or("not open")?)?;
    let text = found.ok().ok_or("lost")?;
    assert_eq!(rt; text.as_slice(), b"c: 1\n".as_slice());
    Ok(())
}

#[test]
fn documents_judged_anew(rt: HostRuntime) -> Result<(), Fail> {
    let alloc = rt.alloc();
    let mut documents: Open = Workspace::new(alloc);
    open(&mut documents, "a", "1", "---\r\na: 1 \r\n")?;
    assert_eq!(rt; problems(documents.document("a").ok_or("not open")?), 2);
    let config = Config::read(alloc, b"rules: {trailing-spaces: enable}")?;
    documents.configure(Some(config));
    let document = documents.document("a").ok_or("not open")?;
    assert_eq!(rt; problems(document), 1);
    let text = text_in(alloc, document)?.ok().ok_or("lost")?;
    assert_eq!(rt; text.as_slice(), b"---\r\na: 1 \r\n".as_slice());
    Ok(())
}

#[test]
fn ignored_documents(rt: HostRuntime) -> Result<(), Fail> {
    let alloc = rt.alloc();
    let mut documents: Open = Workspace::new(alloc);
    open(&mut documents, "a", "1", "a: 1 \n")?;
    assert_eq!(rt; documents.documents().len(), 1);
    documents.configure_at(0, None);
    assert!(rt; documents.document("a").ok_or("not open")?.is_ignored());
    change(
        &mut documents,
        Encoding::Utf16,
        "a",
        &[Change::Whole("---\nb: 1 \n")],
    );
    let text = text_in(alloc, documents.document("a").ok_or("not open")?)?;
    assert_eq!(rt;
        text.ok().ok_or("lost")?.as_slice(),
        b"---\nb: 1 \n".as_slice()
    );
    assert_eq!(rt; documents.documents().len(), 1);
    documents.configure_at(0, Some(Config::standard()));
    let document = documents.document("a").ok_or("not open")?;
    assert!(rt; !document.is_ignored());
    assert_eq!(rt; problems(document), 1);
    Ok(())
}
