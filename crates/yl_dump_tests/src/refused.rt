//! Tests with writers that fail.
use crate::views::{PrintedView, shown, write_view};
use std::alloc::Global;
use std::test::Fail;
use test_cases::MemoryWriter;
use yl_dump::DumpFault;

const VIEWS: [PrintedView; 3] = [
    PrintedView::Lexemes,
    PrintedView::Events,
    PrintedView::Lines,
];

fn long_text(alloc: Global) -> Result<String, Fail> {
    let mut text = String::new(alloc);
    for _i in 0..400 {
        text.push_str("- [a, b]\n")?;
    }
    Ok(text)
}

#[test]
fn a_writer_fails(rt: HostRuntime) -> Result<(), Fail> {
    let text = long_text(rt.alloc())?;
    for view in VIEWS {
        let whole = shown(rt.alloc(), view, text.as_str())?;
        assert!(rt; whole.len() > 8192, "{} bytes", whole.len());
        for room in [0, 1, 4096, 5000, whole.len().saturating_sub(1)] {
            let mut writer = MemoryWriter::new(rt.alloc());
            writer.room = room;
            let answer = write_view(rt.alloc(), view, text.as_str(), &mut writer);
            assert_eq!(rt; answer, Err(DumpFault::Write));
            assert_eq!(rt; writer.bytes.len(), room);
            assert!(rt; whole.as_bytes().starts_with(&writer.bytes));
        }
    }
    Ok(())
}
