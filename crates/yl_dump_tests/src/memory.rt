//! Tests with an allocator that refuses one allocation, each in turn.
use crate::views::{PrintedView, write_view};
use failing_alloc::FailingAlloc;
use std::alloc::Global;
use std::test::Fail;
use yl_dump::DumpFault;

/// A view, a text, and what the model prints of it.
type Case = (PrintedView, &'static str, &'static str);

static CASES: [Case; 9] = [
    (
        PrintedView::Lexemes,
        "- {\"a\": &b c}\n- 'd\n  e' # f\n- *b\n---\n[g: |\n",
        "1:1-1:2 Entry \"\"\n1:3-1:4 MapOpen \"\"\n1:4-1:7 Scalar(Double) \"a\"\n1:7-1:8 Value \"\"\n1:9-1:11 Anchor \"b\"\n1:12-1:13 Scalar(Plain) \"c\"\n1:13-1:14 MapClose \"\"\n2:1-2:2 Entry \"\"\n2:3-3:5 Scalar(Single) \"d e\"\n3:6-3:9 Comment \"# f\"\n4:1-4:2 Entry \"\"\n4:3-4:5 Alias \"b\"\n5:1-5:4 DocStart \"\"\n6:1-6:2 SeqOpen \"\"\n6:2-6:3 Scalar(Plain) \"g\"\n6:3-6:4 Value \"\"\n6:5 fault \"character not allowed here\"\n",
    ),
    (
        PrintedView::Events,
        "- {\"a\": &b c}\n- 'd\n  e' # f\n- *b\n---\n[g: |\n",
        "+STR\n+DOC\n+SEQ @1:1\n+MAP @1:3\n=VAL \"\"a\" @1:4\n=VAL &b :\"c\" @1:12\n-MAP\n=VAL '\"d e\" @2:3\n=ALI *b @4:3\n-SEQ\n-DOC\n!DOC 6:5 \"character not allowed here\"\n-STR\n",
    ),
    (
        PrintedView::Lines,
        "- {\"a\": &b c}\n- 'd\n  e' # f\n- *b\n---\n[g: |\n",
        "1 sound [] - -\n2 sound [1] - MapClose\n3 not-sound\n4 sound [1] - Scalar(Single)\n5 sound [1] - Alias\n6 sound [] - DocStart\n7 not-sound\n",
    ),
    (
        PrintedView::Lexemes,
        "--- !n\n? - &o p\n: {\nq: \"r\\\"\n",
        "1:1-1:4 DocStart \"\"\n1:5-1:7 Tag \"\"\n2:1-2:2 Key \"\"\n2:3-2:4 Entry \"\"\n2:5-2:7 Anchor \"o\"\n2:8-2:9 Scalar(Plain) \"p\"\n3:1-3:2 Value \"\"\n3:3-3:4 MapOpen \"\"\n4:1-4:2 Scalar(Plain) \"q\"\n4:2-4:3 Value \"\"\n4:4 fault \"quoted scalar is not closed\"\n",
    ),
    (
        PrintedView::Events,
        "--- !n\n? - &o p\n: {\nq: \"r\\\"\n",
        "+STR\n!DOC 4:4 \"quoted scalar is not closed\"\n-STR\n",
    ),
    (
        PrintedView::Lines,
        "--- !n\n? - &o p\n: {\nq: \"r\\\"\n",
        "1 sound [] - -\n2 sound [] - Tag\n3 sound [1,3] - Scalar(Plain)\n4 sound [1] { MapOpen\n5 not-sound\n",
    ),
    (
        PrintedView::Lexemes,
        "a:\n- |\n  bé\n- [c]\n...\n# d\n--- >\n e\n",
        "1:1-1:2 Scalar(Plain) \"a\"\n1:2-1:3 Value \"\"\n2:1-2:2 Entry \"\"\n2:3-3:5 Scalar(Literal) \"\"\n4:1-4:2 Entry \"\"\n4:3-4:4 SeqOpen \"\"\n4:4-4:5 Scalar(Plain) \"c\"\n4:5-4:6 SeqClose \"\"\n5:1-5:4 DocEnd \"\"\n6:1-6:4 Comment \"# d\"\n7:1-7:4 DocStart \"\"\n7:5-8:3 Scalar(Folded) \"\"\n",
    ),
    (
        PrintedView::Events,
        "a:\n- |\n  bé\n- [c]\n...\n# d\n--- >\n e\n",
        "+STR\n+DOC\n+MAP @1:1\n=VAL :\"a\" @1:1\n+SEQ @2:1\n=VAL |\"\" @2:3\n+SEQ @4:3\n=VAL :\"c\" @4:4\n-SEQ\n-SEQ\n-MAP\n-DOC\n+DOC\n=VAL >\"\" @7:5\n-DOC\n-STR\n",
    ),
    (
        PrintedView::Lines,
        "a:\n- |\n  bé\n- [c]\n...\n# d\n--- >\n e\n",
        "1 sound [] - -\n2 sound [1] - Value\n3 not-sound\n4 sound [1] - Scalar(Literal)\n5 sound [1] - SeqClose\n6 sound [] - DocEnd\n7 sound [] - DocEnd\n8 not-sound\n9 not-sound\n",
    ),
];

// Writes a view with the `nth` allocation refused, counted from 1. Returns the written bytes, and
// the result.
fn written(
    global: Global,
    heap: &FailingAlloc<Global>,
    case: &Case,
    nth: u64,
) -> (Vec<u8>, Result<(), DumpFault>) {
    let (view, text, _) = *case;
    let mut bytes = Vec::new(global);
    heap.refuse(nth);
    let answer = write_view(heap, view, text, &mut bytes);
    (bytes, answer)
}

// Returns the number of allocations that were refused before one run was refused none. Returns
// `None` if a refused run returned anything but out of memory, if it wrote what is not the
// beginning of the printed text, or if the last run did not write the text.
fn refusals(global: Global, case: &Case) -> Option<u64> {
    let heap = FailingAlloc::new(global);
    let printed = case.2.as_bytes();
    for n in 0..u64::MAX {
        let (bytes, answer) = written(global, &heap, case, n + 1);
        if heap.is_armed() {
            let is_whole = answer == Ok(()) && bytes.as_slice() == printed;
            return is_whole.then_some(n);
        }
        if answer != Err(DumpFault::Memory) || !printed.starts_with(bytes.as_slice()) {
            return None;
        }
    }
    None
}

#[test]
fn memory_is_refused(rt: HostRuntime) -> Result<(), Fail> {
    for case in &CASES {
        let count = refusals(rt.alloc(), case);
        assert!(rt; count > Some(0), "{}", case.1);
    }
    Ok(())
}
