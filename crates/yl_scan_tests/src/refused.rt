//! A scanner or a recorder that was refused memory answers so to each later call. Each growth is refused in turn, up to the first run that meets no
//! refusal.
use crate::feeding::{MANY, fed, is_short, recorded};
use crate::texts::TEXTS;
use failing_alloc::FailingAlloc;
use std::alloc::{AllocError, Global};
use std::test::Fail;
use yl_lexeme::Meter;
use yl_record::{Record, Recorder};
use yl_scan::{LineState, Scanner};
use yl_text::{Row, split};

type Heap<'a> = &'a FailingAlloc<Global>;

/// How rows are read: by a scanner as they are, by one that gets their texts, and by a recorder.
#[derive(Clone, Copy)]
enum Way {
    Rows,
    Texts,
    Records,
}

/// What reads rows.
#[derive(Drop)]
enum Reader<'s, 'a> {
    Scanner(Scanner<'s, Heap<'a>>),
    Recorder(Recorder<'s, Heap<'a>>),
}

/// A reader at a text's start, or where this state is.
fn start<'s, 'a>(
    heap: &'s Heap<'a>,
    state: Option<&LineState<Heap<'a>>>,
    way: Way,
) -> Result<Reader<'s, 'a>, AllocError> {
    match (way, state) {
        (Way::Records, None) => Ok(Reader::Recorder(Recorder::start(heap))),
        (Way::Records, Some(state)) => Ok(Reader::Recorder(Recorder::resume(heap, state)?)),
        (_, None) => Ok(Reader::Scanner(Scanner::start(heap))),
        (_, Some(state)) => Ok(Reader::Scanner(Scanner::resume(heap, state)?)),
    }
}

/// Feeds a scanner a row, or its text, and lets go what it tells.
fn pass<'a>(
    global: Global,
    scanner: &mut Scanner<'_, Heap<'a>>,
    row: &Row<Heap<'a>>,
    meter: &mut Meter,
    way: Way,
) -> Result<(), AllocError> {
    if scanner.line() as usize > MANY || meter.lines as usize > MANY || !is_short(global, row)? {
        return Err(AllocError);
    }
    let step = match way {
        Way::Rows => scanner.feed(row, meter),
        _ => scanner.feed_text(row.as_str(), meter),
    };
    match step {
        Ok(_) => Ok(()),
        Err(error) => Err(error),
    }
}

/// Reads rows, also behind a call that is refused, and the text's end. Whether a call was refused; nothing, if one behind it was not.
fn is_refused<'a>(
    global: Global,
    reader: Reader<'_, 'a>,
    rows: &[Row<Heap<'a>>],
    way: Way,
) -> Option<bool> {
    let mut reader = reader;
    let mut meter = Meter::new();
    let mut is_refused = false;
    for row in rows {
        let answer = match &mut reader {
            Reader::Scanner(scanner) => pass(global, scanner, row, &mut meter, way),
            Reader::Recorder(recorder) => fed(global, recorder, row, &mut meter),
        };
        if answer.is_ok() && is_refused {
            return None;
        }
        is_refused = answer.is_err();
    }
    let is_ok = match reader {
        Reader::Scanner(scanner) => scanner.finish().is_ok(),
        Reader::Recorder(recorder) => recorder.finish().is_ok(),
    };
    (!is_ok || !is_refused).then_some(!is_ok)
}

/// The same of a reader that begins at the text's start, or where this state is.
fn is_refused_from<'a>(
    global: Global,
    heap: Heap<'a>,
    state: Option<&LineState<Heap<'a>>>,
    rows: &[Row<Heap<'a>>],
    way: Way,
) -> Option<bool> {
    match start(&heap, state, way) {
        Ok(reader) => is_refused(global, reader, rows, way),
        Err(_) => Some(true),
    }
}

/// The state of the row at `from`, if that is not the first.
fn state_at<'r, 'a>(
    records: &'r [Record<Heap<'a>>],
    from: usize,
) -> Option<&'r LineState<Heap<'a>>> {
    if from == 0 {
        return None;
    }
    records.get(from)?.state()
}

/// How many growths there are where none is refused and a text is read from this row on. Where one is, a call is refused, and the calls behind it are.
fn growths(global: Global, text: &str, from: usize, way: Way) -> Result<u64, Fail> {
    let refusing = FailingAlloc::new(global);
    let heap: Heap<'_> = &refusing;
    let rows = split(heap, text.as_bytes())?;
    let records = recorded(global, Recorder::start(&heap), 1, &rows)?;
    let state = state_at(&records, from);
    let rest = &rows.as_slice()[from.min(rows.len())..];
    for n in 0..u64::MAX {
        heap.refuse(n + 1);
        let refused = is_refused_from(global, heap, state, rest, way);
        if heap.is_armed() && refused == Some(false) {
            return Ok(n);
        }
        if refused != Some(true) {
            break;
        }
    }
    Err(AllocError)?
}

const TEXT: &str = "- {\"a\": &b c,\n d: [e]} # f\n- 'g\n  h'\n- |\n  i\n";

#[test]
fn a_refusal_stays(rt: HostRuntime) -> Result<(), Fail> {
    for (from, least) in [(0, 9), (1, 6), (4, 2)] {
        for way in [Way::Rows, Way::Texts, Way::Records] {
            let growths = growths(rt.alloc(), TEXT, from, way)?;
            assert!(rt; growths > least, "{growths} growths from row {from}");
        }
    }
    Ok(())
}

#[test]
fn a_refusal_of_records_stays(rt: HostRuntime) -> Result<(), Fail> {
    for (text, sound, _, _) in TEXTS {
        let growths = growths(rt.alloc(), text, 0, Way::Records)?;
        assert!(rt; growths > sound as u64, "{text:?} {growths}");
    }
    Ok(())
}
