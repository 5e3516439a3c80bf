//! Texts that are kept open over both stores, and the answers to cases about them.
use crate::refused::{edit_growths, list_growths};
use crate::sessions::{line_start, make, opened, push_answer, push_report, push_state};
use failing_alloc::FailingAlloc;
use std::alloc::{AllocError, Global};
use test_cases::{sum_of, told_growths};
use yl_chunks::ChunkStore;
use yl_config::Config;
use yl_devices::RunFault;
use yl_session::{Edit, Session, Work};
use yl_text::{LineStore, PlainStore, Pos, TextFault};

// Of a text with more bytes than these, only their number and a sum over them are printed.
const LONG: usize = 2000;

/// The range of an edit. Lines and columns count from 0, and columns count characters.
#[derive(Clone, Copy)]
pub enum EditRange {
    /// The lines from the first to before the second number.
    Lines(u32, u32),
    /// The text between two positions.
    Places(Pos, Pos),
}

/// An edit, with the limits of its work.
#[derive(Clone, Copy)]
pub struct BoundedEdit {
    /// The range that the edit replaces.
    pub range: EditRange,
    /// The maximum number of rows that it may scan.
    pub scanned: u32,
    /// The maximum number of documents whose events it may derive.
    pub documents: u32,
}

/// A request about a text that is kept open.
#[derive(Clone, Copy)]
pub enum Request {
    /// The report of the text.
    Report,
    /// An edit of the text.
    Edit(BoundedEdit),
    /// All edits so far, made as a list.
    List,
}

/// The limits of a request.
#[derive(Clone, Copy)]
pub struct Limits {
    /// The minimum number of allocations.
    pub least: u64,
    /// The maximum number of allocations.
    pub most: u64,
    /// Whether an edit must derive the events of exactly as many documents as it may.
    pub is_exact: bool,
}

/// No limits.
pub const NO_LIMITS: Limits = Limits {
    least: 0,
    most: u64::MAX,
    is_exact: false,
};

/// A request with its bytes and its limits.
#[derive(Clone, Copy)]
pub struct Inquiry<'a> {
    /// The request.
    pub request: Request,
    /// The bytes after the request in its case.
    pub bytes: &'a [u8],
    /// The limits of the request.
    pub limits: Limits,
}

/// A text that was opened, its edits, and the session after them. The session and the edits
/// allocate from the heap that can refuse allocations.
#[derive(Drop)]
pub struct Held<S: LineStore> {
    /// The allocator of the session and of the edits.
    pub taken: S::Alloc,
    /// The configuration.
    pub config: Config,
    /// The text as it was opened.
    pub text: Vec<u8>,
    /// The edits that were made.
    pub edits: Vec<Edit<S::Alloc>, S::Alloc>,
    /// The answers to the edits, each as a line.
    pub answers: Vec<u8>,
    /// The index in `answers` at which the last line starts.
    pub last: usize,
    /// The session after the edits.
    pub session: Session<S>,
}

// Opens a text.
fn hold<S: LineStore>(
    alloc: Global,
    taken: S::Alloc,
    config: &Config,
    bytes: &[u8],
) -> Result<Held<S>, TextFault> {
    let Ok(text) = Vec::from_slice(alloc, bytes) else {
        return Err(TextFault::Memory);
    };
    let session = opened(taken, config, bytes)?;
    Ok(Held {
        taken,
        config: *config,
        text,
        edits: Vec::new(taken),
        answers: Vec::new(alloc),
        last: 0,
        session,
    })
}

// Returns the edit that replaces a range of this text by these bytes.
fn edit_of<S: LineStore>(
    held: &Held<S>,
    range: EditRange,
    bytes: &[u8],
) -> Result<Edit<S::Alloc>, AllocError> {
    let (from, to) = match range {
        EditRange::Lines(a, b) => (line_start(&held.session, a), line_start(&held.session, b)),
        EditRange::Places(from, to) => (from, to),
    };
    let bytes = Vec::from_slice(held.taken, bytes)?;
    Ok(Edit { from, to, bytes })
}

// Appends a line with the answer to an edit, and with its work if that does not keep to its limits.
fn push_judged(
    alloc: Global,
    answer: Result<Work, TextFault>,
    bounded: BoundedEdit,
    is_exact: bool,
    out: &mut Vec<u8>,
) -> Result<(), AllocError> {
    if let Ok(work) = answer {
        let fits = work.scanned <= bounded.scanned && work.documents <= bounded.documents;
        if fits && (!is_exact || work.documents == bounded.documents) {
            return out.extend_from_slice(b"edited\n");
        }
    }
    push_answer(alloc, answer, out)
}

// Makes an edit, and keeps it. Appends the answer, and the number of allocations if that exceeds
// the maximum.
fn edit_held<S: LineStore>(
    alloc: Global,
    heap: &FailingAlloc<Global>,
    held: &mut Held<S>,
    bounded: BoundedEdit,
    inquiry: Inquiry<'_>,
    out: &mut Vec<u8>,
) -> Result<(), AllocError> {
    let edit = edit_of(held, bounded.range, inquiry.bytes)?;
    heap.refuse(u64::MAX);
    let answer = make(&mut held.session, &edit);
    let count = u64::MAX - heap.left();
    heap.refuse(0);
    held.edits.push(edit)?;
    held.last = held.answers.len();
    push_answer(alloc, answer, &mut held.answers)?;
    push_judged(alloc, answer, bounded, inquiry.limits.is_exact, out)?;
    if count > inquiry.limits.most {
        let line = format!(in alloc; "asks for memory {count} times\n")?;
        out.extend_from_slice(line.as_str().as_bytes())?;
    }
    Ok(())
}

// Appends a text. Of a long text, appends a line about it.
fn tell(alloc: Global, text: &[u8], out: &mut Vec<u8>) -> Result<(), AllocError> {
    if text.len() <= LONG {
        return out.extend_from_slice(text);
    }
    let line = format!(in alloc; "{} bytes, sum {}\n", text.len(), sum_of(text))?;
    out.extend_from_slice(line.as_str().as_bytes())
}

// Appends the report, or the whole state of a session. Reading these must not allocate, and the
// next allocation is refused meanwhile.
fn tell_shown<S: LineStore>(
    alloc: Global,
    heap: &FailingAlloc<Global>,
    session: &Session<S>,
    is_all: bool,
    out: &mut Vec<u8>,
) -> Result<(), RunFault> {
    let mut shown = Vec::new(alloc);
    heap.refuse(1);
    if is_all {
        push_state(alloc, session, &mut shown)?;
    } else {
        push_report(session, &mut shown)?;
    }
    if !heap.is_armed() {
        out.extend_from_slice(b"looking takes memory\n")?;
    }
    heap.refuse(0);
    Ok(tell(alloc, shown.as_slice(), out)?)
}

// Repeats a request in new sessions, with each allocation refused in turn if `least` is not 0.
// Appends a line if an answer is wrong.
fn ask_anew<S: LineStore>(
    alloc: Global,
    heap: &FailingAlloc<Global>,
    held: &Held<S>,
    request: Request,
    least: u64,
    out: &mut Vec<u8>,
) -> Result<(), RunFault> {
    let count = match request {
        Request::List => list_growths(alloc, heap, held, u64::from(least > 0))?,
        _ if least == 0 => return Ok(()),
        Request::Report => list_growths(alloc, heap, held, 1)?,
        Request::Edit(_) => edit_growths(alloc, heap, held)?,
    };
    out.extend_from_slice(told_growths(count, least).as_bytes())?;
    Ok(())
}

// Answers a request, and appends the answer.
fn answer<S: LineStore>(
    alloc: Global,
    heap: &FailingAlloc<Global>,
    held: &mut Held<S>,
    inquiry: Inquiry<'_>,
    out: &mut Vec<u8>,
) -> Result<(), RunFault> {
    let request = inquiry.request;
    if let Request::Edit(bounded) = request {
        edit_held(alloc, heap, held, bounded, inquiry, out)?;
        let is_all = matches!(bounded.range, EditRange::Places(..));
        tell_shown(alloc, heap, &held.session, is_all, out)?;
    } else if let Request::Report = request {
        tell_shown(alloc, heap, &held.session, false, out)?;
    }
    ask_anew(alloc, heap, held, request, inquiry.limits.least, out)
}

/// A text that is kept open over both stores.
#[derive(Drop)]
pub struct Both<'a> {
    plain: Held<PlainStore<&'a FailingAlloc<Global>>>,
    chunks: Held<ChunkStore<&'a FailingAlloc<Global>>>,
}

/// Opens a text over both stores.
pub fn open<'a>(
    alloc: Global,
    heap: &'a FailingAlloc<Global>,
    config: &Config,
    bytes: &[u8],
) -> Result<Both<'a>, TextFault> {
    let plain = hold(alloc, heap, config, bytes)?;
    let chunks = hold(alloc, heap, config, bytes)?;
    Ok(Both { plain, chunks })
}

/// Answers a request over both stores. Returns the answer over one store, followed by that over the
/// other if they differ.
pub fn answer_both(
    alloc: Global,
    heap: &FailingAlloc<Global>,
    both: &mut Both<'_>,
    inquiry: Inquiry<'_>,
) -> Result<Vec<u8>, RunFault> {
    let mut shown = Vec::new(alloc);
    answer(alloc, heap, &mut both.plain, inquiry, &mut shown)?;
    let mut other = Vec::new(alloc);
    answer(alloc, heap, &mut both.chunks, inquiry, &mut other)?;
    if other.as_slice() != shown.as_slice() {
        shown.extend_from_slice(b"and over the other store:\n")?;
        shown.extend_from_slice(other.as_slice())?;
    }
    Ok(shown)
}
