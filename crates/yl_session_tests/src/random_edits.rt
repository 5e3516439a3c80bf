//! Tests of random edits of small texts, over both stores. After each edit, a session shows what a
//! new session over the edited text shows.
use crate::sessions::{edit_lines, opened};
use crate::shown::state_shown;
use std::alloc::{AllocError, Global};
use std::process::Abort;
use std::test::Fail;
use test_cases::Random;
use yl_chunks::ChunkStore;
use yl_session::Session;
use yl_text::{LineStore, PlainStore};

// The pieces of texts, each of whole lines. Those with a fault are last, so that a text of the
// first ones has no fault.
static PIECES: &[&str] = &[
    // Markers, some with a problem in their line, and empty lines at the borders of documents. Some
    // are repeated, so that a text has several documents.
    "---\n",
    "---\n",
    "---\n",
    "--- \n",
    "--- \n",
    "---\n\n",
    "\n---\n",
    "...\n",
    "...\n",
    "\n",
    "\n\n\n\n",
    // Most of these have problems of lines or of sections.
    "a: 1\n",
    "b:  2\n",
    "c: 3 \n",
    "c: [1,2]\n",
    "yes: no\n",
    "k: 1\nk: 2\n",
    "x: &a 1\n",
    "x: *a\n",
    "#comment \n",
    // These have several widths of indentation.
    "m:\n  n: 1\n",
    "m:\n    n: 1\n",
    "m:\n   - n\n",
    "m:\n- n\n",
    // These comments switch rules, or silence a line or the file.
    "# yamllint disable\n",
    "# yamllint disable rule:colons\n",
    "# yamllint enable\n",
    "# yamllint enable rule:colons rule:trailing-spaces\n",
    "# yamllint disable-line\n",
    "e:  5 # yamllint disable-line rule:colons\n",
    "# yamllint disable-file\n",
    // These have a fault at a position or after their document, and brackets and quotes that are
    // closed in a later line or never.
    "n: ['1' 2]\n",
    "f: [1,\n",
    "  2]\n",
    "%YAML 1.2\n",
    "a: b: c\n",
    "q: \"open\n",
    "q: close\"\n",
];

// The number of pieces without a fault.
const SOUND: usize = 31;

// Returns the indices of `count` random pieces among the first `kinds` pieces.
fn random_pieces(
    alloc: Global,
    random: &mut Random,
    kinds: usize,
    count: usize,
) -> Result<Vec<usize>, AllocError> {
    let mut pieces = Vec::new(alloc);
    for _ in 0..count {
        pieces.push(random.below(kinds))?;
    }
    Ok(pieces)
}

// Returns the text of pieces.
fn text_of(alloc: Global, pieces: &[usize]) -> Result<String, AllocError> {
    let mut text = String::new(alloc);
    for piece in pieces {
        text.push_str(PIECES.get(*piece).unwrap_or(&""))?;
    }
    Ok(text)
}

// Returns the number of line breaks in the text of these pieces. The only error is out of memory.
fn lines_in(alloc: Global, pieces: &[usize]) -> Result<u32, AllocError> {
    let text = text_of(alloc, pieces)?;
    let ends = text.bytes().filter(|byte| *byte == b'\n').count();
    Ok(u32::try_from(ends).unwrap_or(u32::MAX))
}

// An edit: these pieces replace those with the indices `from..end`.
#[derive(Drop)]
struct PiecesEdit {
    from: usize,
    end: usize,
    new: Vec<usize>,
}

// Returns a random edit of `len` pieces, which removes at most two and inserts at most two.
fn random_edit(
    alloc: Global,
    random: &mut Random,
    kinds: usize,
    len: usize,
) -> Result<PiecesEdit, AllocError> {
    let from = random.between(0, len);
    let end = from.saturating_add(random.below(3)).min(len);
    let count = random.below(3);
    let new = random_pieces(alloc, random, kinds, count)?;
    Ok(PiecesEdit { from, end, new })
}

// Returns the pieces after an edit.
fn edited(alloc: Global, pieces: &[usize], edit: &PiecesEdit) -> Result<Vec<usize>, AllocError> {
    let mut edited = Vec::new(alloc);
    edited.extend_from_slice(pieces.get(..edit.from).unwrap_or_default())?;
    edited.extend_from_slice(&edit.new)?;
    edited.extend_from_slice(pieces.get(edit.end..).unwrap_or_default())?;
    Ok(edited)
}

// Makes an edit of these pieces in a session over their text.
fn make_edit<S: LineStore>(
    alloc: Global,
    session: &mut Session<S>,
    pieces: &[usize],
    edit: &PiecesEdit,
) -> Result<(), Fail> {
    let a = lines_in(alloc, pieces.get(..edit.from).unwrap_or_default())?;
    let b = lines_in(alloc, pieces.get(..edit.end).unwrap_or_default())?;
    let bytes = text_of(alloc, &edit.new)?;
    edit_lines(session, a, b, bytes.as_bytes())?;
    Ok(())
}

// Returns what a new session over the text of these pieces shows.
fn shown_anew(alloc: Global, pieces: &[usize]) -> Result<Vec<u8>, Fail> {
    let text = text_of(alloc, pieces)?;
    let session: Session<PlainStore<Global>> = opened(alloc, text.as_bytes())?;
    state_shown(alloc, &session)
}

// Makes an edit in a session over the text of these pieces, and returns the pieces after it. The
// session must then show what a new session over their text shows.
fn check_edit<S: LineStore>(
    rt: &impl Abort,
    alloc: Global,
    session: &mut Session<S>,
    pieces: &[usize],
    edit: &PiecesEdit,
) -> Result<Vec<usize>, Fail> {
    make_edit(alloc, session, pieces, edit)?;
    let edited = edited(alloc, pieces, edit)?;
    let shown = state_shown(alloc, session)?;
    let wanted = shown_anew(alloc, &edited)?;
    assert!(rt;
        shown.as_slice() == wanted.as_slice(),
        "pieces {pieces:?}, then {edited:?}"
    );
    Ok(edited)
}

// Checks random edits of a random text, one after another.
fn check_text<S: LineStore<Alloc = Global>>(
    rt: &impl Abort,
    alloc: Global,
    seed: u64,
) -> Result<(), Fail> {
    let mut random = Random::new(seed);
    let kinds = random.between(SOUND, PIECES.len());
    let count = random.between(4, 20);
    let mut pieces = random_pieces(alloc, &mut random, kinds, count)?;
    let text = text_of(alloc, &pieces)?;
    let mut session: Session<S> = opened(alloc, text.as_bytes())?;
    for _ in 0..12 {
        let edit = random_edit(alloc, &mut random, kinds, pieces.len())?;
        pieces = check_edit(rt, alloc, &mut session, &pieces, &edit)?;
    }
    Ok(())
}

#[test]
fn an_edited_text_shows_what_it_shows_opened_anew(rt: HostRuntime) -> Result<(), Fail> {
    for seed in 0..250 {
        check_text::<PlainStore<Global>>(&rt, rt.alloc(), seed)?;
        check_text::<ChunkStore<Global>>(&rt, rt.alloc(), seed)?;
    }
    Ok(())
}
