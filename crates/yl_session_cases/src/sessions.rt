//! Sessions over either store, with their edits and their states. The functions that are called
//! here have long contracts. These functions have none, so that a call of one brings in no
//! contract.
use std::alloc::{AllocError, Global};
use yl_config::Config;
use yl_devices::RunFault;
use yl_report::write_report;
use yl_session::{Edit, Session, Work, replay};
use yl_text::{LineStore, Lines, Pos, TextFault, Watched};

/// Opens a session over a text.
pub fn opened<S: LineStore>(
    taken: S::Alloc,
    config: &Config,
    text: &[u8],
) -> Result<Session<S>, TextFault> {
    Session::open(taken, *config, text)
}

/// Makes an edit.
pub fn make<S: LineStore>(
    session: &mut Session<S>,
    edit: &Edit<S::Alloc>,
) -> Result<Work, TextFault> {
    session.edit(edit.from, edit.to, edit.bytes.as_slice())
}

/// A session, and the answer to each edit of a list.
pub type Replayed<S> = (
    Session<S>,
    Vec<Result<Work, TextFault>, <S as Lines>::Alloc>,
);

/// Makes a list of edits of a text.
pub fn replayed<S: LineStore>(
    taken: S::Alloc,
    config: &Config,
    text: &[u8],
    edits: &[Edit<S::Alloc>],
) -> Result<Replayed<S>, TextFault> {
    replay(taken, *config, text, edits)
}

/// Returns the start of a line, or the end of the text if there is no such line.
pub fn line_start<S: LineStore>(session: &Session<S>, line: u32) -> Pos {
    match session.len().checked_sub(1) {
        Some(last) if last < line as usize => Pos {
            line: u32::try_from(last).unwrap_or(line),
            col: u32::try_from(session.line(last).chars().count()).unwrap_or(u32::MAX),
        },
        _ => Pos { line, col: 0 },
    }
}

/// Appends the report as it is printed.
pub fn push_report<S: LineStore>(session: &Session<S>, out: &mut Vec<u8>) -> Result<(), RunFault> {
    let mut out = Watched::new(out);
    match write_report("", session.problems(), false, &mut out) {
        Ok(()) => Ok(()),
        Err(_) => Err(RunFault::Write),
    }
}

/// Appends the whole state of a session: its lines with a bar after each, its status with `strict`
/// unset and set, and its report.
pub fn push_state<S: LineStore>(
    alloc: Global,
    session: &Session<S>,
    out: &mut Vec<u8>,
) -> Result<(), RunFault> {
    for i in 0..session.len() {
        out.extend_from_slice(session.line(i).as_bytes())?;
        out.push(b'|')?;
    }
    let status = session.status(false);
    let strict = session.status(true);
    let line = format!(in alloc; " {status} {strict}\n")?;
    out.extend_from_slice(line.as_str().as_bytes())?;
    push_report(session, out)
}

/// Appends a line with the answer to an edit or to the opening of a text: its work, or the fault.
pub fn push_answer(
    alloc: Global,
    answer: Result<Work, TextFault>,
    out: &mut Vec<u8>,
) -> Result<(), AllocError> {
    let line = match answer {
        Ok(work) => {
            let scanned = work.scanned;
            let documents = work.documents;
            format!(in alloc; "edited: {scanned} rows, {documents} documents\n")
        }
        Err(TextFault::NotUtf8 { valid_up_to }) => format!(in alloc; "NotUtf8 {valid_up_to}\n"),
        Err(TextFault::Range) => String::from_str(alloc, "Range\n"),
        Err(TextFault::TooLarge) => String::from_str(alloc, "TooLarge\n"),
        Err(TextFault::Memory) => String::from_str(alloc, "Memory\n"),
    };
    out.extend_from_slice(line?.as_str().as_bytes())
}
