//! The state of a session as text.
use std::alloc::{AllocError, Global};
use std::test::Fail;
use yl_report::write_report;
use yl_session::Session;
use yl_text::{LineStore, Watched};

/// Appends the lines of a session, each followed by a bar.
fn push_lines<S: LineStore>(session: &Session<S>, out: &mut Vec<u8>) -> Result<(), AllocError> {
    for i in 0..session.len() {
        out.extend_from_slice(session.line(i).as_bytes())?;
        out.push(b'|')?;
    }
    Ok(())
}

/// Returns the state of a session: its lines, its status with `strict` unset and set, and its
/// report.
pub fn state_shown<S: LineStore>(alloc: Global, session: &Session<S>) -> Result<Vec<u8>, Fail> {
    let mut out = Vec::new(alloc);
    push_lines(session, &mut out)?;
    out.push(session.status(false))?;
    out.push(session.status(true))?;
    write_report("", session.problems(), false, &mut Watched::new(&mut out))?;
    Ok(out)
}
