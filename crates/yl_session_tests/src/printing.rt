//! Tests of the writes of a report.
use crate::sessions::opened;
use std::alloc::Global;
use std::io::BufWriter;
use std::test::Fail;
use yl_report::write_report;
use yl_session::Session;
use yl_text::{PlainStore, Watched};

const ERRORS: &[u8] =
    b"f.yaml:1:4: [error] too many spaces after colon (colons)\nf.yaml:1:6: [error] trailing spaces (trailing-spaces)\n";

// The errors of a report are written without its warning, and in one write: a buffer of their
// length passes on only a write of all of them.
#[test]
fn errors_are_written_at_once(rt: HostRuntime) -> Result<(), Fail> {
    let session: Session<PlainStore<Global>> = opened(rt.alloc(), b"a:  1 \n")?;
    let buffer = BufWriter::with_capacity(rt.alloc(), ERRORS.len(), Vec::new(rt.alloc()))?;
    let mut out = Watched::new(buffer);
    write_report("f.yaml", session.problems(), true, &mut out)?;
    assert!(rt; out.into_inner().get_ref().as_slice() == ERRORS);
    Ok(())
}
