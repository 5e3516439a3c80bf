//! Lines that are printed.
use std::alloc::AllocError;

// The first bytes of a line are printed, and of more than so many after them the last.
const FRONT: usize = 80;

const REST: usize = 120;

const BACK: usize = 40;

/// Puts a line, without its middle where it is long.
pub fn push_line(out: &mut Vec<u8>, line: &[u8]) -> Result<(), AllocError> {
    let (front, rest) = line.split_at(line.len().min(FRONT));
    out.extend_from_slice(front)?;
    if rest.len() > REST {
        out.extend_from_slice(b" .. ")?;
        out.extend_from_slice(&rest[rest.len() - BACK..])?;
    } else {
        out.extend_from_slice(rest)?;
    }
    out.push(b'\n')?;
    Ok(())
}

/// Puts a line for each part of a text between line feeds.
pub fn push_lines(out: &mut Vec<u8>, text: &[u8]) -> Result<(), AllocError> {
    for line in text.split(|c| *c == b'\n') {
        push_line(out, line)?;
    }
    Ok(())
}
