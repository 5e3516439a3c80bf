//! Messages that are read.
use failing_alloc::FailingAlloc;
use std::alloc::{Allocator, Global};
use test_cases::{MemoryReader, say, write};
use yl_devices::{Ahead, RunFault};
use yl_frames::{NextBody, next_body};
use yl_text::Watched;

// More bytes than these are read but once.
const SMALL: usize = 1000;

// Puts a line for each message after a text.
fn read_all<A: Allocator + Copy>(
    alloc: A,
    mut reader: MemoryReader<'_>,
    lines: &mut Vec<u8>,
) -> Result<(), RunFault> {
    let mut ahead = Ahead::new();
    for _ in 0..u64::MAX {
        let mut input = Watched::new(&mut reader);
        match next_body(alloc, &mut ahead, &mut input)? {
            NextBody::Body(bytes) => {
                lines.extend_from_slice(b"= ")?;
                lines.extend_from_slice(bytes.as_slice())?;
                lines.push(b'\n')?;
            }
            NextBody::Dropped => lines.extend_from_slice(b"= dropped\n")?,
            NextBody::End => {
                lines.extend_from_slice(b"= end\n")?;
                return Ok(());
            }
            NextBody::Bad => {
                lines.extend_from_slice(b"= bad\n")?;
                return Ok(());
            }
        }
    }
    Ok(())
}

// Whether readers that give few bytes a call read the same.
fn is_same_in_pieces(alloc: Global, bytes: &[u8], whole: &[u8]) -> Result<bool, RunFault> {
    for most in [1, 2, 3, 7, 100] {
        let mut lines = Vec::new(alloc);
        read_all(alloc, MemoryReader::new(bytes, most, 0), &mut lines)?;
        if lines.as_slice() != whole {
            return Ok(false);
        }
    }
    Ok(true)
}

// Whether a reader that fails at a call, each in turn, ends the reading there.
fn stops_at_each_read(alloc: Global, bytes: &[u8], whole: &[u8]) -> bool {
    for nth in 1..u64::MAX {
        let mut lines = Vec::new(alloc);
        match read_all(alloc, MemoryReader::new(bytes, 5, nth), &mut lines) {
            Ok(()) => return lines.as_slice() == whole,
            Err(RunFault::Read) if whole.starts_with(lines.as_slice()) => {}
            Err(_) => return false,
        }
    }
    false
}

// Whether one message at most is dropped where an allocation is refused, each in turn, and all others are found.
fn drops_one(alloc: Global, bytes: &[u8], whole: &[u8]) -> Result<bool, RunFault> {
    let heap = FailingAlloc::new(alloc);
    let count = whole.split(|c| *c == b'\n').count();
    for nth in 1..u64::MAX {
        heap.refuse(nth);
        let mut lines = Vec::new(alloc);
        read_all(&heap, MemoryReader::new(bytes, 5, 0), &mut lines)?;
        if heap.is_armed() {
            return Ok(lines.as_slice() == whole);
        }
        let dropped = lines
            .as_slice()
            .split(|c| *c == b'\n')
            .filter(|line| *line == b"= dropped".as_slice())
            .count();
        if dropped > 1 || lines.as_slice().split(|c| *c == b'\n').count() != count {
            return Ok(false);
        }
    }
    Ok(false)
}

/// Prints the messages that bytes are.
pub fn show_read(rt: &HostRuntime, bytes: &[u8]) -> Result<(), RunFault> {
    let alloc = rt.alloc();
    let mut whole = Vec::new(alloc);
    read_all(alloc, MemoryReader::new(bytes, usize::MAX, 0), &mut whole)?;
    write(rt, whole.as_slice())?;
    if bytes.len() > SMALL {
        return Ok(());
    }
    if !is_same_in_pieces(alloc, bytes, whole.as_slice())? {
        say(rt, "is read otherwise in pieces")?;
    }
    if !stops_at_each_read(alloc, bytes, whole.as_slice()) {
        say(rt, "is read otherwise where a read fails")?;
    }
    if !drops_one(alloc, bytes, whole.as_slice())? {
        say(rt, "is read otherwise where memory is refused")?;
    }
    Ok(())
}
