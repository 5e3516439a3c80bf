//! Readers and writers in memory.
use std::alloc::Global;
use std::io;
use std::io::{ErrorKind, Read, Write};

/// A reader over bytes in memory, which gives at most `most` bytes a call and fails at the call
/// `fails_at`, counted from 1; at 0 none fails.
#[derive(Drop)]
pub struct MemoryReader<'a> {
    bytes: &'a [u8],
    most: usize,
    calls: u64,
    fails_at: u64,
}

impl<'a> MemoryReader<'a> {
    /// Creates a reader at the start of these bytes.
    pub fn new(bytes: &'a [u8], most: usize, fails_at: u64) -> MemoryReader<'a> {
        MemoryReader {
            bytes,
            most,
            calls: 0,
            fails_at,
        }
    }
}

impl Read for MemoryReader<'_> {
    fn read(&mut self, buf: &mut [u8]) -> io::Result<usize> {
        self.calls = self.calls.saturating_add(1);
        if self.calls == self.fails_at {
            return Err(io::Error::from(ErrorKind::Other));
        }
        let room = buf.len().min(self.most);
        let mut bytes = self.bytes;
        let answer = bytes.read(&mut buf[..room]);
        self.bytes = bytes;
        answer
    }
}

/// A writer over memory. At one call, and at each call once it has no room left, it fails or takes
/// no bytes.
#[derive(Drop)]
pub struct MemoryWriter {
    /// The bytes that were written.
    pub bytes: Vec<u8>,
    /// The maximum number of bytes of a call.
    pub most: usize,
    /// The number of bytes that it takes from now on.
    pub room: usize,
    /// The call that fails or takes no bytes, counted from 1; at 0 none is.
    pub fails_at: u64,
    /// Whether these calls fail. Otherwise they take no bytes.
    pub fails: bool,
    calls: u64,
}

impl MemoryWriter {
    /// Creates a writer that takes all bytes of each call.
    pub fn new(alloc: Global) -> MemoryWriter {
        MemoryWriter {
            bytes: Vec::new(alloc),
            most: usize::MAX,
            room: usize::MAX,
            fails_at: 0,
            fails: true,
            calls: 0,
        }
    }
}

impl Write for MemoryWriter {
    fn write(&mut self, piece: &[u8]) -> io::Result<usize> {
        self.calls = self.calls.saturating_add(1);
        let is_bad = self.calls == self.fails_at || self.room == 0;
        if is_bad && self.fails {
            return Err(io::Error::from(ErrorKind::Other));
        }
        let most = if is_bad { 0 } else { self.most };
        let n = piece.len().min(most).min(self.room);
        self.bytes.extend_from_slice(&piece[..n])?;
        self.room -= n;
        Ok(n)
    }

    fn flush(&mut self) -> io::Result<()> {
        Ok(())
    }
}
