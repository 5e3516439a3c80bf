//! Readers, writers and files in memory.
use std::alloc::{AllocError, Allocator, Global};
use std::cell::Cell;
use std::io;
use std::io::{ErrorKind, Read, Write};
use yl_config::Config;
use yl_server::{ConfigFiles, Found, Governed};

/// The behaviour of a reader and a writer.
#[derive(Clone, Copy)]
pub struct Devices {
    /// The maximum number of bytes of a call.
    pub most: usize,
    /// The read that fails, counted from 1.
    pub bad_read: u64,
    /// The write that fails or accepts no bytes, counted from 1.
    pub bad_write: u64,
    /// Whether this write fails. Otherwise it accepts no bytes.
    pub fails: bool,
}

/// Devices that never fail, and take all bytes of a call.
pub const GOOD: Devices = Devices {
    most: usize::MAX,
    bad_read: 0,
    bad_write: 0,
    fails: true,
};

/// Bytes that are read, and the lengths of the pieces in which they arrive.
#[derive(Clone, Copy)]
pub struct Input<'a> {
    /// The allocator of the devices.
    pub alloc: Global,
    /// The bytes.
    pub bytes: &'a [u8],
    /// The lengths of the pieces, in order.
    pub lengths: &'a [usize],
}

/// A reader of an input. It notes the number of bytes that are written each time it waits for a
/// piece.
#[derive(Drop)]
pub struct EditorReader<'a> {
    input: Input<'a>,
    devices: Devices,
    left: usize,
    calls: u64,
    written: &'a Cell<u64>,
    /// The number of bytes that were written each time the reader waited for a piece.
    pub noted: Vec<u64>,
}

impl<'a> EditorReader<'a> {
    /// Creates a reader at the start of an input.
    pub fn new(input: Input<'a>, devices: Devices, written: &'a Cell<u64>) -> EditorReader<'a> {
        EditorReader {
            input,
            devices,
            left: 0,
            calls: 0,
            written,
            noted: Vec::new(input.alloc),
        }
    }

    // Goes to the next piece, if there is one.
    fn go_on(&mut self) -> Result<(), AllocError> {
        self.noted.push(self.written.get())?;
        if let Some((length, lengths)) = self.input.lengths.split_first() {
            self.left = *length;
            self.input.lengths = lengths;
        }
        Ok(())
    }
}

impl Read for EditorReader<'_> {
    fn read(&mut self, buf: &mut [u8]) -> io::Result<usize> {
        self.calls = self.calls.saturating_add(1);
        if self.calls == self.devices.bad_read {
            return Err(io::Error::from(ErrorKind::Other));
        }
        if self.left == 0 {
            self.go_on()?;
        }
        let room = buf.len().min(self.left).min(self.devices.most);
        let mut bytes = self.input.bytes;
        let count = bytes.read(&mut buf[..room])?;
        self.input.bytes = bytes;
        self.left = self.left.saturating_sub(count);
        Ok(count)
    }
}

/// A writer over memory, which counts the bytes that are written.
#[derive(Drop)]
pub struct EditorWriter<'a> {
    devices: Devices,
    calls: u64,
    written: &'a Cell<u64>,
    /// The bytes that were written.
    pub bytes: Vec<u8>,
}

impl<'a> EditorWriter<'a> {
    /// Creates a writer without any bytes.
    pub fn new(alloc: Global, devices: Devices, written: &'a Cell<u64>) -> EditorWriter<'a> {
        EditorWriter {
            devices,
            calls: 0,
            written,
            bytes: Vec::new(alloc),
        }
    }
}

impl Write for EditorWriter<'_> {
    fn write(&mut self, piece: &[u8]) -> io::Result<usize> {
        self.calls = self.calls.saturating_add(1);
        let mut count = piece.len().min(self.devices.most);
        if self.calls == self.devices.bad_write {
            if self.devices.fails {
                return Err(io::Error::from(ErrorKind::Other));
            }
            count = 0;
        }
        self.bytes.extend_from_slice(&piece[..count])?;
        self.written.set(self.bytes.len() as u64);
        Ok(count)
    }

    fn flush(&mut self) -> io::Result<()> {
        Ok(())
    }
}

/// Files whose names are their contents. The first reading gives the part of the name before the
/// first bar, and the next one the part before the next bar. After the last part, the file cannot
/// be read. The part of a URI after its question mark is split in the same way. Each part is what
/// the files say about the document when a document is asked for: a configuration, `ignored` or
/// `unreadable`. If the part is empty or missing, there is no file. The readings of all files are
/// counted together, and so are the requests about all documents.
#[derive(Drop)]
pub struct Files<A> {
    alloc: A,
    readings: usize,
    askings: usize,
}

impl<A> Files<A> {
    /// Creates files that were not read yet.
    pub fn new(alloc: A) -> Files<A> {
        Files {
            alloc,
            readings: 0,
            askings: 0,
        }
    }
}

impl<A: Allocator + Copy> ConfigFiles for Files<A> {
    fn read(&mut self, path: &str) -> Found {
        let text = path.split('|').nth(self.readings);
        self.readings = self.readings.saturating_add(1);
        match text {
            Some(text) => Found::Said(Config::read(self.alloc, text.as_bytes())),
            None => Found::Unreadable,
        }
    }

    fn closed(&mut self, _uri: &str) {}

    fn of_document(&mut self, uri: &str, is_known: bool) -> Governed {
        let said = said_of(uri, self.askings);
        self.askings = self.askings.saturating_add(1);
        if said.is_empty() {
            return if is_known {
                Governed::Same
            } else {
                Governed::By(Config::standard())
            };
        }
        if said == "ignored" {
            return Governed::Ignored;
        }
        if said == "unreadable" {
            return Governed::Unreadable;
        }
        match Config::read(self.alloc, said.as_bytes()) {
            Ok(config) => Governed::By(config),
            Err(fault) => Governed::Faulty(fault),
        }
    }
}

// Returns what the files say about the document with this URI, after documents were asked for
// `askings` times.
fn said_of(uri: &str, askings: usize) -> &str {
    match uri.split_once('?') {
        Some((_, said)) => said.split('|').nth(askings).unwrap_or(""),
        None => "",
    }
}
