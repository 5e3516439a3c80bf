//! A reader of one byte, again and again.
use std::io;
use std::io::Read;

/// A reader that gives the same byte so many times.
#[derive(Drop)]
pub struct Repeated {
    pub byte: u8,
    pub left: usize,
}

impl Read for Repeated {
    fn read(&mut self, buf: &mut [u8]) -> io::Result<usize> {
        let n = buf.len().min(self.left);
        buf[..n].fill(self.byte);
        self.left -= n;
        Ok(n)
    }
}
