//! Printed text that is not yet written.
ghost use Rattle.std.specs.Prelude.{◌≡◌, [], ◌++◌, ◌∷◌, length, take, decimal, IfErr, OnOk};
ghost use Rattle.std.specs.Io.KnownBytes.{Appends};
ghost use Rattle.yl_dump.specs.Place.{place_text};
ghost use Rattle.yl_dump.specs.Writing.{Leaves};
ghost use Rattle.yl_dump.specs.declared.fault.DumpFault.TheVariants.{Write as WriteRefused};

use crate::fault::{DumpFault, TextPlace};
use itoa::Buffer;
use std::alloc::{AllocError, Allocator};
use std::io::Write;
use std::marker::Model;

// The number of bytes from which a page is written. It is large, so that there are few writes.
const LARGE: usize = 65_536;

/// A page of printed text. It can be truncated until it is written.
#[derive(Drop)]
pub struct Page<A: Allocator> {
    text: Vec<u8, A>,
}

impl<A: Allocator> Model for Page<A> {
    ghost use Rattle.std.specs.Prelude.{ℕ, List};

    ghost Value = { List ℕ };

    ghost view = { λ p. p.text.items };
}

impl<A: Allocator> Page<A> {
    /// Creates an empty page.
    pub fn new(alloc: A) -> Page<A>
        ensures { result ≡ [] }
    {
        Page {
            text: Vec::new(alloc),
        }
    }

    /// Returns the bytes of the text.
    pub fn as_bytes(&self) -> &[u8]
        ensures { result.now ≡ self.now }
    {
        self.text.as_slice()
    }

    /// Returns the number of bytes of the text.
    pub fn len(&self) -> usize
        ensures { result ≡ length self.now }
    {
        self.text.len()
    }

    /// Shortens the text to its first `len` bytes, if it is longer.
    pub fn truncate(&mut self, len: usize)
        ensures { self.new ≡ take len self.old }
    {
        self.text.truncate(len);
    }

    /// Prints bytes. The only error is out of memory.
    pub fn bytes(&mut self, piece: &[u8]) -> Result<(), AllocError>
        ensures { OnOk result (self.new ≡ self.old ++ piece.now) }
    {
        self.text.extend_from_slice(piece)
    }

    /// Prints one byte. The only error is out of memory.
    #[inline(always)]
    pub fn byte(&mut self, byte: u8) -> Result<(), AllocError>
        ensures { OnOk result (self.new ≡ self.old ++ byte ∷ []) }
    {
        self.text.push(byte)?;
        Ok(())
    }

    /// Prints a text. The only error is out of memory.
    pub fn text(&mut self, text: &str) -> Result<(), AllocError>
        ensures { OnOk result (self.new ≡ self.old ++ text.now) }
    {
        self.text.extend_from_slice(text.as_bytes())
    }

    /// Prints a number in decimal digits. Numbers below 100 take a short path. The only error is
    /// out of memory.
    pub fn number(&mut self, n: u64) -> Result<(), AllocError>
        ensures { OnOk result (self.new ≡ self.old ++ decimal n) }
    {
        if n < 10 {
            return self.byte(b'0' + n as u8);
        }
        if n < 100 {
            self.byte(b'0' + (n / 10) as u8)?;
            return self.byte(b'0' + (n % 10) as u8);
        }
        let mut buffer = Buffer::new();
        self.text(buffer.format(n))
    }

    /// Prints a position as `LINE:COLUMN`, both counted from 1. The only error is out of memory.
    pub fn place(&mut self, place: TextPlace) -> Result<(), AllocError>
        ensures { OnOk result (self.new ≡ self.old ++ place_text place) }
    {
        self.number(place.line.saturating_add(1))?;
        self.byte(b':')?;
        self.number(place.column.saturating_add(1))
    }

    /// Writes the text, and empties the page. The only error is `Write`.
    pub fn write_to<W: Write>(&mut self, out: &mut W) -> Result<(), DumpFault>
        ensures written { OnOk result (Appends (W.contents out.old) (W.contents out.new) self.old) }
        ensures none_waits { OnOk result (self.new ≡ []) }
        ensures err { IfErr result (λ e. e ≡ WriteRefused) }
    {
        if out.write_all(self.text.as_slice()).is_err() {
            return Err(DumpFault::Write);
        }
        self.text.clear();
        Ok(())
    }

    /// Writes the text and empties the page, if the text has at least 65,536 bytes. The only error
    /// is `Write`.
    pub fn write_large<W: Write>(&mut self, out: &mut W) -> Result<(), DumpFault>
        ensures ok { OnOk result (Leaves (W.contents out.old) (W.contents out.new) self.old self.new) }
        ensures err { IfErr result (λ e. e ≡ WriteRefused) }
    {
        if self.text.len() < LARGE {
            return Ok(());
        }
        self.write_to(out)
    }
}
