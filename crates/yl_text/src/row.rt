//! A line of a text.
ghost use Rattle.std.specs.Prelude.{◌≡◌, ◌+◌, length, IfOk};
ghost use Rattle.yl_text.specs.Lines.{break_bytes};

use arrayvec::ArrayString;
use std::alloc::{AllocError, Allocator};
use std::marker::Model;

/// The end of a line: no break, or one of the three breaks of YAML 1.2.2, section 5.4 (`b-break`).
/// The characters 0x85, 0x2028 and 0x2029 are not breaks.
#[derive(Clone, Copy, Debug, PartialEq, Eq)]
pub enum Break {
    /// No break. Only the last line of a text has none.
    No,
    /// LF (0x0A) alone.
    Lf,
    /// CR (0x0D) and LF (0x0A), which are one break.
    CrLf,
    /// CR (0x0D) alone.
    Cr,
}

impl Break {
    /// Returns the number of bytes of the break: 0, 1 or 2.
    pub fn len(self) -> usize
        ensures { result ≡ length (break_bytes self) }
    {
        match self {
            Break::No => 0,
            Break::Lf | Break::Cr => 1,
            Break::CrLf => 2,
        }
    }

    /// Returns the bytes of the break.
    pub fn as_bytes(self) -> &'static [u8]
        ensures { result.now ≡ break_bytes self }
    {
        match self {
            Break::No => b"",
            Break::Lf => b"\n",
            Break::CrLf => b"\r\n",
            Break::Cr => b"\r",
        }
    }
}

/// The maximum number of bytes of a text that is stored in the row itself.
const SHORT: usize = 16;

/// The text of a line in UTF-8, and its break. Both are in each variant of one enum, so that a
/// short text, which has no allocation of its own, makes the row no larger.
#[derive(Drop)]
enum KeptLine<A: Allocator> {
    Short {
        end: Break,
        text: ArrayString<SHORT>,
    },
    Long {
        end: Break,
        text: String<A>,
    },
}

/// A line: its text in UTF-8, and the break after it. In contracts it is a `RowValue`: the bytes of
/// the text, and the break. A text of at most 16 bytes is stored in the row itself, without an
/// allocation.
#[derive(Drop)]
pub struct Row<A: Allocator> {
    kept: KeptLine<A>,
}

impl<A: Allocator> Model for Row<A> {
    ghost use Rattle.yl_text.specs.Kept.{end_kept, text_kept};
    ghost use Rattle.yl_text.specs.Lines.{RowValue};

    ghost Value = { RowValue };

    ghost view = { λ r. record { text = text_kept r.kept; end = end_kept r.kept } };
}

impl<A: Allocator> Row<A> {
    ghost use Rattle.yl_text.specs.Lines.{RowValue};

    /// Creates a row with a copy of the text. The only error is out of memory.
    pub fn new(alloc: A, text: &str, end: Break) -> Result<Row<A>, AllocError>
        ensures text { IfOk result (λ row. row.text ≡ text.now) }
        ensures end { IfOk result (λ row. row.end ≡ end) }
    {
        let kept = match ArrayString::from(text) {
            Ok(text) => KeptLine::Short { end, text },
            Err(_) => KeptLine::Long {
                end,
                text: String::from_str(alloc, text)?,
            },
        };
        Ok(Row { kept })
    }

    /// Returns the text of the line without its break. Copies nothing.
    pub fn as_str(&self) -> &str
        ensures { result.now ≡ self.now.text }
    {
        match &self.kept {
            KeptLine::Short { text, .. } => text.as_str(),
            KeptLine::Long { text, .. } => text.as_str(),
        }
    }

    /// Returns the break after the line.
    pub fn end(&self) -> Break
        ensures { result ≡ self.now.end }
    {
        match self.kept {
            KeptLine::Short { end, .. } => end,
            KeptLine::Long { end, .. } => end,
        }
    }

    /// Returns the number of bytes of the line, break included.
    pub fn bytes(&self) -> usize
        ensures { result ≡ length self.now.text + length (break_bytes self.now.end) }
    {
        self.as_str().len() + self.end().len()
    }
}
