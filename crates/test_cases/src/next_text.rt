//! The start of the next text.
use crate::escaped::{first_word, push_unescaped};
use std::alloc::{AllocError, Global};
use std::mem;

/// The start of the next text, which cases give before the one that ends it.
#[derive(Drop)]
pub struct NextText {
    alloc: Global,
    start: Vec<u8>,
}

impl NextText {
    /// Creates a start that is empty.
    pub fn new(alloc: Global) -> NextText {
        NextText {
            alloc,
            start: Vec::new(alloc),
        }
    }

    // Appends what a case says, `count` times.
    fn push_times(&mut self, count: usize, text: &str) -> Result<(), AllocError> {
        for _ in 0..count {
            push_unescaped(&mut self.start, text)?;
        }
        Ok(())
    }

    // Appends `count` lines with a key each.
    fn push_keys(&mut self, count: usize) -> Result<(), AllocError> {
        for n in 0..count {
            let line = format!(in self.alloc; "k{n:05}: v\n")?;
            self.start.extend_from_slice(line.as_str().as_bytes())?;
        }
        Ok(())
    }

    // Appends `count` lines with a key each, which has one blank more before it than the key above.
    fn push_stairs(&mut self, count: usize) -> Result<(), AllocError> {
        let mut blanks = Vec::new(self.alloc);
        for _ in 0..count {
            self.start.extend_from_slice(blanks.as_slice())?;
            self.start.extend_from_slice(b"k:\n")?;
            blanks.push(b' ')?;
        }
        Ok(())
    }

    /// Appends what a case gives, by its first word and the rest of it. Returns `false` if the case
    /// gives no start of a text. The only error is out of memory.
    pub fn extend(&mut self, word: &str, rest: &str) -> Result<bool, AllocError> {
        if word == "more" {
            push_unescaped(&mut self.start, rest)?;
            return Ok(true);
        }
        let (count, text) = first_word(rest);
        let Ok(count) = count.parse() else {
            return Ok(false);
        };
        match word {
            "times" => self.push_times(count, text)?,
            "keys" => self.push_keys(count)?,
            "stairs" => self.push_stairs(count)?,
            _ => return Ok(false),
        }
        Ok(true)
    }

    /// Returns the text that ends with what `rest` says. The start of the next text is empty then.
    /// The only error is out of memory.
    pub fn end(&mut self, rest: &str) -> Result<Vec<u8>, AllocError> {
        push_unescaped(&mut self.start, rest)?;
        Ok(mem::replace(&mut self.start, Vec::new(self.alloc)))
    }

    /// Appends what a case gives and returns `None`, or returns the text that the case ends. The
    /// only error is out of memory.
    pub fn end_by(&mut self, word: &str, rest: &str) -> Result<Option<Vec<u8>>, AllocError> {
        if self.extend(word, rest)? {
            return Ok(None);
        }
        Ok(Some(self.end(rest)?))
    }
}
